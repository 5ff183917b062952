// What a store is.
ghost use Rattle.std.specs.Prelude.{◌≡◌, ℕ, ◌≤◌, List, length, IfSome, Some};
ghost use Rattle.std.specs.Option.{option_map};
ghost use Rattle.std.specs.List.{slice_get};
ghost use Rattle.maps.specs.Maps.{Map, Listed};
ghost use Rattle.terms.specs.declared.cell.Cell.{Cell};
ghost use Rattle.terms.specs.Fitting.{cells_of};
ghost use Rattle.stores.specs.Means.{count_of, row_of, Put, Dropped};

use crate::count::Count;
use crate::entry::{Entry, Size};
use crate::fault::StoreFault;
use terms::row::Row;

// A map from rows to counts with a fixed number of places.
pub trait Store {
    // the map, over rows as lists of cells
    ghost means: { Self → Map (List Cell) };

    // the rows that have a count, each once, in the order in which `row` gives them
    ghost rows: { Self → List (List Cell) };

    ghost listed: { (s : Self) → Listed (rows s) (means s) };

    ghost small: { (s : Self) (r : List Cell) (n : ℕ) → means s r ≡ Some n → n ≤ 999999 };

    // how many rows there may be
    ghost places: { Self → ℕ };

    ghost some: { (s : Self) → 1 ≤ places s };

    ghost few: { (s : Self) → places s ≤ 4096 };

    ghost room: { (s : Self) → length (rows s) ≤ places s };

    // The count of a row, or absent.
    fn find(&self, key: &Row) -> Option<Count>
        ensures { option_map count_of result ≡ means self.now (cells_of key.now) };

    // Replaces a count or adds a row; refused exactly for a new row when every place is taken.
    fn put(&mut self, key: &Row, count: Count) -> Result<(), StoreFault>
        ensures put { Put (means self.old) (means self.new) (length (rows self.old)) (places self.old) (cells_of key.now) (count_of count) result }
        ensures places { places self.new ≡ places self.old };

    // Drops a row, and says if it was there.
    fn remove(&mut self, key: &Row) -> bool
        ensures dropped { Dropped (means self.old) (means self.new) (cells_of key.now) result }
        ensures places { places self.new ≡ places self.old };

    // The numbers of places and of rows.
    fn size(&self) -> Size
        ensures places { result.places ≡ places self.now }
        ensures rows { result.rows ≡ length (rows self.now) };

    // Row number k with its count, or absent where there are not so many.
    fn row(&self, k: usize) -> Option<Entry>
        ensures row { option_map row_of result ≡ slice_get (rows self.now) k }
        ensures count { IfSome result (λ e. means self.now (row_of e) ≡ Some (count_of e.count)) };
}
