// A store in an image of lines in the caller's memory.
ghost use Rattle.std.specs.Prelude.{◌≡◌, ◌⊎◌, ◌*◌, ◌≤◌, true, length, count_by, MatchOption};
ghost use Rattle.stores.specs.Maps.{listed_of, look_small};
ghost use Rattle.stores.specs.Places.{held, rows_in, look, taken, Apart};
ghost use Rattle.stores.specs.Means.{count_of, Put, Dropped};
ghost use Rattle.terms.specs.Fitting.{cells_of};
ghost use Rattle.image.specs.Change.{AtRow, NoRow, PutLines, DropLines};
ghost use Rattle.image.specs.Meaning.{lines_in, entries, shown_to, FirstFree};
ghost use Rattle.image.specs.Tested.{entries_small, entries_room};

use crate::encode::{encode, write_blank_line};
use crate::fields::read_count;
use crate::lines::{first_blank, lines_of, nth_taken, place_of, read_line, used_lines};
use crate::memory::Lines;
use stores::count::Count;
use stores::entry::{Entry, Size};
use stores::fault::StoreFault;
use stores::store::Store;
use terms::row::Row;

// An image of 1 to 4,096 lines, each free or the line of a row and its count, no row twice.
#[derive(Drop)]
pub struct Image<'a> {
    pub(crate) lines: Lines<'a>,
    ghost whole: { length lines.bytes.now ≡ lines_in lines.bytes.now * 128 },
    ghost some: { 1 ≤ lines_in lines.bytes.now },
    ghost few: { lines_in lines.bytes.now ≤ 4096 },
    ghost shown: { shown_to (lines_in lines.bytes.now) lines.bytes.now ≡ true },
    ghost apart: { Apart (held (entries lines.bytes.now)) },
}

const NOTHING: Count = Count { value: 0 };

// Lent as a whole to look, so that what was found is known of the lines that are then written.
impl Image<'_> {
    // The line of a row.
    fn place(&self, key: &Row) -> Option<usize>
        ensures { MatchOption result (NoRow self.now.lines.bytes.now (cells_of key.now)) (λ k. AtRow self.now.lines.bytes.now (cells_of key.now) k) }
    {
        let mut text = [b' '; 128];
        encode(key, NOTHING, &mut text);
        place_of(lines_of(self.lines.bytes), &text[0..120])
    }

    // The line for a put: that of the row, or the first blank one.
    fn place_to_put(&self, key: &Row) -> Option<usize>
        ensures { MatchOption result (NoRow self.now.lines.bytes.now (cells_of key.now) × (count_by taken (entries self.now.lines.bytes.now) ≡ length (entries self.now.lines.bytes.now))) (λ k. AtRow self.now.lines.bytes.now (cells_of key.now) k ⊎ (NoRow self.now.lines.bytes.now (cells_of key.now) × FirstFree self.now.lines.bytes.now k)) }
    {
        self.place(key).or_else(|| first_blank(self.lines.bytes))
    }
}

impl<'a> Store for Image<'a> {
    ghost means = { λ t. look (held (entries t.lines.bytes.now)) };

    ghost rows = { λ t. rows_in (held (entries t.lines.bytes.now)) };

    ghost listed = { λ t. listed_of (held (entries t.lines.bytes.now)) t.apart };

    ghost small = { λ t. look_small 999999 (entries t.lines.bytes.now) (entries_small t.lines.bytes.now t.shown) };

    ghost places = { λ t. lines_in t.lines.bytes.now };

    ghost some = { λ t. t.some };

    ghost few = { λ t. t.few };

    ghost room = { λ t. entries_room t.lines.bytes.now };

    fn find(&self, key: &Row) -> Option<Count> {
        let k = self.place(key)?;
        read_count(&lines_of(self.lines.bytes)[k])
    }

    // The row's line is written, or for a new row the first blank one, and no other.
    fn put(&mut self, key: &Row, count: Count) -> Result<(), StoreFault>
        ensures put { Put (look (held (entries self.old.lines.bytes.now))) (look (held (entries self.new.lines.bytes.now))) (length (rows_in (held (entries self.old.lines.bytes.now)))) (lines_in self.old.lines.bytes.now) (cells_of key.now) (count_of count) result }
        ensures places { lines_in self.new.lines.bytes.now ≡ lines_in self.old.lines.bytes.now }
        ensures lines { PutLines self.old.lines.bytes.now self.new.lines.bytes.now (cells_of key.now) (count_of count) result }
    {
        // not `ok_or(..)?`: the refusal in an arm of its own is one word, which an edit can spoil alone
        let Some(k) = self.place_to_put(key) else {
            return Err(StoreFault::Full);
        };
        // the part itself is lent: nothing is said of what a slice ends as after `as_chunks_mut`
        let lines = &mut self.lines;
        encode(key, count, &mut lines.bytes[k * 128..k * 128 + 128]);
        Ok(())
    }

    // The row's line is blanked, and no other.
    fn remove(&mut self, key: &Row) -> bool
        ensures dropped { Dropped (look (held (entries self.old.lines.bytes.now))) (look (held (entries self.new.lines.bytes.now))) (cells_of key.now) result }
        ensures places { lines_in self.new.lines.bytes.now ≡ lines_in self.old.lines.bytes.now }
        ensures lines { DropLines self.old.lines.bytes.now self.new.lines.bytes.now (cells_of key.now) result }
    {
        match self.place(key) {
            Some(k) => {
                // the part itself, as for a put
                let lines = &mut self.lines;
                write_blank_line(&mut lines.bytes[k * 128..k * 128 + 128]);
                true
            }
            None => false,
        }
    }

    fn size(&self) -> Size {
        let all = &*self.lines.bytes;
        Size {
            places: lines_of(all).len(),
            rows: used_lines(all),
        }
    }

    fn row(&self, k: usize) -> Option<Entry> {
        read_line(nth_taken(self.lines.bytes, k)?)
    }
}
