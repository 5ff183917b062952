// Rows as a caller writes them.
ghost use Rattle.std.specs.Prelude.{◌≡◌, Decides, MatchOption};
ghost use Rattle.terms.specs.Fitting.{cells_of};
ghost use Rattle.terms.specs.Reading.{RowRead};
ghost use Rattle.terms.specs.Rows.{Storable};
ghost use Rattle.terms.specs.Short.{all_short};
ghost use Rattle.terms.specs.Equality.{cells_eq};
ghost use Rattle.std.specs.Cmp.{on_per, partial_equiv_from_equiv};
ghost use Rattle.std.specs.Cmp.Lexicographic.{lists_per};
ghost use Rattle.std.specs.Cmp.Rules.{comparing};
ghost use Rattle.std.proofs.Common.{rules};

use crate::cell::{BLANK, Cell};
use crate::fault::PatternFault;
use crate::row::Row;
use crate::scan::check_cells;
use crate::shape::Shape;
use crate::signature::Signature;
use kinds::kind::Kind;
use lists::up_to::UpTo;

// Whether every number has at most nine digits.
fn are_short(cells: &[Cell]) -> bool
    ensures { result ≡ all_short cells.now }
{
    cells.iter().all(|cell| cell.number < 1_000_000_000)
}

impl Row {
    // Absent exactly where the cells cannot be kept as a row.
    pub fn new(cells: &[Cell]) -> Option<Row>
        ensures { MatchOption result (Storable cells.now → ⊥) (λ r. cells_of r ≡ cells.now) }
    {
        // first how many they are: of a long slice no cell is looked at
        let kept = UpTo::copied(cells, BLANK)?;
        if cells.is_empty() || !are_short(cells) {
            return None;
        }
        Some(Row { cells: kept })
    }

    // The cells of a row, where they are one.
    pub fn read<K: Kind>(
        signature: &Signature,
        kind: &K,
        cells: &[Cell],
    ) -> Result<Row, PatternFault>
        ensures { RowRead signature.now.arities (K.Kind.means kind.now) cells.now result }
    {
        check_cells(signature, kind, Shape::Row, cells)?;
        Ok(Row {
            cells: UpTo::of(cells, BLANK),
        })
    }

    pub fn cells(&self) -> &[Cell]
        ensures value { result.now ≡ cells_of self.now }
        ensures storable { Storable result.now }
    {
        self.cells.as_slice()
    }
}

// Rows are equal where their cells are. Written out, as for cells: it promises that it decides.
impl PartialEq for Row {
    ghost eq = { λ a b. cells_eq (cells_of a) (cells_of b) };

    ghost laws = { on_per cells_of (lists_per (partial_equiv_from_equiv (Prim.search (comparing, rules)))) };

    fn eq(&self, other: &Row) -> bool
        ensures value { result ≡ cells_eq (cells_of self.now) (cells_of other.now) }
        ensures decides { Decides result (cells_of self.now ≡ cells_of other.now) }
    {
        self.cells() == other.cells()
    }
}
