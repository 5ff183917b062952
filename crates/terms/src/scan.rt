// Cells from the left: whether they are one term, and else the first fault.
ghost use Rattle.std.specs.Prelude.{◌-◌, ◌^◌, ◌<◌, ◌≤◌};
ghost use Rattle.terms.specs.Proper.{SmallTerm};
ghost use Rattle.terms.specs.Shapes.{limit, variables};
ghost use Rattle.terms.specs.Reading.{CellsChecked, Scanned};

use crate::cell::Cell;
use crate::fault::PatternFault;
use crate::shape::Shape;
use crate::signature::Signature;
use kinds::check;
use kinds::kind::Kind;

// Checks one cell: how many terms are to come after it, where `to_come` were before it.
fn scan_cell<K: Kind>(
    signature: &Signature,
    kind: &K,
    shape: Shape,
    cell: Cell,
    place: usize,
    to_come: usize,
) -> Result<usize, PatternFault>
    requires { (place < 2 ^ 64 - 1) × (to_come ≤ 24) }
    ensures { Scanned signature.now.arities (K.Kind.means kind.now) shape cell place to_come result }
{
    let known = match cell.letter {
        b'S' => cell.number < 32,
        b'V' => cell.number < shape.variables(),
        letter => {
            check::check_value(kind, letter, cell.number, place)?;
            true
        }
    };
    if !known || to_come == 0 || place == 0 && cell.letter != b'S' {
        return Err(PatternFault::Structure { place });
    }
    let next = to_come - 1 + signature.arity(cell);
    if next >= shape.limit().saturating_sub(place) {
        return Err(PatternFault::Structure { place });
    }
    Ok(next)
}

// Signature and kind are passed apart, here and in all that reads or compares: a struct of both was tried. It holds references, so that
// each clause had to name a moment for each, and the clauses grew by a third.
// Whether the cells are one term of the shape; else the first fault.
pub fn check_cells<K: Kind>(
    signature: &Signature,
    kind: &K,
    shape: Shape,
    cells: &[Cell],
) -> Result<(), PatternFault>
    ensures { CellsChecked (SmallTerm signature.now.arities (K.Kind.means kind.now) (variables shape) (limit shape)) (K.Kind.means kind.now) cells.now result }
{
    let mut to_come = 1;
    for (place, cell) in cells.iter().enumerate() {
        to_come = scan_cell(signature, kind, shape, *cell, place, to_come)?;
    }
    if to_come > 0 {
        return Err(PatternFault::Structure { place: cells.len() });
    }
    Ok(())
}
