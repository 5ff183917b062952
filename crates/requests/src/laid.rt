// Whether there is room for a request in its columns.
ghost use Rattle.std.specs.Prelude.{Decides};
ghost use Rattle.std.specs.List.{AllByRecursion};
ghost use Rattle.requests.specs.Fields.{Room, Roomy};
ghost use Rattle.requests.specs.Layout.{Laid, LaidCell, LaidConstraint, asked_of};

use crate::request::{Request, RequestLine};
use terms::cell::Cell;
use terms::constraint::Constraint;

// The numbers below these have room in seven and in nine columns.
const SEVEN: u64 = 10_000_000;

const NINE: u32 = 1_000_000_000;

fn is_laid_cell(cell: Cell) -> bool
    ensures { Decides result (LaidCell cell) }
{
    cell.letter != b' ' && cell.letter != b'\n' && cell.number < NINE
}

fn are_laid_cells(cells: &[Cell]) -> bool
    ensures { Decides result (AllByRecursion LaidCell cells.now) }
{
    cells.iter().all(|cell| is_laid_cell(*cell))
}

fn is_laid_constraint(constraint: Constraint) -> bool
    ensures { Decides result (LaidConstraint constraint) }
{
    let condition = constraint.condition;
    condition.form != b' '
        && condition.form != b'\n'
        && constraint.variable < NINE
        && condition.a < NINE
        && condition.b < NINE
}

fn are_laid_constraints(constraints: &[Constraint]) -> bool
    ensures { Decides result (AllByRecursion LaidConstraint constraints.now) }
{
    constraints
        .iter()
        .all(|constraint| is_laid_constraint(*constraint))
}

fn has_room(number: Option<u64>) -> bool
    ensures { Decides result (Room number) }
{
    number.is_none_or(|n| n < SEVEN)
}

fn is_roomy(line: RequestLine<'_>) -> bool
    ensures { Decides result (Roomy line.entry) }
{
    has_room(line.first)
        && has_room(line.second)
        && line.right != b'\n'
        && are_laid_cells(line.cells)
        && are_laid_constraints(line.constraints)
}

pub fn is_laid(request: &Request) -> bool
    ensures { Decides result (Laid (asked_of request.now)) }
{
    is_roomy(request.line())
}
