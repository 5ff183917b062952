// Patterns as a caller writes them.
ghost use Rattle.std.specs.Prelude.{◌≡◌, []};
ghost use Rattle.terms.specs.Fitting.{described, cells_of};
ghost use Rattle.terms.specs.Reading.{ConstraintsChecked, PatternRead};

use crate::cell::{BLANK, Cell};
use crate::constraint::{Constraint, NO_CONSTRAINT};
use crate::fault::PatternFault;
use crate::pattern::Pattern;
use crate::row::Row;
use crate::scan::check_cells;
use crate::shape::Shape;
use crate::signature::Signature;
use kinds::check;
use kinds::kind::Kind;
use lists::up_to::UpTo;

// How many constraints there may be, and how many variables.
const MOST: usize = 8;

const VARIABLES: u32 = 8;

// Whether there are at most eight constraints, each a known condition on a variable; else the first fault.
pub fn check_constraints<K: Kind>(kind: &K, constraints: &[Constraint]) -> Result<(), PatternFault>
    ensures { ConstraintsChecked (K.Kind.means kind.now) constraints.now result }
{
    for (place, constraint) in constraints.iter().enumerate() {
        if place >= MOST || constraint.variable >= VARIABLES {
            return Err(PatternFault::Constraint { place });
        }
        check::check_condition(kind, constraint.condition, place)?;
    }
    Ok(())
}

impl Pattern {
    // The cells and the constraints of a pattern, where they are one.
    pub fn read<K: Kind>(
        signature: &Signature,
        kind: &K,
        cells: &[Cell],
        constraints: &[Constraint],
    ) -> Result<Pattern, PatternFault>
        ensures { PatternRead signature.now.arities (K.Kind.means kind.now) cells.now constraints.now result }
    {
        check_cells(signature, kind, Shape::Pattern, cells)?;
        check_constraints(kind, constraints)?;
        Ok(Pattern {
            cells: UpTo::of(cells, BLANK),
            constraints: UpTo::of(constraints, NO_CONSTRAINT),
        })
    }

    pub fn cells(&self) -> &[Cell]
        ensures { result.now ≡ (described self.now).cells }
    {
        self.cells.as_slice()
    }

    pub fn constraints(&self) -> &[Constraint]
        ensures { result.now ≡ (described self.now).constraints }
    {
        self.constraints.as_slice()
    }
}

// A row as a pattern that only the row itself fits.
impl From<&Row> for Pattern {
    ghost from_gives = { λ r p. described p ≡ record { cells = cells_of r.now; constraints = [] } };

    fn from(row: &Row) -> Pattern {
        Pattern {
            cells: UpTo::of(row.cells(), BLANK),
            constraints: UpTo::new(NO_CONSTRAINT),
        }
    }
}
