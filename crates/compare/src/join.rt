// Two patterns as one list of cells and one list of constraints.
ghost use Rattle.std.specs.Prelude.{◌≡◌, ◌<◌};
ghost use Rattle.std.specs.List.{AllByRecursion};
ghost use Rattle.terms.specs.Fitting.{described};
ghost use Rattle.compare.specs.Joints.{Joined};

use crate::lay::lay;
use lists::up_to::UpTo;
use terms::cell::{BLANK, Cell};
use terms::constraint::{Constraint, NO_CONSTRAINT};
use terms::pattern::Pattern;

// The left pattern and behind it the right one.
#[derive(Clone, Copy)]
pub struct Joint {
    pub cells: UpTo<Cell, 48>,
    // how many of the cells are the left pattern's
    pub left: usize,
    pub constraints: UpTo<Constraint, 16>,
}

pub fn join(left: &Pattern, right: &Pattern) -> Joint
    requires cells { AllByRecursion (λ c. c.letter ≡ 86 → c.number < 8) (described right.now).cells }
    requires constraints { AllByRecursion (λ k. k.variable < 8) (described right.now).constraints }
    ensures { Joined (described left.now) (described right.now) result }
{
    let mut joint = Joint {
        cells: UpTo::new(BLANK),
        left: left.cells().len(),
        constraints: UpTo::new(NO_CONSTRAINT),
    };
    lay(&mut joint.cells, left.cells(), right.cells());
    lay(
        &mut joint.constraints,
        left.constraints(),
        right.constraints(),
    );
    joint
}
