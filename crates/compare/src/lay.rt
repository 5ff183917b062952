// Two patterns laid one behind the other, the right one's variables as 8 to 15.
ghost use Rattle.std.specs.Prelude.{◌≡◌, ◌+◌, ◌<◌, ◌≤◌, ◌++◌, map, length};
ghost use Rattle.std.specs.List.{AllByRecursion};
ghost use Rattle.lists.specs.Lists.{items};
ghost use Rattle.unification.specs.Pairs.{shifted as shifted_cell, shifted_constraint};

use lists::up_to::UpTo;
use terms::cell::Cell;
use terms::constraint::Constraint;

// What may name a variable.
pub trait Shift {
    ghost shifted: { Self → Self };

    // a variable that it names is below 8
    ghost small: { Self → Type 0 };

    // The same of the right pattern.
    fn shift(self) -> Self
        requires { small self }
        ensures { result ≡ shifted self };
}

impl Shift for Cell {
    ghost shifted = { shifted_cell };

    ghost small = { λ c. (c.letter ≡ 86 → c.number < 8) };

    fn shift(self) -> Cell {
        if self.letter == b'V' {
            Cell {
                letter: self.letter,
                number: self.number + 8,
            }
        } else {
            self
        }
    }
}

impl Shift for Constraint {
    ghost shifted = { shifted_constraint };

    ghost small = { λ k. k.variable < 8 };

    fn shift(self) -> Constraint {
        Constraint {
            variable: self.variable + 8,
            condition: self.condition,
        }
    }
}

// The left items, and behind them the right ones shifted, are laid behind what lies there: in place, so that nothing is copied on the way.
pub fn lay<T: Shift + Copy, const N: usize>(laid: &mut UpTo<T, N>, left: &[T], right: &[T])
    requires few { length (items laid.old) + length left.now + length right.now ≤ N }
    requires small { AllByRecursion T.Shift.small right.now }
    ensures { items laid.new ≡ items laid.old ++ (left.now ++ map T.Shift.shifted right.now) }
{
    // pushed one by one
    for item in left {
        laid.push(*item);
    }
    for other in right {
        laid.push(other.shift());
    }
}
