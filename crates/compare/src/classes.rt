// Constraints on classes of equal variables.
ghost use Rattle.std.specs.Prelude.{◌≡◌, ℕ, ◌<◌, ◌≤◌, length, Decides, MatchOption};
ghost use Rattle.lists.specs.Lists.{items};
ghost use Rattle.kinds.specs.Common.{Met};
ghost use Rattle.compare.specs.Roots.{RootOf, root_at, constraint_at, class_conditions};
ghost use Rattle.compare.specs.Settling.{WithinCells, Unmet, Settled};

use crate::walk::Bound;
use kinds::common::smallest_value;
use kinds::condition::Condition;
use kinds::kind::Kind;
use lists::up_to::UpTo;
use terms::cell::Cell;
use terms::constraint::{Constraint, NO_CONSTRAINT};

// What a variable stands for.
#[derive(Clone, Copy)]
pub enum Root {
    // a free variable
    Variable(usize),
    // the term at a place, which begins with a symbol or a value
    Term(usize),
}

impl Bound<'_> {
    fn root_of(&self, x: usize) -> Root
        requires { x < 16 }
        ensures { RootOf self.now.terms.signature.now.arities self.now.terms.cells.now self.now.sheet.now x result }
    {
        let Some(place) = self.place(x) else {
            return Root::Variable(x);
        };
        let p = self.deref(place);
        let cell = self.terms.cells[p];
        if cell.letter == b'V' {
            Root::Variable(cell.number as usize)
        } else {
            Root::Term(p)
        }
    }

    // What each variable stands for.
    pub fn roots(&self) -> [Root; 16]
        ensures { (x : ℕ) → x < 16 → RootOf self.now.terms.signature.now.arities self.now.terms.cells.now self.now.sheet.now x (root_at result x) }
    {
        std::array::from_fn(|x| self.root_of(x))
    }
}

// Here and below: that the constraints are few, and which variables they name, is what `Joined` says of a joint's; a type of lists of such
// constraints would be made once, for the one call from outside.
// The conditions on the variables that stand for the free variable y.
fn gather(constraints: &[Constraint], roots: &[Root; 16], y: usize) -> UpTo<Condition, 16>
    requires few { length constraints.now ≤ 16 }
    requires named { (k : ℕ) → k < length constraints.now → (constraint_at constraints.now k).variable < 16 }
    ensures { items result ≡ class_conditions roots.now constraints.now y }
{
    let mut conditions = UpTo::new(NO_CONSTRAINT.condition);
    // pushed one by one, where the root is the one asked for
    for constraint in constraints {
        let root = roots[constraint.variable as usize];
        if matches!(root, Root::Variable(z) if z == y) {
            conditions.push(constraint.condition);
        }
    }
    conditions
}

// Whether the cell is a value that meets the condition.
fn meets<K: Kind>(kind: &K, condition: Condition, cell: Cell) -> bool
    ensures { Decides result (Met (K.Kind.means kind.now) condition cell.letter cell.number) }
{
    kind.letter(condition) == Some(cell.letter)
        && kind.next(condition, cell.number) == Some(cell.number)
}

// For each free variable the smallest value that meets the constraints on its class, or S0; none if nothing meets all.
pub fn settle<K: Kind>(
    kind: &K,
    cells: &[Cell],
    roots: &[Root; 16],
    constraints: &[Constraint],
) -> Option<[Cell; 16]>
    requires few { length constraints.now ≤ 16 }
    requires named { (k : ℕ) → k < length constraints.now → (constraint_at constraints.now k).variable < 16 }
    requires rooted { (x : ℕ) → x < 16 → WithinCells cells.now (root_at roots.now x) }
    ensures { MatchOption result (Unmet (K.Kind.means kind.now) cells.now roots.now constraints.now) (λ fills. Settled (K.Kind.means kind.now) cells.now roots.now constraints.now fills (length constraints.now)) }
{
    let mut fills = [Cell {
        letter: b'S',
        number: 0,
    }; 16];
    for constraint in constraints {
        match roots[constraint.variable as usize] {
            Root::Variable(y) => {
                let class = gather(constraints, roots, y);
                let rest = class.as_slice();
                let value = smallest_value(kind, constraint.condition, rest)?;
                fills[y] = Cell::from(value);
            }
            Root::Term(place) => {
                if !meets(kind, constraint.condition, cells[place]) {
                    return None;
                }
            }
        }
    }
    Some(fills)
}
