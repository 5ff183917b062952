// The memory of a pattern.
use crate::cell::Cell;
use crate::constraint::Constraint;
use lists::up_to::UpTo;

// At most 24 cells and at most 8 constraints. Owned, and checked; what a caller lends unchecked is `Written` of `compare`.
#[derive(Clone, Copy)]
pub struct Pattern {
    pub(crate) cells: UpTo<Cell, 24>,
    pub(crate) constraints: UpTo<Constraint, 8>,
}
