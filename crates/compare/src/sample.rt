// What two patterns have in common.
use crate::binding::Binding;
use terms::cell::Cell;

// The first twelve cells of a row, blanks after them, and whether more cells follow.
#[derive(Clone, Copy)]
pub struct Sample {
    pub cells: [Cell; 12],
    pub more: bool,
}

// The bindings, applied in sequence, make a most general unifier; the sample is of a row that fits both patterns.
#[derive(Clone, Copy)]
pub struct Common {
    pub bindings: [Option<Binding>; 16],
    pub sample: Sample,
}
