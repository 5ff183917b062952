// Bindings, in terms of the two patterns.

// The pattern that a variable or a cell belongs to.
#[derive(Clone, Copy, PartialEq, Eq, Debug)]
pub enum Side {
    Left,
    Right,
}

// A variable of one of the patterns.
#[derive(Clone, Copy, PartialEq, Eq, Debug)]
pub struct Variable {
    pub side: Side,
    pub number: u8,
}

// The term that begins at a cell of one of the patterns.
#[derive(Clone, Copy, PartialEq, Eq, Debug)]
pub struct TermPlace {
    pub side: Side,
    pub cell: usize,
}

// The variable stands for the term.
#[derive(Clone, Copy, PartialEq, Eq, Debug)]
pub struct Binding {
    pub variable: Variable,
    pub term: TermPlace,
}
