// The cells that rows and patterns are made of.
ghost use Rattle.std.specs.Prelude.{◌≡◌, Decides};
ghost use Rattle.std.specs.Cmp.Rules.{comparing};
ghost use Rattle.std.proofs.Common.{rules};
ghost use Rattle.std.specs.Cmp as Keys;
ghost use Rattle.terms.specs.Equality.{cell_eq};

use kinds::common::Value;

// A letter and a number: S names a symbol, V a variable, and any other letter a value, whose number is its code.
#[derive(Clone, Copy, Debug)]
pub struct Cell {
    pub letter: u8,
    pub number: u32,
}

// Written out: a derive does not promise that it decides equality, as this does.
impl PartialEq for Cell {
    ghost eq = { cell_eq };

    ghost laws = { Keys.partial_equiv_from_equiv (Prim.search (comparing, rules)) };

    fn eq(&self, other: &Cell) -> bool
        ensures value { result ≡ cell_eq self.now other.now }
        ensures decides { Decides result (self.now ≡ other.now) }
    {
        self.letter == other.letter && self.number == other.number
    }
}

impl Eq for Cell {
    ghost laws = { Prim.search (comparing, rules) };
}

// A value as the cell that shows it.
impl From<Value> for Cell {
    ghost from_gives = { λ v c. c ≡ record { letter = v.letter; number = v.code } };

    fn from(value: Value) -> Cell {
        Cell {
            letter: value.letter,
            number: value.code,
        }
    }
}

// What stands where there is no cell.
pub const BLANK: Cell = Cell {
    letter: b' ',
    number: 0,
};
