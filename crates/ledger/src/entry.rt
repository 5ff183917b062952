// The entries of the rolls, each with the transaction that it is of.
ghost use Rattle.ledger.specs.Words.{RightNamed};

use rolls::entry::Owned;
use stores::count::Count;
use terms::pattern::Pattern;
use terms::row::Row;

// An open transaction, and the planner that began it.
#[derive(Clone, Copy)]
pub struct Transaction {
    pub number: u32,
    pub planner: u32,
}

#[derive(Clone, Copy, PartialEq, Eq, Debug)]
pub enum Right {
    Read,
    Write,
}

// A letter that names no right.
#[derive(Clone, Copy, PartialEq, Eq, Debug)]
pub struct UnknownRight;

impl TryFrom<u8> for Right {
    type Error = UnknownRight;

    ghost try_from_gives = { RightNamed };

    fn try_from(letter: u8) -> Result<Right, UnknownRight> {
        match letter {
            b'R' => Ok(Right::Read),
            b'W' => Ok(Right::Write),
            _ => Err(UnknownRight),
        }
    }
}

#[derive(Clone, Copy)]
pub struct Reservation {
    pub number: u32,
    pub owner: u32,
    pub right: Right,
    pub pattern: Pattern,
}

// What a row is to become at the commit: a count, or absent.
#[derive(Clone, Copy)]
pub struct PendingChange {
    pub owner: u32,
    pub row: Row,
    pub change: Option<Count>,
}

impl Owned for Transaction {
    ghost owned = { λ e. e.number };

    fn owner(&self) -> u32 {
        self.number
    }
}

impl Owned for Reservation {
    ghost owned = { λ e. e.owner };

    fn owner(&self) -> u32 {
        self.owner
    }
}

impl Owned for PendingChange {
    ghost owned = { λ e. e.owner };

    fn owner(&self) -> u32 {
        self.owner
    }
}
