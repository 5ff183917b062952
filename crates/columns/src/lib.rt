// Numbers and cells in fixed columns, read and written.
#![tactic(auto)]

ghost use Rattle.columns.specs.Laws.{OneMeaning};

pub mod blank;
pub mod cell;
pub mod number;

// Asks for the theorem that what columns show is one thing at most.
pub fn columns_stand() -> u8
    ensures { OneMeaning }
{
    0
}
