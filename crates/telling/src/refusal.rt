// Refusals in words, as docs/REFUSALS.md has them.
use refusals::Refusal;
use std::fmt;

// When a refusal is made, by its number in the published table.
fn reason(number: u8) -> &'static str {
    match number {
        10 => "the planner is not 1 to 16",
        11 => "16 transactions are open",
        12 => "the last number given was 999,999",
        13 => "the transaction is not open",
        14 => "the right is neither R nor W",
        19 => "symbol 0 has an arity other than 0, or an arity is above 7",
        20 => "a value letter is unknown, or the code is above its top",
        21 => "no proper row or pattern begins so, or cells lack",
        22 => "the condition is unknown",
        23 => "the constraint's variable is above 7, or it is a ninth constraint",
        24 => "64 reservations stand",
        25 => "no reservation of the transaction's own fits the row",
        26 => "the reservation is not the transaction's own",
        27 => "the count is above 999,999",
        28 => "no reservation of its own for writing fits the row",
        29 => "128 changes are pending, and none is for this row and transaction",
        30 =>
            "conflict: a row fits this and another transaction's reservation, and one of them is for writing",
        31 => "more places are needed than the store has",
        40 => "not 1 to 4,096 places long, or a roll's memory is not of its size",
        41 => "a line of the image is bad",
        42 => "the row of this line stands in an earlier line",
        44 => "a line of the sheet is not laid out as a request",
        _ => "not a refusal of the published table",
    }
}

// What a refusal's place counts.
fn counted(number: u8) -> &'static str {
    match number {
        19 => "symbol",
        20 | 21 => "cell",
        22 | 23 => "constraint",
        _ => "line",
    }
}

#[derive(Clone, Copy)]
pub struct RefusalWords(pub Refusal);

impl fmt::Display for RefusalWords {
    fn fmt<W: fmt::Write>(&self, f: &mut fmt::Formatter<W>) -> fmt::Result {
        let number = self.0.number;
        write!(f, "refused with {number}: {}", reason(number))?;
        if let Some(place) = self.0.place {
            write!(f, ", at {} {place} (counted from 0)", counted(number))?;
        }
        if let Some(field) = self.0.field {
            write!(f, ", field {field} (counted from 1)")?;
        }
        Ok(())
    }
}
