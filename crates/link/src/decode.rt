// Cells and constraints from bytes. The first fault of a pattern lies within its first 25 cells and 9 constraints, so no more are kept.
use kinds::condition::Condition;
use lists::up_to::UpTo;
use terms::cell::{BLANK, Cell};
use terms::constraint::{Constraint, NO_CONSTRAINT};

// A letter, and a number with its high byte first.
fn cell(bytes: &[u8; 5]) -> Cell {
    let [letter, a, b, c, d] = *bytes;
    Cell {
        letter,
        number: u32::from_be_bytes([a, b, c, d]),
    }
}

// A variable, a form and two numbers, each with its high byte first.
fn constraint(bytes: &[u8; 13]) -> Constraint {
    let [v0, v1, v2, v3, form, a0, a1, a2, a3, b0, b1, b2, b3] = *bytes;
    Constraint {
        variable: u32::from_be_bytes([v0, v1, v2, v3]),
        condition: Condition {
            form,
            a: u32::from_be_bytes([a0, a1, a2, a3]),
            b: u32::from_be_bytes([b0, b1, b2, b3]),
        },
    }
}

// The first N of the pieces, decoded.
fn first_of<P, T: Copy, F: Fn(&P) -> T, const N: usize>(
    pieces: &[P],
    blank: T,
    decode: F,
) -> UpTo<T, N>
    requires { F.IsAlwaysCallable decode }
{
    let mut items = UpTo::new(blank);
    // pushed one by one, while there is room
    for piece in pieces {
        if items.len() == N {
            break;
        }
        items.push(decode(piece));
    }
    items
}

// Bytes at the end that make no whole cell are left out.
pub fn cells_in(bytes: &[u8]) -> UpTo<Cell, 25> {
    first_of(bytes.as_chunks::<5>().0, BLANK, cell)
}

// The same of a whole constraint.
pub fn constraints_in(bytes: &[u8]) -> UpTo<Constraint, 9> {
    first_of(bytes.as_chunks::<13>().0, NO_CONSTRAINT, constraint)
}
