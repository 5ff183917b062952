// A description as a planner writes it on one line: cells such as `S1` or `N12`, and constraints such as `V0:W:31:384`, apart by blanks.
use kinds::condition::Condition;
use std::alloc::{AllocError, AllocFailed, Global};
use terms::cell::Cell;
use terms::constraint::Constraint;

// What is written, before anything is checked.
// Owns what it reads: the comparison's `Written` is lent cells, and a word of the line has none to lend.
#[derive(Drop)]
pub struct Written {
    pub cells: Vec<Cell>,
    pub constraints: Vec<Constraint>,
}

#[derive(Drop)]
pub enum Unread {
    // this word, counted from 1, is neither a cell nor a constraint
    Word(usize),
    NoMemory,
}

impl From<AllocError> for Unread {
    fn from(_error: AllocError) -> Unread {
        Unread::NoMemory
    }
}

impl<T: Drop> From<AllocFailed<T>> for Unread {
    fn from(_refused: AllocFailed<T>) -> Unread {
        Unread::NoMemory
    }
}

// Digits as a number, if they are digits and the number fits; a sign, which `parse` would take, is no digit.
fn number(digits: &str) -> Option<u32> {
    if digits.starts_with('+') {
        return None;
    }
    digits.parse().ok()
}

// A letter and a number.
fn cell(word: &str) -> Option<Cell> {
    let digits = word.strip_prefix(|letter: char| letter.is_ascii_uppercase())?;
    Some(Cell {
        letter: *word.as_bytes().first()?,
        number: number(digits)?,
    })
}

// A variable, a form letter and two numbers, apart by colons.
fn constraint(word: &str) -> Option<Constraint> {
    let mut parts = word.split(':');
    let variable = cell(parts.next()?)?;
    let form = parts.next()?;
    let a = number(parts.next()?)?;
    let b = number(parts.next()?)?;
    let [form] = form.as_bytes() else {
        return None;
    };
    if variable.letter != b'V' || parts.next().is_some() {
        return None;
    }
    let condition = Condition { form: *form, a, b };
    Some(Constraint {
        variable: variable.number,
        condition,
    })
}

// The words of a line.
pub fn read(heap: Global, line: &str) -> Result<Written, Unread> {
    let mut written = Written {
        cells: Vec::new(heap),
        constraints: Vec::new(heap),
    };
    for (i, word) in line.split_whitespace().enumerate() {
        if let Some(cell) = cell(word) {
            written.cells.push(cell)?;
        } else if let Some(constraint) = constraint(word) {
            written.constraints.push(constraint)?;
        } else {
            return Err(Unread::Word(i + 1));
        }
    }
    Ok(written)
}
