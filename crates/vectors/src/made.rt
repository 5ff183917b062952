// Cells, conditions and constraints in few words.
use kinds::condition::Condition;
use terms::cell::Cell;
use terms::constraint::Constraint;

pub fn cell(letter: u8, number: u32) -> Cell {
    Cell { letter, number }
}

pub fn condition(form: u8, a: u32, b: u32) -> Condition {
    Condition { form, a, b }
}

pub fn on(variable: u32, condition: Condition) -> Constraint {
    Constraint {
        variable,
        condition,
    }
}
