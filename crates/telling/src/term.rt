// Rows and patterns of the model base in a planner's words.
use crate::condition::Allowed;
use crate::model::variable;
use crate::moment::moment_of;
use crate::place::{Awaited, Place};
use std::fmt;
use terms::cell::Cell;
use terms::constraint::Constraint;

fn tell_hour<W: fmt::Write>(f: &mut fmt::Formatter<W>, code: u32) -> fmt::Result {
    match moment_of(code) {
        Some(moment) => write!(f, "{} {}:00", moment.day, moment.hour),
        None => write!(f, "hour {code}"),
    }
}

fn tell_symbol<W: fmt::Write>(f: &mut fmt::Formatter<W>, symbol: u32, place: Place) -> fmt::Result {
    let noun = place.noun();
    match symbol {
        // what a sample has where anything fits
        0 => write!(f, "unspecified {noun}"),
        1 => write!(f, "count"),
        2 => write!(f, "turn"),
        3 => write!(f, "the arm opposite"),
        _ => write!(f, "symbol {symbol}"),
    }
}

// What may stand for a variable: all that its constraints allow.
fn tell_variable<W: fmt::Write>(
    f: &mut fmt::Formatter<W>,
    variable: u32,
    place: Place,
    constraints: &[Constraint],
) -> fmt::Result {
    let mut all = constraints
        .iter()
        .filter(|constraint| constraint.variable == variable)
        .map(|constraint| Allowed {
            condition: constraint.condition,
            place,
        });
    let Some(first) = all.next() else {
        return write!(f, "any {}", place.noun());
    };
    write!(f, "{first}")?;
    for other in all {
        write!(f, " and also {other}")?;
    }
    Ok(())
}

fn tell_cell<W: fmt::Write>(
    f: &mut fmt::Formatter<W>,
    cell: Cell,
    place: Place,
    constraints: &[Constraint],
) -> fmt::Result {
    let number = cell.number;
    // a cell's letter comes from outside, unchecked
    match cell.letter {
        b'S' => tell_symbol(f, number, place),
        b'V' => tell_variable(f, number, place, constraints),
        b'H' => tell_hour(f, number),
        b'C' => write!(f, "class {number}"),
        b'N' => write!(f, "{} {number}", place.numbered()),
        letter => write!(f, "{}{number}", char::from(letter)),
    }
}

// The cells from the left; a variable that came before stands for the same again.
fn tell_cells<W: fmt::Write>(
    f: &mut fmt::Formatter<W>,
    cells: &[Cell],
    constraints: &[Constraint],
) -> fmt::Result {
    let mut awaited = Awaited::row();
    for (i, cell) in cells.iter().enumerate() {
        let place = awaited.next();
        write!(f, "{}", place.lead())?;
        if cell.letter == b'V' && cells[..i].contains(cell) {
            write!(f, "the same {}", place.noun())?;
        } else {
            tell_cell(f, *cell, place, constraints)?;
        }
        if cell.letter == b'S' {
            awaited.await_arguments(cell.number);
        }
    }
    Ok(())
}

// A constraint on a variable that the cells lack counts too: some value has to meet it.
fn tell_others<W: fmt::Write>(
    f: &mut fmt::Formatter<W>,
    cells: &[Cell],
    constraints: &[Constraint],
) -> fmt::Result {
    let others = constraints.iter().filter(|constraint| !cells.contains(&variable(
        constraint.variable,
    )));
    for constraint in others {
        let allowed = Allowed {
            condition: constraint.condition,
            place: Place::Value,
        };
        write!(f, ", provided that there is {allowed}")?;
    }
    Ok(())
}

// One row.
#[derive(Clone, Copy)]
pub struct RowWords<'a>(pub &'a [Cell]);

impl<'a> fmt::Display for RowWords<'a> {
    fn fmt<W: fmt::Write>(&self, f: &mut fmt::Formatter<W>) -> fmt::Result {
        write!(f, "the ")?;
        tell_cells(f, self.0, &[])
    }
}

// Every row that fits a pattern.
// A wrapping to print lent cells and constraints in words: a call has them unread, so there is no `Pattern` to print.
#[derive(Clone, Copy)]
pub struct PatternWords<'a> {
    pub cells: &'a [Cell],
    pub constraints: &'a [Constraint],
}

impl<'a> fmt::Display for PatternWords<'a> {
    fn fmt<W: fmt::Write>(&self, f: &mut fmt::Formatter<W>) -> fmt::Result {
        write!(f, "every ")?;
        tell_cells(f, self.cells, self.constraints)?;
        tell_others(f, self.cells, self.constraints)
    }
}

// Cells as they are written on a line, a blank before each.
#[derive(Clone, Copy)]
pub struct Written<'a>(pub &'a [Cell]);

impl<'a> fmt::Display for Written<'a> {
    fn fmt<W: fmt::Write>(&self, f: &mut fmt::Formatter<W>) -> fmt::Result {
        for cell in self.0 {
            write!(f, " {}{}", char::from(cell.letter), cell.number)?;
        }
        Ok(())
    }
}
