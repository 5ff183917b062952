// Calls and answers in sentences.
use crate::plural::Many;
use crate::refusal::RefusalWords;
use crate::term::{PatternWords, RowWords, Written};
use compare::sample::Sample;
use refusals::Fault;
use runs::call::{Answer, Call};
use std::fmt;
use terms::cell::Cell;

// What a right is for; its letter comes from outside, unchecked.
fn purpose(right: u8) -> &'static str {
    match right {
        b'R' => "for reading",
        b'W' => "for writing",
        _ => "for something unknown",
    }
}

// What is asked.
#[derive(Clone, Copy)]
pub struct Asked<'a>(pub Call<'a>);

impl<'a> fmt::Display for Asked<'a> {
    fn fmt<W: fmt::Write>(&self, f: &mut fmt::Formatter<W>) -> fmt::Result {
        match self.0 {
            Call::Begin { planner } => write!(f, "Planner {planner} begins"),
            Call::Reserve {
                transaction,
                right,
                cells,
                constraints,
            } => write!(
                f,
                "Transaction {transaction} reserves {} {}",
                purpose(right),
                PatternWords { cells, constraints }
            ),
            Call::Look { transaction, cells } => {
                write!(f, "Transaction {transaction} looks at {}", RowWords(cells))
            }
            Call::Survey {
                transaction,
                reservation,
            } => write!(
                f,
                "Transaction {transaction} surveys reservation {reservation}"
            ),
            Call::Write {
                transaction,
                cells,
                count,
            } => write!(
                f,
                "Transaction {transaction} enters {count} for {}",
                RowWords(cells)
            ),
            Call::Strike { transaction, cells } => {
                write!(f, "Transaction {transaction} strikes {}", RowWords(cells))
            }
            Call::Commit { transaction } => write!(f, "Transaction {transaction} commits"),
            Call::Abandon { transaction } => { write!(f, "Transaction {transaction} is abandoned") }
            Call::Tally => write!(f, "The tally is asked for"),
        }
    }
}

// A number that was given, by what was asked.
fn tell_number<W: fmt::Write>(f: &mut fmt::Formatter<W>, call: Call, number: u32) -> fmt::Result {
    match call {
        Call::Begin { .. } => write!(f, "transaction {number} is open"),
        Call::Reserve { .. } => write!(f, "granted, reservation {number}"),
        Call::Commit { .. } => write!(f, "done, commit {number}"),
        _ => write!(
            f,
            "{} given up",
            Many::of(u64::from(number), "pending change")
        ),
    }
}

// What is answered to a call.
#[derive(Clone, Copy)]
pub struct Told<'a> {
    pub call: Call<'a>,
    pub answer: Answer,
}

impl<'a> fmt::Display for Told<'a> {
    fn fmt<W: fmt::Write>(&self, f: &mut fmt::Formatter<W>) -> fmt::Result {
        match self.answer {
            Answer::Refused(fault) => write!(f, "{}", RefusalWords(fault.refusal())),
            Answer::Number(number) => tell_number(f, self.call, number),
            Answer::Found(Some(count)) => write!(f, "the count is {}", count.value),
            Answer::Found(None) => write!(f, "there is no such row"),
            Answer::Figures(rows, total) => write!(
                f,
                "{}, {} in all",
                Many::of(u64::from(rows), "row"),
                Many::of(total, "vehicle")
            ),
            Answer::Done => write!(f, "noted"),
            Answer::Tally(tally) => write!(
                f,
                "{} refused for conflict so far",
                Many::of(u64::from(tally), "reserve")
            ),
        }
    }
}

// The cells of a sample before its blanks.
fn filled(sample: &Sample) -> &[Cell] {
    let cells = &sample.cells[..];
    let end = cells.iter().position(|cell| cell.letter == b' ');
    &cells[..end.unwrap_or(cells.len())]
}

// What a sample ends in where more cells follow.
fn ending(sample: &Sample) -> &'static str {
    if sample.more { " .." } else { "" }
}

// A sample as it is written on a line, a blank before each cell.
#[derive(Clone, Copy)]
pub struct WrittenSample(pub Sample);

impl fmt::Display for WrittenSample {
    fn fmt<W: fmt::Write>(&self, f: &mut fmt::Formatter<W>) -> fmt::Result {
        write!(f, "{}{}", Written(filled(&self.0)), ending(&self.0))
    }
}

// The row that shows a conflict.
#[derive(Clone, Copy)]
pub struct Shown(pub Sample);

impl fmt::Display for Shown {
    fn fmt<W: fmt::Write>(&self, f: &mut fmt::Formatter<W>) -> fmt::Result {
        let row = RowWords(filled(&self.0));
        let written = WrittenSample(self.0);
        write!(f, "{row}{} (written{written})", ending(&self.0))
    }
}
