// Checks descriptions of rows before anyone reserves by them. A line of the standard input has one description: what each constraint
// lets through, or the refusal with its number and place; or two, with a bar between them: whether some row fits both, and which.
#![tactic(auto)]

mod notation;
mod overlaps;
mod words;

use anyhow::{Context, bail};
use kinds::bank::ALL_KINDS;
use kinds::common;
use kinds::common::Value;
use kinds::condition::Condition;
use kinds::fault::BankFault;
use kinds::kind::Kind;
use notation::{Unread, Written};
use refusals::Fault;
use std::{io, iter};
use telling::model::ARITIES;
use terms::constraint::Constraint;
use terms::fault::PatternFault;
use terms::pattern::Pattern;
use terms::signature::Signature;
use words::Spoken;

// How many values of a set are listed one by one.
const LISTED: usize = 12;

// The first values of the condition's set, and how many more there are up to the top of its letter.
fn list_values(rt: &HostRuntime, condition: Condition) -> io::Result<()> {
    let Some(letter) = ALL_KINDS.letter(condition) else {
        return println!(rt; "    nothing is known of this condition");
    };
    let first = ALL_KINDS.next(condition, 0);
    let mut codes = iter::successors(first, |code| {
        ALL_KINDS.next(condition, code.checked_add(1)?)
    });
    for code in codes.by_ref().take(LISTED) {
        let value = Spoken(Value { letter, code });
        println!(rt; "    {value}")?;
    }
    match codes.next() {
        Some(_) => println!(rt; "    and more"),
        None => Ok(()),
    }
}

fn list_constraint(rt: &HostRuntime, constraint: Constraint) -> io::Result<()> {
    let Constraint {
        variable,
        condition,
    } = constraint;
    let Condition { form, a, b } = condition;
    let form = char::from(form);
    println!(rt; "  V{variable} under {form} {a} {b} is one of:")?;
    list_values(rt, condition)
}

// The smallest value that the constraints on the variable leave, if there are any.
fn settle(rt: &HostRuntime, constraints: &[Constraint], variable: u32) -> anyhow::Result<()> {
    let conditions: Vec<Condition> = constraints
        .iter()
        .filter(|constraint| constraint.variable == variable)
        .map(|constraint| constraint.condition)
        .collect(rt.alloc())?;
    let [first, rest @ ..] = conditions.as_slice() else {
        return Ok(());
    };
    match common::smallest_value(&ALL_KINDS, *first, rest) {
        Some(value) => {
            let value = Spoken(value);
            println!(rt; "  the smallest value for V{variable} is {value}")?;
        }
        None => println!(rt; "  no value is left for V{variable}, so no row fits")?,
    }
    Ok(())
}

fn accept(rt: &HostRuntime, pattern: &Pattern) -> anyhow::Result<()> {
    let cells = pattern.cells().len();
    let constraints = pattern.constraints();
    let count = constraints.len();
    println!(rt; "  accepted: {cells} cells, {count} constraints")?;
    for constraint in constraints {
        list_constraint(rt, *constraint)?;
    }
    // the variables are V0 to V7, which no list has
    for variable in 0..8 {
        settle(rt, constraints, variable)?;
    }
    Ok(())
}

pub fn refuse(rt: &HostRuntime, fault: PatternFault) -> io::Result<()> {
    let what = match fault {
        PatternFault::Bank(BankFault::Value { .. }) => {
            "an unknown value letter, or a code above its top, at cell"
        }
        PatternFault::Structure { .. } => "no description begins so, or it ends too early, at cell",
        PatternFault::Bank(BankFault::Condition { .. }) => {
            "no kind of values knows this constraint, number"
        }
        PatternFault::Constraint { .. } => "a variable above 7, or a ninth constraint, number",
        PatternFault::Arity { .. } => "an arity that is not allowed, of symbol",
    };
    let refusal = fault.refusal();
    let number = refusal.number;
    let place = refusal.place.unwrap_or(0);
    println!(rt; "  refused with {number}: {what} {place} (counted from 0)")
}

// The words of a description; none if they cannot be read, which is then said.
pub fn read(rt: &HostRuntime, text: &str) -> anyhow::Result<Option<Written>> {
    match notation::read(rt.alloc(), text) {
        Ok(written) => Ok(Some(written)),
        Err(Unread::Word(count)) => {
            println!(rt; "  not read: word {count} is neither a cell nor a constraint")?;
            Ok(None)
        }
        Err(Unread::NoMemory) => bail!("no memory"),
    }
}

fn describe(rt: &HostRuntime, signature: &Signature, text: &str) -> anyhow::Result<()> {
    let Some(written) = read(rt, text)? else {
        return Ok(());
    };
    match Pattern::read(
        signature,
        &ALL_KINDS,
        written.cells.as_slice(),
        written.constraints.as_slice(),
    ) {
        Ok(pattern) => accept(rt, &pattern),
        Err(fault) => Ok(refuse(rt, fault)?),
    }
}

// A line has one description or two.
fn answer(rt: &HostRuntime, signature: &Signature, line: &str) -> anyhow::Result<()> {
    println!(rt; "{line}")?;
    // no more parts than tell what the line is: a line of bars alone would fill the memory
    let parts: Vec<&str> = line.split('|').take(3).collect(rt.alloc())?;
    match parts.as_slice() {
        [one] => describe(rt, signature, one),
        [left, right] => overlaps::compare_two(rt, left, right),
        _ => Ok(println!(rt; "  not read: there is more than one bar")?),
    }
}

fn run(rt: &HostRuntime) -> anyhow::Result<()> {
    let signature = Signature::new(ARITIES)
        .ok()
        .context("the model base's arities are not allowed")?;
    for line in rt.lines(rt.alloc()) {
        answer(rt, &signature, line?.as_str())?;
    }
    Ok(())
}

fn main(rt: HostRuntime) -> anyhow::Result<()> {
    run(&rt)
}
