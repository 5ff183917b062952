// Conditions in a planner's words: weekdays 7:00 to 9:00, classes 0-2, arms 1-4.
use crate::day::Day;
use crate::mask::{Run, next_run};
use crate::model::{ALL_DAY, EVERY_DAY, WEEKDAYS, WEEKENDS};
use crate::place::Place;
use kinds::condition::Condition;
use std::cmp::Ordering;
use std::fmt;

// A day of the week, Monday being 0.
fn day_name(day: u32) -> &'static str {
    Day::numbered(day).map_or("no day", Day::name)
}

// What the bits of a mask are.
#[derive(Clone, Copy)]
enum Unit {
    Day,
    Hour,
    Class,
}

impl Unit {
    // One more than the highest bit.
    fn top(self) -> u32 {
        match self {
            Unit::Day => 7,
            Unit::Hour | Unit::Class => 24,
        }
    }
}

fn tell_run<W: fmt::Write>(f: &mut fmt::Formatter<W>, unit: Unit, run: Run) -> fmt::Result {
    let Run { first, last } = run;
    match unit {
        Unit::Hour => write!(f, "{first}:00 to {}:00", last.saturating_add(1)),
        Unit::Day if first == last => write!(f, "{}", day_name(first)),
        Unit::Day => write!(f, "{} to {}", day_name(first), day_name(last)),
        Unit::Class if first == last => write!(f, "{first}"),
        Unit::Class => write!(f, "{first}-{last}"),
    }
}

// Every run of the mask, neighbours together.
fn tell_runs<W: fmt::Write>(f: &mut fmt::Formatter<W>, unit: Unit, mask: u32) -> fmt::Result {
    let top = unit.top();
    let mut at = 0;
    // from run to run: each is sought behind the one before, so there is no list or range of them to go through
    while let Some(run) = next_run(mask, at, top) {
        let next = run.last + 1;
        let joint = if at == 0 {
            ""
        } else if next_run(mask, next, top).is_none() {
            " and "
        } else {
            ", "
        };
        write!(f, "{joint}")?;
        tell_run(f, unit, run)?;
        at = next;
    }
    Ok(())
}

fn tell_days<W: fmt::Write>(f: &mut fmt::Formatter<W>, days: u32) -> fmt::Result {
    match days {
        EVERY_DAY => write!(f, "every day"),
        WEEKDAYS => write!(f, "weekdays"),
        WEEKENDS => write!(f, "weekends"),
        _ => tell_runs(f, Unit::Day, days),
    }
}

fn tell_hours<W: fmt::Write>(f: &mut fmt::Formatter<W>, days: u32, hours: u32) -> fmt::Result {
    if days == 0 || hours == 0 {
        return write!(f, "no hour");
    }
    tell_days(f, days)?;
    if hours == ALL_DAY {
        return write!(f, " all day");
    }
    write!(f, " ")?;
    tell_runs(f, Unit::Hour, hours)
}

fn tell_classes<W: fmt::Write>(f: &mut fmt::Formatter<W>, classes: u32) -> fmt::Result {
    match classes.count_ones() {
        0 => return write!(f, "no class"),
        1 => write!(f, "class ")?,
        _ => write!(f, "classes ")?,
    }
    tell_runs(f, Unit::Class, classes)
}

fn tell_numbers<W: fmt::Write>(
    f: &mut fmt::Formatter<W>,
    noun: &str,
    low: u32,
    high: u32,
) -> fmt::Result {
    match low.cmp(&high) {
        Ordering::Greater => write!(f, "no {noun}"),
        Ordering::Equal => write!(f, "{noun} {low}"),
        Ordering::Less => write!(f, "{noun}s {low}-{high}"),
    }
}

// A condition on what stands at a place.
#[derive(Clone, Copy)]
pub struct Allowed {
    pub condition: Condition,
    pub place: Place,
}

impl fmt::Display for Allowed {
    fn fmt<W: fmt::Write>(&self, f: &mut fmt::Formatter<W>) -> fmt::Result {
        let noun = self.place.numbered();
        let Condition { form, a, b } = self.condition;
        // the form is a letter from outside, unchecked
        match form {
            b'W' if a <= EVERY_DAY && b <= ALL_DAY => tell_hours(f, a, b),
            b'M' if a <= ALL_DAY && b == 0 => tell_classes(f, a),
            b'B' => tell_numbers(f, noun, a, b),
            b'X' if b == 0 => write!(f, "any {noun} but {a}"),
            _ => write!(f, "an unknown condition {} {a} {b}", char::from(form)),
        }
    }
}
