// Days of the week.
ghost use Rattle.std.specs.Prelude.{◌≡◌, ◌+◌, ◌*◌, ◌≤◌, MatchOption};
ghost use Rattle.telling.specs.Days.{day_number};

use crate::model::hour;
use std::fmt;
use terms::cell::Cell;

#[derive(Clone, Copy, PartialEq, Eq, Debug)]
pub enum Day {
    Monday,
    Tuesday,
    Wednesday,
    Thursday,
    Friday,
    Saturday,
    Sunday,
}

impl Day {
    // The day of a number, Monday being 0; none exactly past Sunday.
    // `TryFrom` is no plainer: its error would be one more type that tells nothing, and `day_name` takes an Option.
    pub fn numbered(number: u32) -> Option<Day>
        ensures { MatchOption result (7 ≤ number) (λ d. day_number d ≡ number) }
    {
        match number {
            0 => Some(Day::Monday),
            1 => Some(Day::Tuesday),
            2 => Some(Day::Wednesday),
            3 => Some(Day::Thursday),
            4 => Some(Day::Friday),
            5 => Some(Day::Saturday),
            6 => Some(Day::Sunday),
            _ => None,
        }
    }

    // An hour of the day, as an hour of the week.
    pub fn at(self, clock: u8) -> Cell
        ensures { result.number ≡ 24 * day_number self + clock }
    {
        hour(self as u8, clock)
    }

    pub(crate) fn name(self) -> &'static str {
        match self {
            Day::Monday => "Monday",
            Day::Tuesday => "Tuesday",
            Day::Wednesday => "Wednesday",
            Day::Thursday => "Thursday",
            Day::Friday => "Friday",
            Day::Saturday => "Saturday",
            Day::Sunday => "Sunday",
        }
    }
}

impl fmt::Display for Day {
    fn fmt<W: fmt::Write>(&self, f: &mut fmt::Formatter<W>) -> fmt::Result {
        f.write_str(self.name())
    }
}
