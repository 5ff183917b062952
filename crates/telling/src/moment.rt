// Hours of the week as days and hours of the day.
ghost use Rattle.std.specs.Prelude.{◌≡◌, ◌+◌, ◌*◌, ◌<◌, ◌≤◌, MatchOption};
ghost use Rattle.telling.specs.Days.{day_number};

use crate::day::Day;

// A day of the week, and an hour of that day.
#[derive(Clone, Copy)]
pub struct Moment {
    pub day: Day,
    pub hour: u32,
}

// The day and the hour of a code; none exactly past the week.
pub fn moment_of(code: u32) -> Option<Moment>
    ensures { MatchOption result (168 ≤ code) (λ m. (24 * day_number m.day + m.hour ≡ code) × (m.hour < 24)) }
{
    let day = Day::numbered(code / 24)?;
    Some(Moment {
        day,
        hour: code % 24,
    })
}
