// The terms of the model base: its arities, and cells for counts and turns.
ghost use Rattle.std.specs.Prelude.{◌≡◌, ◌+◌, ◌*◌};

use kinds::condition::Condition;
use terms::cell::Cell;
use terms::constraint::Constraint;

// A count has four arguments (junction, hour, class, turn), a turn two (from, to), an opposite arm one.
pub const ARITIES: [u8; 32] = [
    0, 4, 2, 1, 0, 0, 0, 0, 0, 0, 0, 0, 0, 0, 0, 0, 0, 0, 0, 0, 0, 0, 0, 0, 0, 0, 0, 0, 0, 0, 0, 0,
];

pub const COUNT: Cell = Cell {
    letter: b'S',
    number: 1,
};

pub const TURN: Cell = Cell {
    letter: b'S',
    number: 2,
};

pub const OPPOSITE: Cell = Cell {
    letter: b'S',
    number: 3,
};

// Days as a mask, Monday being its lowest bit.
pub const EVERY_DAY: u32 = 127;

pub const WEEKDAYS: u32 = 31;

pub const WEEKENDS: u32 = 96;

// All hours of a day, as a mask.
pub const ALL_DAY: u32 = 16_777_215;

// A junction, an arm or any other whole number.
// As `class` and `variable`, but of another letter: one function of letter and number would be `Cell` itself again.
pub fn number(number: u32) -> Cell {
    Cell {
        letter: b'N',
        number,
    }
}

// An hour of the week, Monday being day 0 (of a named day, `Day::at`).
pub fn hour(day: u8, hour: u8) -> Cell
    ensures { result.number ≡ 24 * day + hour }
{
    Cell {
        letter: b'H',
        number: 24 * u32::from(day) + u32::from(hour),
    }
}

// As `number`, but of the letter C.
pub fn class(number: u32) -> Cell {
    Cell {
        letter: b'C',
        number,
    }
}

// As `number`, but of the letter V.
pub fn variable(number: u32) -> Cell {
    Cell {
        letter: b'V',
        number,
    }
}

// The row of a count.
pub fn count_row(junction: u32, hour: Cell, of: u32, from: u32, to: u32) -> [Cell; 7] {
    [
        COUNT,
        number(junction),
        hour,
        class(of),
        TURN,
        number(from),
        number(to),
    ]
}

// Every count at a junction: its hour is variable 0, its class 1, its turn 2.
pub fn counts_at(junction: u32) -> [Cell; 5] {
    [
        COUNT,
        number(junction),
        variable(0),
        variable(1),
        variable(2),
    ]
}

// The variable's hour is on one of these days at one of these hours, as masks.
// As `between`, but of another form: one function of form, a and b would be `Constraint` itself again.
pub fn within_hours(variable: u32, days: u32, hours: u32) -> Constraint {
    Constraint {
        variable,
        condition: Condition {
            form: b'W',
            a: days,
            b: hours,
        },
    }
}

// The variable's class is one of these, as a mask.
pub fn one_of(variable: u32, classes: u32) -> Constraint {
    Constraint {
        variable,
        condition: Condition {
            form: b'M',
            a: classes,
            b: 0,
        },
    }
}

// The variable's number is from low to high.
// As `within_hours`, but of the form B, whose two numbers are no masks.
pub fn between(variable: u32, low: u32, high: u32) -> Constraint {
    Constraint {
        variable,
        condition: Condition {
            form: b'B',
            a: low,
            b: high,
        },
    }
}
