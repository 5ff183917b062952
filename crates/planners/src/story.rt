// What the planners describe and load, and a day's calls.
use std::alloc::AllocError;
use telling::day::Day;
use telling::model::{ALL_DAY, WEEKDAYS, count_row, counts_at, within_hours};
use telling::script::Script;
use terms::cell::Cell;
use terms::constraint::Constraint;

const MONDAYS: u32 = 1;

// From seven to nine.
const MORNING: u32 = 384;

// The count of cars that turn from arm 1 to arm 3.
fn cars(junction: u32, hour: Cell) -> [Cell; 7] {
    count_row(junction, hour, 3, 1, 3)
}

#[derive(Clone, Copy)]
pub struct Sheets {
    at_12: [Cell; 5],
    at_14: [Cell; 5],
    mornings: [Constraint; 1],
    mondays: [Constraint; 1],
    seven: [Cell; 7],
    eight: [Cell; 7],
    other: [Cell; 7],
}

impl Sheets {
    pub fn new() -> Sheets {
        Sheets {
            at_12: counts_at(12),
            at_14: counts_at(14),
            mornings: [within_hours(0, WEEKDAYS, MORNING)],
            mondays: [within_hours(0, MONDAYS, ALL_DAY)],
            seven: cars(12, Day::Monday.at(7)),
            eight: cars(12, Day::Monday.at(8)),
            other: cars(14, Day::Monday.at(7)),
        }
    }
}

fn day<'a>(script: &mut Script<'a>, sheets: &'a Sheets) -> Result<(), AllocError> {
    script.begin(3)?;
    script.begin(7)?;
    script.reserve(1, b'W', &sheets.at_12, &sheets.mornings)?;
    script.reserve(2, b'W', &sheets.at_12, &sheets.mondays)?;
    script.reserve(2, b'W', &sheets.at_14, &[])?;
    script.write(1, &sheets.seven, 240)?;
    script.write(1, &sheets.eight, 315)?;
    script.write(2, &sheets.other, 180)?;
    script.write(1, &sheets.seven, 204)?;
    script.look(2, &sheets.seven)
}

fn evening<'a>(script: &mut Script<'a>, sheets: &'a Sheets) -> Result<(), AllocError> {
    script.survey(1, 1)?;
    script.commit(1)?;
    script.reserve(2, b'R', &sheets.at_12, &sheets.mornings)?;
    script.survey(2, 3)?;
    script.strike(2, &sheets.other)?;
    script.abandon(2)?;
    script.commit(2)
}

pub fn write<'a>(script: &mut Script<'a>, sheets: &'a Sheets) -> Result<(), AllocError> {
    day(script, sheets)?;
    evening(script, sheets)
}
