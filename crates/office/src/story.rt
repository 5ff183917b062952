// What the consultants sent, and what the planners do with it.
// A script borrows the cells of the sheets, so that the two are lent to each part side by side, and no struct holds both.
use std::alloc::AllocError;
use telling::day::Day;
use telling::model::{
    ALL_DAY, COUNT, OPPOSITE, TURN, WEEKDAYS, WEEKENDS, class, count_row, counts_at, number,
    one_of, within_hours,
};
use telling::script::{Counted, Script};
use terms::cell::Cell;
use terms::constraint::Constraint;

const CARS: u32 = 2;

const HEAVY: u32 = 4;

const BUSES: u32 = 5;

// Monday, Wednesday and Friday.
const EVERY_OTHER_DAY: u32 = 21;

// From seven to nine, from nine to twelve, and both peaks: from seven to nine and from sixteen to eighteen.
const MORNING: u32 = 384;

const FORENOON: u32 = 3_584;

const PEAKS: u32 = 196_992;

// Classes 4 and 5.
const HEAVY_AND_BUSES: u32 = 48;

// Straight on at junction 12, from arm 1 to arm 3.
fn on_12(hour: Cell, class: u32) -> [Cell; 7] {
    count_row(12, hour, class, 1, 3)
}

// Straight on at junction 14, from arm 2 to arm 4.
fn on_14(hour: Cell, class: u32) -> [Cell; 7] {
    count_row(14, hour, class, 2, 4)
}

// Cars from arm 3 to the arm opposite on Monday at seven.
fn opposite() -> [Cell; 8] {
    [
        COUNT,
        number(12),
        Day::Monday.at(7),
        class(CARS),
        TURN,
        number(3),
        OPPOSITE,
        number(3),
    ]
}

// Two surveys, and the descriptions and single counts that the planners name.
#[derive(Clone, Copy)]
pub struct Sheets {
    mornings_12: [Counted<7>; 4],
    heavy: [Counted<7>; 3],
    at_12: [Cell; 5],
    at_14: [Cell; 5],
    mornings: [Constraint; 1],
    heavy_classes: [Constraint; 1],
    heavy_forenoons: [Constraint; 2],
    heavy_peaks: [Constraint; 2],
    weekends: [Constraint; 1],
    opposite: [Cell; 8],
    monday_eight: [Cell; 7],
    tuesday_seven: [Cell; 7],
    heavy_at_eight: [Cell; 7],
    heavy_at_seven: [Cell; 7],
    class_24: [Cell; 7],
    saturday: [Cell; 7],
}

impl Sheets {
    pub fn new() -> Sheets {
        Sheets {
            mornings_12: [
                Counted::new(on_12(Day::Monday.at(7), CARS), 612),
                Counted::new(on_12(Day::Monday.at(8), CARS), 745),
                Counted::new(on_12(Day::Monday.at(7), HEAVY), 38),
                Counted::new(on_12(Day::Tuesday.at(7), CARS), 171),
            ],
            heavy: [
                Counted::new(on_12(Day::Monday.at(9), HEAVY), 41),
                Counted::new(on_14(Day::Monday.at(7), HEAVY), 27),
                Counted::new(on_14(Day::Wednesday.at(16), BUSES), 12),
            ],
            at_12: counts_at(12),
            at_14: counts_at(14),
            mornings: [within_hours(0, WEEKDAYS, MORNING)],
            heavy_classes: [one_of(1, HEAVY_AND_BUSES)],
            heavy_forenoons: [
                within_hours(0, WEEKDAYS, FORENOON),
                one_of(1, HEAVY_AND_BUSES),
            ],
            heavy_peaks: [
                within_hours(0, EVERY_OTHER_DAY, PEAKS),
                one_of(1, HEAVY_AND_BUSES),
            ],
            weekends: [within_hours(0, WEEKENDS, ALL_DAY)],
            opposite: opposite(),
            monday_eight: on_12(Day::Monday.at(8), CARS),
            tuesday_seven: on_12(Day::Tuesday.at(7), CARS),
            heavy_at_eight: on_12(Day::Monday.at(8), HEAVY),
            heavy_at_seven: on_14(Day::Monday.at(7), HEAVY),
            class_24: on_14(Day::Friday.at(17), 24),
            saturday: on_14(Day::Saturday.at(11), CARS),
        }
    }
}

fn reserve<'a>(script: &mut Script<'a>, sheets: &'a Sheets) -> Result<(), AllocError> {
    script.say("Planner 3 loads the first consultant's weekday mornings at junction 12.")?;
    script.begin(3)?;
    script.reserve(1, b'W', &sheets.at_12, &sheets.mornings)?;
    script.load(1, &sheets.mornings_12)?;
    script.write(1, &sheets.opposite, 530)?;
    script.say(
        "Planner 7 has the second consultant's heavy vehicles. Junction 12 is partly planner 3's, so planner 7 asks for less.",
    )?;
    script.begin(7)?;
    script.reserve(2, b'W', &sheets.at_12, &sheets.heavy_classes)?;
    script.reserve(2, b'W', &sheets.at_12, &sheets.heavy_forenoons)?;
    script.reserve(2, b'W', &sheets.at_14, &sheets.heavy_peaks)?;
    script.load(2, &sheets.heavy)
}

fn correct<'a>(script: &mut Script<'a>, sheets: &'a Sheets) -> Result<(), AllocError> {
    script.say(
        "Two rows of the second sheet are not planner 7's to enter: an hour that planner 3 holds, and a class that does not exist.",
    )?;
    script.write(2, &sheets.heavy_at_eight, 44)?;
    script.write(2, &sheets.class_24, 9)?;
    script.say(
        "At planner 3's desk: 745 was 754 on the form, and on Tuesday a burst main had closed arm 1, so that count goes.",
    )?;
    script.write(1, &sheets.monday_eight, 754)?;
    script.strike(1, &sheets.tuesday_seven)?;
    script.survey(1, 1)?;
    script.commit(1)
}

fn finish<'a>(script: &mut Script<'a>, sheets: &'a Sheets) -> Result<(), AllocError> {
    script.say(
        "Now that planner 3 is done, planner 7 may read the weekday mornings at junction 12.",
    )?;
    script.reserve(2, b'R', &sheets.at_12, &sheets.mornings)?;
    script.survey(2, 4)?;
    script.look(2, &sheets.heavy_at_seven)?;
    script.commit(2)?;
    script.say("A weekend count is begun, and given up when the consultant recalls it.")?;
    script.begin(7)?;
    script.reserve(3, b'W', &sheets.at_14, &sheets.weekends)?;
    script.write(3, &sheets.saturday, 480)?;
    script.abandon(3)?;
    script.commit(3)?;
    script.tally()
}

// The studio's `write` has the same shape, but its sheets are of another type and its parts tell another story.
pub fn write<'a>(script: &mut Script<'a>, sheets: &'a Sheets) -> Result<(), AllocError> {
    reserve(script, sheets)?;
    correct(script, sheets)?;
    finish(script, sheets)
}
