// What the consultants sent, and what the planners do with it.
use std::alloc::AllocError;
use telling::day::Day;
use telling::model::{
    COUNT, TURN, WEEKDAYS, between, count_row, counts_at, variable, within_hours,
};
use telling::script::{Counted, Script};
use terms::cell::Cell;
use terms::constraint::Constraint;

const CARS: u32 = 2;

const HEAVY: u32 = 4;

// From seven to ten.
const MORNING: u32 = 896;

// Cars straight on at junction 21, from arm 1 to arm 3.
fn on_21(day: Day, clock: u8) -> [Cell; 7] {
    count_row(21, day.at(clock), CARS, 1, 3)
}

// Cars that turn back on arm 3 of junction 57.
fn back_on_57(day: Day, clock: u8) -> [Cell; 7] {
    count_row(57, day.at(clock), CARS, 3, 3)
}

// Two surveys, and the descriptions and single counts that the planners name.
#[derive(Clone, Copy)]
pub struct Sheets {
    wednesday: [Counted<7>; 2],
    u_turns: [Counted<7>; 3],
    at_21: [Cell; 5],
    at_34: [Cell; 5],
    back: [Cell; 7],
    mornings: [Constraint; 1],
    on_any_arm: [Constraint; 1],
    from_junction_30: [Constraint; 2],
    tuesday: [[Cell; 7]; 3],
    back_at_seventeen: [Cell; 7],
    back_on_34: [Cell; 7],
    through_34: [Cell; 7],
}

impl Sheets {
    pub fn new() -> Sheets {
        Sheets {
            wednesday: [
                Counted::new(on_21(Day::Wednesday, 7), 502),
                Counted::new(on_21(Day::Wednesday, 8), 547),
            ],
            u_turns: [
                Counted::new(count_row(34, Day::Monday.at(7), HEAVY, 2, 2), 8),
                Counted::new(back_on_57(Day::Friday, 16), 14),
                Counted::new(back_on_57(Day::Friday, 17), 11),
            ],
            at_21: counts_at(21),
            at_34: counts_at(34),
            back: [
                COUNT,
                variable(0),
                variable(1),
                variable(2),
                TURN,
                variable(3),
                variable(3),
            ],
            mornings: [within_hours(0, WEEKDAYS, MORNING)],
            on_any_arm: [between(3, 1, 6)],
            from_junction_30: [between(0, 30, 99), between(3, 1, 6)],
            tuesday: [
                on_21(Day::Tuesday, 7),
                on_21(Day::Tuesday, 8),
                on_21(Day::Tuesday, 9),
            ],
            back_at_seventeen: back_on_57(Day::Friday, 17),
            back_on_34: count_row(34, Day::Monday.at(7), HEAVY, 2, 2),
            through_34: count_row(34, Day::Monday.at(7), CARS, 2, 4),
        }
    }
}

fn reserve<'a>(script: &mut Script<'a>, sheets: &'a Sheets) -> Result<(), AllocError> {
    script.say(
        "Planner 4 reserves the weekday mornings at junction 21; planner 11 wants every U-turn, and gets those of the other junctions.",
    )?;
    script.begin(4)?;
    script.begin(11)?;
    script.reserve(1, b'W', &sheets.at_21, &sheets.mornings)?;
    script.reserve(2, b'W', &sheets.back, &sheets.on_any_arm)?;
    script.reserve(2, b'W', &sheets.back, &sheets.from_junction_30)
}

fn move_tuesday<'a>(script: &mut Script<'a>, sheets: &'a Sheets) -> Result<(), AllocError> {
    let [seven, eight, nine] = &sheets.tuesday;
    script.say(
        "The first consultant's clock was an hour ahead on Tuesday: what stands at 8:00 and 9:00 was counted at 7:00 and 8:00.",
    )?;
    script.look(1, eight)?;
    script.look(1, nine)?;
    script.strike(1, nine)?;
    script.write(1, eight, 531)?;
    script.write(1, seven, 488)?;
    script.say(
        "Wednesday is new, and the second consultant's U-turns come in; 11 at 17:00 is 17 on the form.",
    )?;
    script.load(1, &sheets.wednesday)?;
    script.load(2, &sheets.u_turns)?;
    script.write(2, &sheets.back_at_seventeen, 17)
}

fn commit<'a>(script: &mut Script<'a>, sheets: &'a Sheets) -> Result<(), AllocError> {
    script.say("Planner 4 takes the figures of the weekday mornings, and commits.")?;
    script.survey(1, 1)?;
    script.commit(1)?;
    script.say(
        "Planner 11 may now read the U-turns of the whole region, with the changes still pending.",
    )?;
    script.reserve(2, b'R', &sheets.back, &sheets.on_any_arm)?;
    script.survey(2, 3)?;
    script.look(2, &sheets.back_on_34)?;
    script.say(
        "The file has one free line left for two new rows. Nothing is written, and the count at 17:00 has to wait for a longer file.",
    )?;
    script.commit(2)?;
    script.strike(2, &sheets.back_at_seventeen)?;
    script.commit(2)
}

fn finish<'a>(script: &mut Script<'a>, sheets: &'a Sheets) -> Result<(), AllocError> {
    script.say(
        "655 at junction 34 may be a slip for 565. The consultant confirms 655, so the correction is given up.",
    )?;
    script.begin(4)?;
    script.reserve(3, b'W', &sheets.at_34, &[])?;
    script.write(3, &sheets.through_34, 565)?;
    script.look(3, &sheets.through_34)?;
    script.abandon(3)?;
    script.tally()
}

pub fn write<'a>(script: &mut Script<'a>, sheets: &'a Sheets) -> Result<(), AllocError> {
    reserve(script, sheets)?;
    move_tuesday(script, sheets)?;
    commit(script, sheets)?;
    finish(script, sheets)
}
