// What the consultants sent, and what the planners do with it.
// A script borrows the cells of the sheets, so that the two are lent to each part side by side, and no struct holds both.
use std::alloc::AllocError;
use telling::model::{TURN, between, number, variable};
use telling::script::{Counted, Script};
use terms::cell::Cell;
use terms::constraint::Constraint;

fn turn(from: u32, to: u32) -> [Cell; 3] {
    [TURN, number(from), number(to)]
}

fn counted(from: u32, to: u32, vehicles: u32) -> Counted<3> {
    Counted::new(turn(from, to), vehicles)
}

// Two surveys, and the descriptions and single turns that the planners name.
#[derive(Clone, Copy)]
pub struct Sheets {
    north_and_east: [Counted<3>; 7],
    south_and_west: [Counted<3>; 7],
    turns: [Cell; 3],
    back: [Cell; 3],
    into_south: [Cell; 3],
    arms_1_and_2: [Constraint; 1],
    arms_3_and_4: [Constraint; 1],
    north_to_east: [Cell; 3],
    north_to_south: [Cell; 3],
    back_north: [Cell; 3],
    back_west: [Cell; 3],
}

impl Sheets {
    pub fn new() -> Sheets {
        Sheets {
            north_and_east: [
                counted(1, 1, 3),
                counted(1, 2, 841),
                counted(1, 3, 412),
                counted(1, 4, 131),
                counted(2, 1, 76),
                counted(2, 3, 158),
                counted(2, 4, 267),
            ],
            south_and_west: [
                counted(3, 1, 388),
                counted(3, 2, 97),
                counted(3, 4, 64),
                counted(4, 1, 119),
                counted(4, 2, 243),
                counted(4, 3, 58),
                counted(4, 4, 5),
            ],
            turns: [TURN, variable(0), variable(1)],
            back: [TURN, variable(0), variable(0)],
            into_south: [TURN, variable(0), number(3)],
            arms_1_and_2: [between(0, 1, 2)],
            arms_3_and_4: [between(0, 3, 4)],
            north_to_east: turn(1, 2),
            north_to_south: turn(1, 3),
            back_north: turn(1, 1),
            back_west: turn(4, 4),
        }
    }
}

fn reserve<'a>(script: &mut Script<'a>, sheets: &'a Sheets) -> Result<(), AllocError> {
    script.say(
        "Planner 2 loads the first consultant's sheet (arms 1 and 2), planner 5 the second one's (arms 3 and 4).",
    )?;
    script.begin(2)?;
    script.begin(5)?;
    script.reserve(1, b'W', &sheets.turns, &sheets.arms_1_and_2)?;
    script.say(
        "Planner 5 first asks for the U-turns on every arm, some of which planner 2 holds, and then for arms 3 and 4.",
    )?;
    script.reserve(2, b'W', &sheets.back, &[])?;
    script.reserve(2, b'W', &sheets.turns, &sheets.arms_3_and_4)
}

fn load<'a>(script: &mut Script<'a>, sheets: &'a Sheets) -> Result<(), AllocError> {
    script.say("Both load their sheets.")?;
    script.load(1, &sheets.north_and_east)?;
    script.load(2, &sheets.south_and_west)?;
    script.say(
        "841 from arm 1 to arm 2 was typed with a digit too many, and the three U-turns on arm 1 were one taxi.",
    )?;
    script.write(1, &sheets.north_to_east, 84)?;
    script.strike(1, &sheets.back_north)?;
    script.survey(1, 1)?;
    script.commit(1)
}

fn finish<'a>(script: &mut Script<'a>, sheets: &'a Sheets) -> Result<(), AllocError> {
    script.say("Planner 5 wants the flow into arm 3, and may see it only by a reservation.")?;
    script.look(2, &sheets.north_to_south)?;
    script.reserve(2, b'R', &sheets.into_south, &[])?;
    script.look(2, &sheets.north_to_south)?;
    script.survey(2, 3)?;
    script.commit(2)?;
    script.say("Planner 2 tries out a ban on U-turns, and leaves the model base as it is.")?;
    script.begin(2)?;
    script.reserve(3, b'W', &sheets.back, &[])?;
    script.strike(3, &sheets.back_west)?;
    script.survey(3, 4)?;
    script.abandon(3)?;
    script.tally()
}

// The office's `write` has the same shape, but its sheets are of another type and its parts tell another story.
pub fn write<'a>(script: &mut Script<'a>, sheets: &'a Sheets) -> Result<(), AllocError> {
    reserve(script, sheets)?;
    load(script, sheets)?;
    finish(script, sheets)
}
