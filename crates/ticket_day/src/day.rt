// The day at the desk.
use crate::desk::Desk;
use manager::ticket::Ticket;
use telling::day::Day;
use telling::model::{ALL_DAY, WEEKDAYS, count_row, counts_at, within_hours};
use terms::cell::Cell;
use terms::constraint::Constraint;

const MONDAYS: u32 = 1;

// From seven to nine.
const MORNING: u32 = 384;

// Cars that turn from arm 1 to arm 3.
fn cars(junction: u32, hour: Cell) -> [Cell; 7] {
    count_row(junction, hour, 3, 1, 3)
}

fn mornings() -> [Constraint; 1] {
    [within_hours(0, WEEKDAYS, MORNING)]
}

// Both describe what they are to load; one of them asks for too much.
fn describe(desk: &mut Desk, first: &Ticket, second: &Ticket) {
    desk.remark("Both reserve what they are to load. Mondays at junction 12 are planner 3's too.");
    let mondays = [within_hours(0, MONDAYS, ALL_DAY)];
    desk.reserve(first, b'W', &counts_at(12), &mornings());
    desk.reserve(second, b'W', &counts_at(12), &mondays);
    desk.reserve(second, b'W', &counts_at(14), &[]);
}

// Both load what was counted, and planner 3 corrects a figure.
fn load(desk: &mut Desk, first: &Ticket, second: &Ticket) {
    desk.remark("Both load their survey. 240 had two figures changed over.");
    let seven = cars(12, Day::Monday.at(7));
    desk.write(first, &seven, 240);
    desk.write(first, &cars(12, Day::Friday.at(8)), 315);
    desk.write(second, &cars(14, Day::Monday.at(7)), 180);
    desk.write(first, &seven, 204);
    desk.look(second, &seven);
    desk.survey(first, 1);
}

// Planner 3 has committed: the other planner sees the figures whole, finds no room, and gives up.
fn evening(desk: &mut Desk, ticket: Ticket) {
    desk.remark(
        "Planner 7 reads the mornings that planner 3 has loaded. The model base has two places, so a third row finds none.",
    );
    desk.reserve(&ticket, b'R', &counts_at(12), &mornings());
    desk.survey(&ticket, 3);
    if let Some(ticket) = desk.commit(ticket) {
        desk.remark("The ticket came back with the refusal, and is abandoned.");
        desk.abandon(ticket);
    }
}

fn together(desk: &mut Desk, first: Ticket, second: Ticket) {
    describe(desk, &first, &second);
    load(desk, &first, &second);
    if let Some(first) = desk.commit(first) {
        desk.abandon(first);
    }
    evening(desk, second);
}

// Planners 3 and 7 begin, and each has a ticket from then on.
pub fn day(desk: &mut Desk) {
    let Some(first) = desk.begin(3) else {
        return;
    };
    match desk.begin(7) {
        Some(second) => together(desk, first, second),
        None => desk.abandon(first),
    }
}
