// Two planners load a survey each into one model base, each with a ticket for the transaction that was begun: a conflict with
// the row that shows it, a correction, a commit that is refused for want of room and handed its ticket back, a survey's
// figures and an abandon, step by step.
#![tactic(auto)]

mod day;
mod desk;
mod log;

use anyhow::Context;
use day::day;
use desk::Desk;
use kinds::bank::ALL_KINDS;
use log::Log;
use manager::state::Manager;
use stores::table::Table;
use telling::follow::holdings;
use telling::memory::Rolls;
use telling::model::ARITIES;

fn work(rt: &HostRuntime) -> anyhow::Result<()> {
    let mut rolls = Rolls::new().context("the model base's arities are not allowed")?;
    let memory = rolls.memory();
    let manager = Manager::new(ALL_KINDS, ARITIES, &memory)
        .ok()
        .context("the memory is not of the rolls' sizes")?;
    let mut records = [None; 2];
    let table = Table::new(&mut records)
        .ok()
        .context("a table of two places is refused")?;
    let mut desk = Desk::new(manager, memory, table, Log::new(rt));
    day(&mut desk);
    let table = desk.end()?;
    println!(rt; "")?;
    holdings(rt, &table)?;
    Ok(())
}

fn main(rt: HostRuntime) -> anyhow::Result<()> {
    work(&rt)
}
