// Answers the sheet of requests on the standard input, over 64 empty places of a table.
#![tactic(auto)]

use anyhow::Context;
use kinds::bank::ALL_KINDS;
use sheets::answering::answer_sheet;
use std::io::{Read, Write};
use stores::table::Table;
use telling::memory::Rolls;
use telling::model::ARITIES;

// The answers of a sheet.
fn answers(rt: &HostRuntime, input: &[u8]) -> anyhow::Result<Vec<u8>> {
    let mut rolls = Rolls::new().context("the arities are not allowed")?;
    let mut records = [None; 64];
    let mut table = Table::new(&mut records)
        .ok()
        .context("a table of 64 places is refused")?;
    answer_sheet(
        rt.alloc(),
        ALL_KINDS,
        ARITIES,
        &mut rolls.memory(),
        &mut table,
        input,
    )
    .ok()
    .context("there is no memory left")
}

// More bytes than a sheet has are not waited for.
fn work(rt: &HostRuntime) -> anyhow::Result<()> {
    let mut input = Vec::new(rt.alloc());
    rt.stdin().take(65_536).read_to_end(&mut input)?;
    let out = answers(rt, input.as_slice())?;
    rt.stdout().write_all(out.as_slice())?;
    Ok(())
}

fn main(rt: HostRuntime) -> anyhow::Result<()> {
    work(&rt)
}
