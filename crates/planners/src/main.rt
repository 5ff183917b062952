// Two planners load a survey each into one model base: a conflict with the row that shows it, a correction, commits, figures and
// an abandon, step by step. The calls go through `run`, over a table of eight places.
#![tactic(auto)]

mod story;
mod words;

use anyhow::Context;
use compare::sample::Sample;
use kinds::bank::ALL_KINDS;
use manager::fault::ManagerFault;
use runs::call::{Answer, Call};
use sheets::running::Answered;
use std::io;
use stores::table::Table;
use story::Sheets;
use telling::follow::answer;
use telling::script::Script;
use telling::sentence::WrittenSample;
use words::{Asked, Told};

fn tell(rt: &HostRuntime, call: Call, answer: Answer, sample: Sample) -> io::Result<()> {
    println!(rt; "{}: {}", Asked(call), Told(answer))?;
    if let Answer::Refused(ManagerFault::Conflict { .. }) = answer {
        println!(rt; "  this row fits both:{}", WrittenSample(sample))?;
    }
    Ok(())
}

// Runs the calls over a new manager and an empty table, and tells each with its answer.
fn follow(rt: &HostRuntime, calls: &[Call]) -> anyhow::Result<()> {
    let mut records = [None; 8];
    let mut table = Table::new(&mut records)
        .ok()
        .context("a table of eight places is refused")?;
    let Answered { answers, samples } = answer(rt, ALL_KINDS, &mut table, calls)?;
    let answered = answers.iter().zip(samples.iter());
    for (call, (answer, sample)) in calls.iter().zip(answered) {
        tell(rt, *call, *answer, *sample)?;
    }
    Ok(())
}

fn main(rt: HostRuntime) -> anyhow::Result<()> {
    let sheets = Sheets::new();
    let mut script = Script::new(rt.alloc());
    story::write(&mut script, &sheets)?;
    follow(&rt, script.calls.as_slice())
}
