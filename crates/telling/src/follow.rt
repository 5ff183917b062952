// A script run over a store and told, and what a store holds.
ghost use Rattle.std.specs.Prelude.{◌≡◌, IfOk, length, vec_len};

use crate::memory::Rolls;
use crate::model::ARITIES;
use crate::plural::Many;
use crate::script::{Remark, Script};
use crate::sentence::{Asked, Shown, Told};
use crate::term::RowWords;
use anyhow::{Context, anyhow};
use compare::sample::Sample;
use kinds::kind::Kind;
use manager::fault::ManagerFault;
use runs::call::{Answer, Call};
use sheets::fault::SheetFault;
use sheets::running::{Answered, run_calls};
use std::alloc::AllocError;
use std::io;
use stores::entry::{Record, Size};
use stores::store::Store;
use stores::table::Table;

// Answers the calls over a new manager and the store: an answer and a row buffer to each.
pub fn answer<K: Kind + Drop, S: Store>(
    rt: &HostRuntime,
    kind: K,
    store: &mut S,
    calls: &[Call],
) -> anyhow::Result<Answered>
    ensures { IfOk result (λ a. (vec_len a.answers ≡ length calls.now) × (vec_len a.samples ≡ length calls.now)) }
{
    let mut rolls = Rolls::new().context("the model base's arities are not allowed")?;
    run_calls(rt.alloc(), kind, ARITIES, &mut rolls.memory(), store, calls).map_err(
        |fault| match fault {
            SheetFault::NoMemory => anyhow::Error::from(AllocError),
            SheetFault::Manager(_) => anyhow!("the memory is not of the rolls' sizes"),
        },
    )
}

// The remarks before call i.
fn remark(rt: &HostRuntime, remarks: &[Remark], i: usize) -> io::Result<()> {
    for remark in remarks.iter().filter(|remark| remark.before == i) {
        println!(rt; "\n{}", remark.text)?;
    }
    Ok(())
}

// A call with its answer; of a conflict, the holder and the row that shows it.
pub fn tell(rt: &HostRuntime, call: Call, answer: Answer, sample: Sample) -> io::Result<()> {
    println!(rt; "  {}: {}.", Asked(call), Told { call, answer })?;
    if let Answer::Refused(
        ManagerFault::Conflict {
            transaction,
            reservation,
        },
    ) = answer
    {
        println!(rt;
            "    Transaction {transaction} holds it by reservation {reservation}; both take in {}.",
            Shown(sample)
        )?;
    }
    Ok(())
}

// Runs the script's calls, and tells each with its answer.
pub fn follow<K: Kind + Drop, S: Store>(
    rt: &HostRuntime,
    kind: K,
    store: &mut S,
    script: &Script,
) -> anyhow::Result<()> {
    let calls = script.calls.as_slice();
    let remarks = script.remarks.as_slice();
    let Answered { answers, samples } = answer(rt, kind, store, calls)?;
    let answered = answers.iter().zip(samples.iter());
    for (i, (call, (answer, sample))) in calls.iter().zip(answered).enumerate() {
        remark(rt, remarks, i)?;
        tell(rt, *call, *answer, *sample)?;
    }
    remark(rt, remarks, calls.len())?;
    Ok(())
}

// The rows of a store with their counts.
pub fn holdings<S: Store>(rt: &HostRuntime, store: &S) -> io::Result<()> {
    let Size { places, rows } = store.size();
    let held = Many::of(rows as u64, "row");
    let free = places.saturating_sub(rows);
    println!(rt; "The model base holds {held} in {places} places; {free} are free:")?;
    // by number: a store gives each row by `row`, and has no list of them
    for entry in (0..rows).filter_map(|k| store.row(k)) {
        let row = RowWords(entry.key.cells());
        println!(rt; "  {:>6} for {row}", entry.count.value)?;
    }
    Ok(())
}

// Tells a script over an empty table in these records, and what the table then holds.
pub fn perform<K: Kind + Drop>(
    rt: &HostRuntime,
    kind: K,
    records: &mut [Record],
    title: &str,
    script: &Script,
) -> anyhow::Result<()> {
    let places = records.len();
    let mut table = Table::new(records)
        .ok()
        .context(format_args!("a table of {places} places is refused"))?;
    println!(rt; "{title}")?;
    follow(rt, kind, &mut table, script)?;
    println!(rt; "")?;
    holdings(rt, &table)?;
    Ok(())
}
