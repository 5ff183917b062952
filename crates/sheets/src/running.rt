// A list of calls, run with memory for its answers.
ghost use Rattle.std.specs.Prelude.{◌≡◌, length, IfOk, MatchResult, vec_len};
ghost use Rattle.manager.specs.Checks.{Passed};
ghost use Rattle.manager.specs.New.{new_checks};
ghost use Rattle.sheets.specs.Faults.{Unanswered};
ghost use Rattle.sheets.specs.Sheets.{RanAll};

use crate::fault::SheetFault;
use compare::sample::Sample;
use kinds::kind::Kind;
use manager::memory::Memory;
use runs::call::{Answer, Call};
use runs::run::run;
use std::alloc::Global;
use stores::store::Store;
use terms::cell::BLANK;

// What stands in a row buffer before its call.
pub const NO_SAMPLE: Sample = Sample {
    cells: [BLANK; 12],
    more: false,
};

// The answers of a run and its row buffers, which have the samples of its conflicts.
#[derive(Drop)]
pub struct Answered {
    pub answers: Vec<Answer>,
    pub samples: Vec<Sample>,
}

// Runs the calls over a new manager, an answer and a row buffer to each; or the manager's memory or signature is refused, or memory is wanting.
pub fn run_calls<K: Kind + Drop, S: Store>(
    heap: Global,
    kind: K,
    arities: [u8; 32],
    memory: &mut Memory,
    store: &mut S,
    calls: &[Call],
) -> Result<Answered, SheetFault>
    ensures ran { MatchResult result (λ v. Passed (new_checks memory.old arities) × RanAll arities (K.Kind.means kind) (S.Store.places store.old) calls.now v.answers.items v.samples.items (S.Store.means store.old) (S.Store.means store.new)) (λ f. Unanswered (new_checks memory.old arities) (S.Store.means store.old) (S.Store.means store.new) f) }
    ensures all { IfOk result (λ v. (vec_len v.answers ≡ length calls.now) × (vec_len v.samples ≡ length calls.now)) }
    ensures places { S.Store.places store.new ≡ S.Store.places store.old }
{
    let mut answers = vec![in heap; Answer::Done; calls.len()]?;
    let mut samples = vec![in heap; NO_SAMPLE; calls.len()]?;
    let mut sheet = [BLANK; 16];
    run(
        kind,
        arities,
        memory,
        store,
        &mut sheet,
        calls,
        answers.as_mut_slice(),
        samples.as_mut_slice(),
    )?;
    Ok(Answered { answers, samples })
}
