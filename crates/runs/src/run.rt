// Calls as they come from outside, over a new manager.
ghost use Rattle.std.specs.Prelude.{◌≡◌, MatchResult};
ghost use Rattle.manager.specs.Book.{Fixed, Sizes, Well, book_of};
ghost use Rattle.runs.specs.Runs.{Answered, RunMade};
ghost use Rattle.runs.specs.declared.call.Answer.TheVariants.{Refused};
ghost use Rattle.unification.specs.Sheets.{Blank};

use crate::call::{Answer, Call};
use compare::sample::Sample;
use kinds::kind::Kind;
use manager::fault::ManagerFault;
use manager::memory::Memory;
use manager::state::Manager;
use stores::store::Store;
use terms::cell::{BLANK, Cell};

// What is said of a granted call's result, or the fault.
fn told<A, F: FnOnce(A) -> Answer>(granted: Result<A, ManagerFault>, say: F) -> Answer
    requires { F.IsAlwaysCallable say }
    ensures { MatchResult granted (λ v. F.post say v result) (λ f. result ≡ Refused f) }
{
    granted.map_or_else(Answer::Refused, say)
}

// One call, answered.
fn answer<K: Kind, S: Store>(
    manager: &mut Manager<K>,
    memory: &mut Memory,
    store: &mut S,
    sheet: &mut [Cell; 16],
    buffer: &mut Sample,
    call: &Call,
) -> Answer
    requires sizes { Sizes memory.old }
    requires well { Well K.Kind.means manager.old memory.old }
    requires blank { Blank sheet.old }
    ensures answered { Answered manager.old.signature.arities (K.Kind.means manager.old.kind) (S.Store.places store.old) (book_of manager.old memory.old) (book_of manager.new memory.new) (S.Store.means store.old) (S.Store.means store.new) buffer.old buffer.new call.now result }
    ensures places { S.Store.places store.new ≡ S.Store.places store.old }
    ensures blank { Blank sheet.new }
    ensures well { Well K.Kind.means manager.new memory.new }
    ensures fixed { Fixed manager.old manager.new }
    ensures sizes { Sizes memory.new }
{
    match call {
        Call::Begin { planner } => told(manager.begin(memory, *planner), Answer::Number),
        Call::Reserve {
            transaction,
            right,
            cells,
            constraints,
        } => told(
            manager.reserve(
                memory,
                *transaction,
                *right,
                cells,
                constraints,
                sheet,
                buffer,
            ),
            Answer::Number,
        ),
        Call::Look { transaction, cells } => {
            told(
                manager.look(memory, store, *transaction, cells, sheet),
                Answer::Found,
            )
        }
        Call::Survey {
            transaction,
            reservation,
        } => told(
            manager.survey(memory, store, *transaction, *reservation, sheet),
            |(rows, total)| Answer::Figures(rows, total),
        ),
        Call::Write {
            transaction,
            cells,
            count,
        } => told(
            manager.write(memory, *transaction, cells, *count, sheet),
            |()| Answer::Done,
        ),
        Call::Strike { transaction, cells } => {
            told(
                manager.strike(memory, *transaction, cells, sheet),
                |()| Answer::Done,
            )
        }
        Call::Commit { transaction } => told(
            manager.commit(memory, store, *transaction),
            Answer::Number,
        ),
        Call::Abandon { transaction } => told(
            manager.abandon(memory, *transaction),
            Answer::Number,
        ),
        Call::Tally => told(manager.tally(memory), Answer::Tally),
    }
}

// The calls in order, each answered, over a new manager; as many as there are answers and row buffers, one for each
// call. How many were answered.
pub fn run<K: Kind + Drop, S: Store>(
    kind: K,
    arities: [u8; 32],
    memory: &mut Memory,
    store: &mut S,
    sheet: &mut [Cell; 16],
    calls: &[Call],
    answers: &mut [Answer],
    buffers: &mut [Sample],
) -> Result<usize, ManagerFault>
    ensures run { RunMade K.Kind.means kind arities (S.Store.places store.old) memory.old calls.now answers.old answers.new buffers.old buffers.new (S.Store.means store.old) (S.Store.means store.new) result }
    ensures places { S.Store.places store.new ≡ S.Store.places store.old }
    ensures sizes { Sizes memory.old → Sizes memory.new }
    ensures blank { Blank sheet.new }
{
    *sheet = [BLANK; 16];
    let mut manager = Manager::new(kind, arities, memory)?;
    let n = calls.len().min(answers.len()).min(buffers.len());
    for (i, call) in calls[..n].iter().enumerate() {
        answers[i] = answer(&mut manager, memory, store, sheet, &mut buffers[i], call);
    }
    Ok(n)
}
