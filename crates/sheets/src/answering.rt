// A whole sheet, answered.
ghost use Rattle.std.specs.Prelude.{◌≡◌, vec_items};
ghost use Rattle.sheets.specs.Sheets.{SheetDone};

use crate::calls::calls_of;
use crate::fault::SheetFault;
use crate::reading::read_lines;
use crate::running::run_calls;
use crate::writing::write_lines;
use kinds::kind::Kind;
use manager::memory::Memory;
use std::alloc::Global;
use stores::store::Store;

// A sheet has at most so many bytes; of a longer one the first are read.
const LIMIT: usize = 65_536;

// The answer lines of a sheet that is run over a new manager and the store.
pub fn answer_sheet<K: Kind + Drop, S: Store>(
    heap: Global,
    kind: K,
    arities: [u8; 32],
    memory: &mut Memory,
    store: &mut S,
    input: &[u8],
) -> Result<Vec<u8>, SheetFault>
    ensures answered { SheetDone vec_items arities (K.Kind.means kind) (S.Store.places store.old) memory.old input.now (S.Store.means store.old) (S.Store.means store.new) result }
    ensures places { S.Store.places store.new ≡ S.Store.places store.old }
{
    let lines = read_lines(heap, &input[..LIMIT.min(input.len())])?;
    let calls = calls_of(heap, lines.as_slice())?;
    let done = run_calls(heap, kind, arities, memory, store, calls.as_slice())?;
    let out = write_lines(
        heap,
        lines.as_slice(),
        done.answers.as_slice(),
        done.samples.as_slice(),
    )?;
    Ok(out)
}
