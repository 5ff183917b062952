// A new manager over a table of two places, for a list of calls.
use kinds::bank::ALL_KINDS;
use manager::memory::Memory;
use refusals::Fault;
use runs::call::{Answer, Call};
use sheets::fault::SheetFault;
use sheets::running::run_calls;
use std::alloc::AllocError;
use stores::table::Table;
use telling::memory::Rolls;
use terms::cell::Cell;
use terms::constraint::Constraint;

// S3 V0.
pub const ANY: [Cell; 2] = [
    Cell {
        letter: b'S',
        number: 3,
    },
    Cell {
        letter: b'V',
        number: 0,
    },
];

pub const FREE: &[Constraint] = &[];

pub fn cell(letter: u8, number: u32) -> Cell {
    Cell { letter, number }
}

// Symbol 2 has two arguments and symbol 3 one. Each crate of vectors shows its own arities.
pub fn arities() -> [u8; 32] {
    let mut arities = [0; 32];
    arities[2] = 2;
    arities[3] = 1;
    arities
}

// Makes a call for a list; `reserve` of telling's `Script` pushes one to a script.
pub fn reserve<'a>(
    transaction: u32,
    right: u8,
    cells: &'a [Cell],
    constraints: &'a [Constraint],
) -> Call<'a> {
    Call::Reserve {
        transaction,
        right,
        cells,
        constraints,
    }
}

// The number of a refusal, or 0.
fn refusal(answer: &Answer) -> u8 {
    match answer {
        Answer::Refused(fault) => fault.refusal().number,
        _ => 0,
    }
}

// The refusals of the calls, in order: 0 for one that is granted. A run that is refused as a whole has its refusal alone.
pub fn play_under(
    rt: &HostRuntime,
    arities: [u8; 32],
    changes: usize,
    calls: &[Call],
) -> Result<Vec<u8>, AllocError> {
    let heap = rt.alloc();
    let Some(mut rolls) = Rolls::new() else {
        return Ok(Vec::new(heap));
    };
    let Memory {
        transactions,
        reservations,
        changes: pending,
    } = rolls.memory();
    let places = changes.min(pending.len());
    let mut memory = Memory {
        transactions,
        reservations,
        changes: &mut pending[..places],
    };
    let mut records = [None; 2];
    let Ok(mut table) = Table::new(&mut records) else {
        return Ok(Vec::new(heap));
    };
    match run_calls(heap, ALL_KINDS, arities, &mut memory, &mut table, calls) {
        Ok(done) => done.answers.iter().map(refusal).collect(heap),
        Err(SheetFault::Manager(fault)) => Ok(vec![in heap; fault.refusal().number]?),
        Err(SheetFault::NoMemory) => Ok(Vec::new(heap)),
    }
}

pub fn play(rt: &HostRuntime, calls: &[Call]) -> Result<Vec<u8>, AllocError> {
    play_under(rt, arities(), 128, calls)
}
