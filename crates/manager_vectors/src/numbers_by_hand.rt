ghost use Rattle.manager.specs.Book.{Well};

use crate::desk::{arities, cell};
use compare::sample::Sample;
use kinds::kind::Kind;
use kinds::number::Number;
use manager::fault::ManagerFault;
use manager::memory::Memory;
use manager::state::Manager;
use telling::memory::Rolls;
use terms::cell::BLANK;

// Begins, reserves so often and abandons, so many times; the first fault, if there is one.
fn begin_often<K: Kind>(
    manager: &mut Manager<K>,
    memory: &mut Memory,
    times: u32,
    reserves: u32,
) -> Result<(), ManagerFault>
    requires { Well K.Kind.means manager.old memory.old }
    ensures { Well K.Kind.means manager.new memory.new }
{
    let nought = [cell(b'S', 0)];
    let mut sheet = [BLANK; 16];
    let mut sample = Sample {
        cells: [BLANK; 12],
        more: false,
    };
    'begins: for _ in 0..times {
        let number = manager.begin(memory, 1)?;
        'reserves: for _ in 0..reserves {
            manager.reserve(memory, number, b'R', &nought, &[], &mut sheet, &mut sample)?;
        }
        manager.abandon(memory, number)?;
    }
    Ok(())
}

// What one more begin with so many reserves stops, after so many of them.
fn last_number(times: u32, reserves: u32) -> Option<Result<(), ManagerFault>> {
    let mut rolls = Rolls::new()?;
    let mut memory = rolls.memory();
    let mut manager = Manager::new(Number, arities(), &memory).ok()?;
    begin_often(&mut manager, &mut memory, times, reserves).ok()?;
    Some(begin_often(&mut manager, &mut memory, 1, reserves))
}

// The numbers of transactions and of reservations end at 999,999.
#[test]
fn last_numbers(rt: HostRuntime) {
    for (times, reserves) in [(999_999, 0), (499_999, 2)] {
        assert_eq!(rt;
            last_number(times, reserves),
            Some(Err(ManagerFault::NumbersSpent)),
            "{times} times {reserves}"
        );
    }
}
