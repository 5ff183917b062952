use crate::desk::{ANY, FREE, cell, play, reserve};
use runs::call::Call;
use std::alloc::AllocError;
use std::test::Fail;
use terms::constraint::{Constraint, NO_CONSTRAINT};

// The refusal of a call, where transaction 1 of two has reserved everything for reading.
fn refusal(rt: &HostRuntime, call: Call) -> Result<Option<u8>, AllocError> {
    let calls = vec![in rt.alloc();
        Call::Begin { planner: 1 },
        Call::Begin { planner: 2 },
        reserve(1, b'R', &ANY, FREE),
        call,
    ]?;
    Ok(play(rt, calls.as_slice())?.last().copied())
}

#[test]
fn reserves(rt: HostRuntime) -> Result<(), Fail> {
    let bad = [cell(b'S', 3), cell(b'Q', 0)];
    let short = [cell(b'S', 3)];
    let unknown = [NO_CONSTRAINT];
    let high = [Constraint {
        variable: 8,
        condition: NO_CONSTRAINT.condition,
    }];
    for (call, number) in [
        (reserve(3, b'R', &ANY, FREE), 13),
        (reserve(1, b' ', &ANY, FREE), 14),
        (reserve(1, b'R', &bad, FREE), 20),
        (reserve(1, b'R', &short, FREE), 21),
        (reserve(1, b'R', &ANY, &unknown), 22),
        (reserve(1, b'R', &ANY, &high), 23),
    ] {
        assert_eq!(rt; refusal(&rt, call)?, Some(number));
    }
    Ok(())
}

// Two may read; one may not write what another reads, but its own.
#[test]
fn conflicts(rt: HostRuntime) -> Result<(), Fail> {
    for (transaction, right, number) in [(2, b'R', 0), (2, b'W', 30), (1, b'W', 0)] {
        let call = reserve(transaction, right, &ANY, FREE);
        assert_eq!(rt;
            refusal(&rt, call)?,
            Some(number),
            "transaction {transaction}"
        );
    }
    Ok(())
}
