use crate::desk::{ANY, FREE, arities, cell, play, play_under, reserve};
use runs::call::Call;
use std::alloc::{AllocError, Global};
use std::process::Abort;
use std::test::Fail;
use terms::cell::Cell;

// The row S3 Nn.
fn row(n: u32) -> [Cell; 2] {
    [cell(b'S', 3), cell(b'N', n)]
}

// Makes a call for a list; `write` of telling's `Script` pushes one to a script.
fn write<'a>(cells: &'a [Cell], count: u32) -> Call<'a> {
    Call::Write {
        transaction: 1,
        cells,
        count,
    }
}

// So many begins by one planner.
fn begins<'a>(heap: Global, planner: u32, count: usize) -> Result<Vec<Call<'a>>, AllocError> {
    vec![in heap; Call::Begin { planner }; count]
}

// What the calls at these places are told.
fn check(rt: &impl Abort, told: &[u8], wanted: &[(usize, u8)]) {
    for (i, refusal) in wanted {
        assert_eq!(rt; told.get(*i).copied(), Some(*refusal), "call {i}");
    }
}

#[test]
fn planners_are_1_to_16(rt: HostRuntime) -> Result<(), Fail> {
    for (planner, refusal) in [(0, 10), (16, 0), (17, 10)] {
        let calls = begins(rt.alloc(), planner, 1)?;
        check(
            &rt,
            play(&rt, calls.as_slice())?.as_slice(),
            &[(0, refusal)],
        );
    }
    Ok(())
}

#[test]
fn seventeen_begins(rt: HostRuntime) -> Result<(), Fail> {
    let calls = begins(rt.alloc(), 1, 17)?;
    check(
        &rt,
        play(&rt, calls.as_slice())?.as_slice(),
        &[(15, 0), (16, 11)],
    );
    Ok(())
}

#[test]
fn memory_and_signature(rt: HostRuntime) -> Result<(), Fail> {
    let calls = begins(rt.alloc(), 1, 1)?;
    let mut bad = arities();
    bad[0] = 1;
    for (changes, refusal) in [(127, 40), (128, 19)] {
        let told = play_under(&rt, bad, changes, calls.as_slice())?;
        check(&rt, told.as_slice(), &[(0, refusal)]);
    }
    Ok(())
}

// Three rows are written, and one of them struck after the first commit: a table of two places takes two rows and not three.
#[test]
fn a_commit_that_just_fits(rt: HostRuntime) -> Result<(), Fail> {
    let one = row(1);
    let two = row(2);
    let three = row(3);
    let calls = vec![in rt.alloc();
        Call::Begin { planner: 1 },
        reserve(1, b'W', &ANY, FREE),
        write(&one, 1),
        write(&two, 999_999),
        write(&three, 3),
        write(&three, 1_000_000),
        Call::Commit { transaction: 1 },
        Call::Strike {
            transaction: 1,
            cells: &three
        },
        Call::Commit { transaction: 1 },
        Call::Commit { transaction: 1 },
    ]?;
    let told = play(&rt, calls.as_slice())?;
    check(
        &rt,
        told.as_slice(),
        &[(3, 0), (5, 27), (6, 31), (8, 0), (9, 13)],
    );
    Ok(())
}

// What transaction 1 may and transaction 2 may not, where transaction 1 has reserved all for reading.
#[test]
fn reservations_cover(rt: HostRuntime) -> Result<(), Fail> {
    let one = row(1);
    let calls = vec![in rt.alloc();
        Call::Begin { planner: 1 },
        reserve(1, b'R', &ANY, FREE),
        Call::Begin { planner: 2 },
        Call::Look {
            transaction: 1,
            cells: &one
        },
        Call::Look {
            transaction: 2,
            cells: &one
        },
        Call::Survey {
            transaction: 1,
            reservation: 1
        },
        Call::Survey {
            transaction: 2,
            reservation: 1
        },
        write(&one, 1),
        Call::Strike {
            transaction: 1,
            cells: &one
        },
    ]?;
    let told = play(&rt, calls.as_slice())?;
    check(
        &rt,
        told.as_slice(),
        &[(3, 0), (4, 25), (5, 0), (6, 26), (7, 28), (8, 28)],
    );
    Ok(())
}

// So many reservations for reading, by one transaction.
#[test]
fn a_full_roll_of_reservations(rt: HostRuntime) -> Result<(), Fail> {
    let mut calls = begins(rt.alloc(), 1, 1)?;
    calls.resize(66, reserve(1, b'R', &ANY, FREE))?;
    check(
        &rt,
        play(&rt, calls.as_slice())?.as_slice(),
        &[(64, 0), (65, 24)],
    );
    Ok(())
}

// The roll of changes takes 128; the next row finds no place, and a row that has a change is changed again.
#[test]
fn a_full_roll_of_changes(rt: HostRuntime) -> Result<(), Fail> {
    let first = row(0);
    let mut rows = [first; 129];
    for (n, row) in (0..129).zip(&mut rows) {
        row[1] = cell(b'N', n);
    }
    let mut calls = begins(rt.alloc(), 1, 1)?;
    calls.push(reserve(1, b'W', &ANY, FREE))?;
    for row in &rows {
        calls.push(write(row, 5))?;
    }
    calls.push(write(&first, 6))?;
    check(
        &rt,
        play(&rt, calls.as_slice())?.as_slice(),
        &[(129, 0), (130, 29), (131, 0)],
    );
    Ok(())
}
