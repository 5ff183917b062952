use crate::made::{cell, condition, on};
use kinds::bank::ALL_KINDS;
use refusals::Fault;
use std::test::Fail;
use terms::cell::Cell;
use terms::constraint::{Constraint, NO_CONSTRAINT};
use terms::fault::PatternFault;
use terms::pattern::Pattern;
use terms::row::Row;
use terms::signature::Signature;

// Symbol 1 has seven arguments, symbol 2 two and symbol 3 one. Each crate of vectors shows its own arities.
fn arities() -> [u8; 32] {
    let mut arities = [0; 32];
    arities[1] = 7;
    arities[2] = 2;
    arities[3] = 1;
    arities
}

// The number and the place of a refusal; 0 and 0 if there is none.
fn refusal<T: Drop>(read: Result<T, PatternFault>) -> (u8, usize) {
    match read {
        Ok(_) => (0, 0),
        Err(fault) => {
            let refusal = fault.refusal();
            (refusal.number, refusal.place.unwrap_or(99))
        }
    }
}

fn pattern_refusal(cells: &[Cell], constraints: &[Constraint]) -> (u8, usize) {
    let read = |signature| Pattern::read(&signature, &ALL_KINDS, cells, constraints);
    refusal(Signature::new(arities()).and_then(read))
}

fn row_refusal(cells: &[Cell]) -> (u8, usize) {
    let read = |signature| Row::read(&signature, &ALL_KINDS, cells);
    refusal(Signature::new(arities()).and_then(read))
}

fn signature_refusal(symbol: usize, arity: u8) -> Option<usize> {
    let mut arities = arities();
    *arities.get_mut(symbol)? = arity;
    Signature::new(arities).err()?.refusal().place
}

#[test]
fn signatures(rt: HostRuntime) {
    for (symbol, arity, place) in [
        (31, 7, None),
        (31, 8, Some(31)),
        (0, 1, Some(0)),
        (2, 255, Some(2)),
    ] {
        assert_eq!(rt;
            signature_refusal(symbol, arity),
            place,
            "{symbol}: {arity}"
        );
    }
}

#[test]
fn structure_of_patterns(rt: HostRuntime) {
    let s2 = cell(b'S', 2);
    let n1 = cell(b'N', 1);
    let wanted: [(&[Cell], (u8, usize)); 9] = [
        (&[], (21, 0)),
        (&[n1], (21, 0)),
        (&[cell(b'V', 0)], (21, 0)),
        (&[s2, n1], (21, 2)),
        (&[s2, n1, n1], (0, 0)),
        (&[s2, n1, n1, n1], (21, 3)),
        (&[s2, cell(b'V', 7), cell(b'V', 8)], (21, 2)),
        (&[s2, cell(b'S', 32), n1], (21, 1)),
        (&[s2, cell(b'S', 31), n1], (0, 0)),
    ];
    for (cells, refusal) in wanted {
        assert_eq!(rt; pattern_refusal(cells, &[]), refusal, "{cells:?}");
    }
}

#[test]
fn values_before_structure(rt: HostRuntime) {
    let s2 = cell(b'S', 2);
    let n1 = cell(b'N', 1);
    let wanted: [(&[Cell], (u8, usize)); 4] = [
        (&[s2, cell(b'N', 1_000_000_000), n1], (20, 1)),
        (&[s2, n1, n1, cell(b'H', 168)], (20, 3)),
        (&[cell(b' ', 0)], (20, 0)),
        (&[s2, cell(b'H', 167), cell(b'C', 23)], (0, 0)),
    ];
    for (cells, refusal) in wanted {
        assert_eq!(rt; pattern_refusal(cells, &[]), refusal, "{cells:?}");
    }
    assert_eq!(rt; row_refusal(&[s2, cell(b'V', 0), n1]), (21, 1));
}

// Three symbols of seven arguments make 24 cells with their ends; a fourth can never be ended within 24.
#[test]
fn exactly_24_cells(rt: HostRuntime) {
    let end = cell(b'N', 0);
    let mut cells = [end; 25];
    cells[0] = cell(b'S', 1);
    cells[1] = cell(b'S', 1);
    cells[2] = cell(b'S', 1);
    cells[3] = cell(b'S', 2);
    assert_eq!(rt; pattern_refusal(&cells[0..24], &[]), (0, 0));
    assert_eq!(rt; pattern_refusal(&cells[0..23], &[]), (21, 23));
    assert_eq!(rt; pattern_refusal(&cells, &[]), (21, 24));
    cells[3] = cell(b'S', 1);
    assert_eq!(rt; pattern_refusal(&cells, &[]), (21, 3));
}

#[test]
fn exactly_12_cells(rt: HostRuntime) {
    let end = cell(b'N', 0);
    let mut cells = [end; 12];
    cells[0] = cell(b'S', 1);
    cells[1] = cell(b'S', 2);
    cells[2] = cell(b'S', 2);
    assert_eq!(rt; row_refusal(&cells), (0, 0));
    cells[3] = cell(b'S', 3);
    assert_eq!(rt; row_refusal(&cells), (21, 3));
    assert_eq!(rt; pattern_refusal(&cells, &[]), (21, 12));
}

#[test]
fn constraints(rt: HostRuntime) {
    let s3 = [cell(b'S', 3), cell(b'V', 0)];
    let fine = on(7, condition(b'W', 31, 128));
    let high = on(8, condition(b'W', 31, 128));
    assert_eq!(rt; pattern_refusal(&s3, &[fine; 8]), (0, 0));
    assert_eq!(rt; pattern_refusal(&s3, &[fine; 9]), (23, 8));
    assert_eq!(rt; pattern_refusal(&s3, &[fine, high]), (23, 1));
    assert_eq!(rt; pattern_refusal(&s3, &[NO_CONSTRAINT, high]), (22, 0));
    assert_eq!(rt; pattern_refusal(&s3[0..1], &[high]), (21, 1));
}

#[test]
fn rows_are_equal_by_their_cells(rt: HostRuntime) -> Result<(), Fail> {
    let signature = Signature::new(arities())?;
    let row = |number| Row::read(&signature, &ALL_KINDS, &[cell(b'S', 3), cell(b'N', number)]);
    let one = row(1)?;
    let same = row(1)?;
    let other = row(2)?;
    assert!(rt; one == same);
    assert!(rt; one != other);
    assert_eq!(rt; one.cells().len(), 2);
    assert_eq!(rt;
        Pattern::from(&one).cells().first().copied(),
        Some(cell(b'S', 3))
    );
    Ok(())
}
