use crate::made::{cell, condition, on};
use compare::outside::{Written, compare};
use kinds::bank::ALL_KINDS;
use refusals::Fault;
use terms::cell::{BLANK, Cell};
use terms::constraint::Constraint;

const S2: Cell = Cell {
    letter: b'S',
    number: 2,
};

const S3: Cell = Cell {
    letter: b'S',
    number: 3,
};

const V0: Cell = Cell {
    letter: b'V',
    number: 0,
};

fn on_v0(form: u8, a: u32, b: u32) -> Constraint {
    on(0, condition(form, a, b))
}

// The last cell of the sample, as all pairs here end with their third cell at the latest; a blank for a clash, the refusal's number under `!`.
fn last_of(left: Written, right: Written) -> Cell {
    let mut arities = [0; 32];
    arities[2] = 2;
    arities[3] = 1;
    let mut sheet = [S2; 16];
    let mut bindings = [None; 16];
    match compare(&ALL_KINDS, &arities, left, right, &mut sheet, &mut bindings) {
        Ok(None) => BLANK,
        Ok(Some(sample)) => {
            let [_, second, third, ..] = sample.cells;
            if third == BLANK { second } else { third }
        }
        Err(fault) => cell(b'!', u32::from(fault.refusal().number)),
    }
}

fn bare(left: &[Cell], right: &[Cell]) -> Cell {
    let unconstrained = |cells| Written {
        cells,
        constraints: &[],
    };
    last_of(unconstrained(left), unconstrained(right))
}

// On S3 V0 twice.
fn under(left: &[Constraint], right: &[Constraint]) -> Cell {
    let constrained = |constraints| Written {
        cells: &[S3, V0],
        constraints,
    };
    last_of(constrained(left), constrained(right))
}

#[test]
fn structure(rt: HostRuntime) {
    let n1 = cell(b'N', 1);
    let wanted: [(&[Cell], &[Cell], Cell); 7] = [
        (&[S2, V0, V0], &[S2, n1, cell(b'N', 2)], BLANK),
        (&[S2, V0, V0], &[S2, V0, S3, V0], BLANK),
        (&[S2, V0, cell(b'V', 1)], &[S2, V0, V0], cell(b'S', 0)),
        (&[S2, V0, n1], &[S2, n1, V0], n1),
        (&[S3, cell(b'N', 7)], &[S3, cell(b'H', 7)], BLANK),
        (&[S3], &[S3, V0], cell(b'!', 21)),
        (&[S3, V0], &[S3, cell(b'Q', 0)], cell(b'!', 20)),
    ];
    for (left, right, last) in wanted {
        assert_eq!(rt; bare(left, right), last, "{left:?} and {right:?}");
    }
}

#[test]
fn conditions(rt: HostRuntime) {
    let not_three = on_v0(b'X', 3, 0);
    let at_seven = on_v0(b'W', 31, 128);
    let wanted: [(&[Constraint], &[Constraint], Cell); 6] = [
        (&[on_v0(b'B', 1, 5)], &[not_three], cell(b'N', 1)),
        (&[on_v0(b'B', 3, 3)], &[not_three], BLANK),
        (
            &[on_v0(b'B', 1, 2), on_v0(b'X', 1, 0)],
            &[on_v0(b'X', 2, 0)],
            BLANK,
        ),
        (&[on_v0(b'B', 0, 9)], &[on_v0(b'M', 1, 0)], BLANK),
        (&[at_seven], &[on_v0(b'W', 2, 16_777_215)], cell(b'H', 31)),
        (&[at_seven], &[on_v0(b'W', 32, 16_777_215)], BLANK),
    ];
    for (left, right, last) in wanted {
        assert_eq!(rt; under(left, right), last, "{left:?} and {right:?}");
    }
}
