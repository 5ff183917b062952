// Two planners' descriptions, compared.
use crate::notation::Written;
use crate::{read, refuse};
use compare::outside::{Written as Compared, compare};
use compare::sample::Sample;
use kinds::bank::ALL_KINDS;
use std::io;
use telling::model::ARITIES;
use telling::sentence::WrittenSample;
use terms::cell::BLANK;

fn tell(rt: &HostRuntime, comparison: Option<Sample>) -> io::Result<()> {
    match comparison {
        None => println!(rt; "  they clash: no row fits both"),
        Some(sample) => {
            let row = WrittenSample(sample);
            println!(rt; "  they overlap: this row fits both:{row}")
        }
    }
}

fn compared(written: &Written) -> Compared<'_> {
    Compared {
        cells: written.cells.as_slice(),
        constraints: written.constraints.as_slice(),
    }
}

pub fn compare_two(rt: &HostRuntime, left: &str, right: &str) -> anyhow::Result<()> {
    let Some(left) = read(rt, left)? else {
        return Ok(());
    };
    let Some(right) = read(rt, right)? else {
        return Ok(());
    };
    match compare(
        &ALL_KINDS,
        &ARITIES,
        compared(&left),
        compared(&right),
        &mut [BLANK; 16],
        &mut [None; 16],
    ) {
        Ok(comparison) => tell(rt, comparison)?,
        Err(fault) => refuse(rt, fault)?,
    }
    Ok(())
}
