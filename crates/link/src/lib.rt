// The library for callers in C and Rust: numbers and byte slices only. Anything may be passed; what is no pattern is refused.
#![tactic(auto)]

ghost use Rattle.link.specs.Searches.{Found};

mod decode;

use compare::outside::{Written, compare};
use compare::sample::Sample;
use decode::{cells_in, constraints_in};
use kinds::bank::ALL_KINDS;
use kinds::condition::Condition;
use kinds::kind::Kind;
use refusals::Fault;
use terms::cell::BLANK;
use terms::fault::PatternFault;

// What a search answers where there is no code: callers in C get numbers alone.
const NO_CODE: u32 = 4_294_967_295;

// The smallest code of the condition's set that is at least v, over numbers, hours and classes; 4,294,967,295 where there is none.
#[unsafe(no_mangle)]
pub extern "C" fn pilmoert_next(form: u8, a: u32, b: u32, v: u32) -> u32
    ensures { Found (record { form = form; a = a; b = b }) v result }
{
    ALL_KINDS
        .next(Condition { form, a, b }, v)
        .unwrap_or(NO_CODE)
}

// Twelve cells of five bytes, and 1 if more follow.
fn show_sample(sample: &Sample, out: &mut [u8]) {
    if out.len() < 61 {
        return;
    }
    let (places, _) = out.as_chunks_mut::<5>();
    for (place, cell) in places.iter_mut().zip(&sample.cells) {
        let [a, b, c, d] = cell.number.to_be_bytes();
        *place = [cell.letter, a, b, c, d];
    }
    out[60] = u8::from(sample.more);
}

// The refusal's number; its place goes into the first byte.
fn show_fault(fault: PatternFault, out: &mut [u8]) -> u32 {
    let refusal = fault.refusal();
    if let Some(first) = out.first_mut() {
        *first = refusal.place.map_or(255, |place| place.min(255) as u8);
    }
    u32::from(refusal.number)
}

// Compares two patterns: 0 if they clash, 1 if they overlap, else the number of the refusal, since callers in C get numbers alone.
// A cell is five bytes, its letter and its number, the high byte first; a constraint is thirteen: variable, form, a and b.
// An overlap writes 61 bytes to `out`, the sample's twelve cells and 1 if more follow; a refusal writes its place to the first byte.
#[unsafe(no_mangle)]
pub extern "C" fn pilmoert_compare(
    arities: &[u8],
    left_cells: &[u8],
    left_constraints: &[u8],
    right_cells: &[u8],
    right_constraints: &[u8],
    out: &mut [u8],
) -> u32 {
    let mut own = [0; 32];
    for (slot, arity) in own.iter_mut().zip(arities) {
        *slot = *arity;
    }
    let left = cells_in(left_cells);
    let left_on = constraints_in(left_constraints);
    let right = cells_in(right_cells);
    let right_on = constraints_in(right_constraints);
    let first = Written {
        cells: left.as_slice(),
        constraints: left_on.as_slice(),
    };
    let second = Written {
        cells: right.as_slice(),
        constraints: right_on.as_slice(),
    };
    let mut sheet = [BLANK; 16];
    let mut bindings = [None; 16];
    match compare(&ALL_KINDS, &own, first, second, &mut sheet, &mut bindings) {
        Ok(None) => 0,
        Ok(Some(sample)) => {
            show_sample(&sample, out);
            1
        }
        Err(fault) => show_fault(fault, out),
    }
}
