// A mask's bits in runs, so that neighbours are told together.
ghost use Rattle.std.specs.Prelude.{◌<◌, ◌≤◌, MatchOption};
ghost use Rattle.kinds.specs.Sets.{Bit};
ghost use Rattle.telling.specs.Runs.{Clear, Filled, NextRun};

use kinds::single::bit;

// The bits from the first on, up to the last one and not past it.
#[derive(Clone, Copy)]
pub struct Run {
    pub first: u32,
    pub last: u32,
}

// The first set bit from `at` on, below `top`.
fn first_set(mask: u32, at: u32, top: u32) -> Option<u32>
    ensures { MatchOption result (Clear mask at top) (λ k. (at ≤ k) × (k < top) × Bit mask k × Clear mask at k) }
{
    (at..top).find(|k| bit(mask, *k))
}

// Where the set bits from `at` on end: the first clear bit, or `top`.
fn first_clear(mask: u32, at: u32, top: u32) -> u32
    requires { at ≤ top }
    ensures { (at ≤ result) × (result ≤ top) × Filled mask at result × (result < top → Bit mask result → ⊥) }
{
    (at..top).find(|k| !bit(mask, *k)).unwrap_or(top)
}

// The next run from `at` on, below `top`, as long as it can be; none exactly if no bit is set there.
pub fn next_run(mask: u32, at: u32, top: u32) -> Option<Run>
    ensures { MatchOption result (Clear mask at top) (NextRun mask at top) }
{
    let first = first_set(mask, at, top)?;
    let end = first_clear(mask, first, top);
    Some(Run {
        first,
        last: end - 1,
    })
}
