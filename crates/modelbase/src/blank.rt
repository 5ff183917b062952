// The image of a new file.
ghost use Rattle.std.specs.Prelude.{◌≡◌, ◌*◌, ◌≤◌, IfOk, vec_len, MatchOption};
ghost use Rattle.modelbase.specs.Blank.{BlankTo};

use std::alloc::{AllocError, Global};

// How many lines a file has: a number, and no buffer's length.
#[derive(Clone, Copy)]
pub struct Lines {
    count: usize,
    ghost some: { 1 ≤ count },
    ghost few: { count ≤ 4096 },
}

impl Lines {
    // None exactly where a file has not so many.
    pub fn new(count: usize) -> Option<Lines>
        ensures { MatchOption result ((1 ≤ count) × (count ≤ 4096) → ⊥) (λ l. l.count ≡ count) }
    {
        // no `then_some`, which would make the lines before the test, and no `then`, whose closure has to state the test again as its clause
        if count == 0 || count > 4096 {
            return None;
        }
        Some(Lines { count })
    }

    pub fn count(self) -> usize
        ensures { result ≡ self.count }
    {
        self.count
    }
}

// So many blank lines of 128 characters.
pub fn blank_image(heap: Global, lines: Lines) -> Result<Vec<u8>, AllocError>
    ensures { IfOk result (λ v. (vec_len v ≡ lines.count * 128) × BlankTo (lines.count * 128) v.items) }
{
    (0..lines.count * 128)
        .map(|k| if k % 128 == 127 { b'\n' } else { b' ' })
        .collect(heap)
}
