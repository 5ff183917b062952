// Lines of columns, in which a missing column is a blank.
ghost use Rattle.std.specs.Prelude.{◌≡◌, drop, Decides, slice_index_or};
ghost use Rattle.requests.specs.Lines.{Alike, front, trim};

use std::array;

// The byte in a column, counted from 0.
pub fn byte_at(line: &[u8], i: usize) -> u8
    ensures { result ≡ slice_index_or line.now i 32 }
{
    line.get(i).copied().unwrap_or(b' ')
}

// The first columns.
pub fn front<const N: usize>(line: &[u8]) -> [u8; N]
    ensures { result ≡ front N line.now }
{
    array::from_fn(|i| byte_at(line, i))
}

// What follows the first columns.
pub fn after(line: &[u8], width: usize) -> &[u8]
    ensures { result.now ≡ drop width line.now }
{
    line.get(width..).unwrap_or(&[])
}

// Whether two lines differ at most in blanks at the end.
pub fn alike(x: &[u8], y: &[u8]) -> bool
    ensures { Decides result (Alike x.now y.now) }
{
    trimmed(x) == trimmed(y)
}

// A line without the blanks at its end.
#[tactic(auto, using(crate::proofs::Alike::trim_last, crate::proofs::Alike::trim_none, crate::proofs::Alike::trim_whole))]
pub fn trimmed(line: &[u8]) -> &[u8]
    ensures { result.now ≡ trim line.now }
{
    let mut rest = line;
    // not `trim_ascii_end`, which takes other white space too
    while let [front @ .., b' '] = rest {
        rest = front;
    }
    rest
}
