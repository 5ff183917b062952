// The fields of a line: twelve cells of ten columns, the count in seven, and the newline.
ghost use Rattle.std.specs.Prelude.{◌≡◌, ℕ, ◌≤◌, take, drop, MatchOption, MatchResult, ◌≢◌};
ghost use Rattle.columns.specs.Columns.{columns};
ghost use Rattle.image.specs.Lines.{Blanks, Marked};

use crate::marred::Marred;
use columns::blank::is_blank;
use columns::number::read_number;
use stores::count::Count;

// The cells of a line are blank from one on; else the first that is not.
pub(crate) fn check_blank(line: &[u8; 128], from: usize) -> Result<(), Marred>
    requires { from ≤ 12 }
    ensures { MatchResult result (λ _. Blanks line.now from 12) (λ m. Marked line.now from m.field) }
{
    let (fields, _) = line.as_chunks::<10>();
    match fields[from..].iter().position(|field| !is_blank(field)) {
        Some(after) => Err(Marred {
            field: from + after,
        }),
        None => Ok(()),
    }
}

// The count of a line, or absent where its columns show none.
pub(crate) fn read_count(line: &[u8; 128]) -> Option<Count>
    ensures { MatchOption result ((n : ℕ) → n ≤ 999999 → take 7 (drop 120 line.now) ≢ columns 7 n) (λ c. take 7 (drop 120 line.now) ≡ columns 7 c.value) }
{
    Count::new(read_number(&line[120..127])?)
}
