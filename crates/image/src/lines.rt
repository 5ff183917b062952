// Looking through the lines of an image.
ghost use Rattle.std.specs.Prelude.{◌≡◌, ◌<◌, length, take, count_by, MatchOption, ◌≢◌};
ghost use Rattle.std.specs.Simd.{first_chunks};
ghost use Rattle.std.specs.List.{All, HoldsAt, filter, slice_get};
ghost use Rattle.std.specs.Option.{option_map};
ghost use Rattle.stores.specs.Places.{taken};
ghost use Rattle.terms.specs.Rows.{Storable};
ghost use Rattle.stores.specs.Table.{holding_of};
ghost use Rattle.image.specs.Meaning.{meaning, lines_in, entries, Shows, FirstFree};

use crate::fields::read_count;
use crate::scan::read_cells;
use columns::blank::is_blank;
use stores::entry::Entry;
use terms::row::Row;

// The lines, one after another.
pub(crate) fn lines_of(image: &[u8]) -> &[[u8; 128]]
    ensures lines { result.now ≡ first_chunks 128 (lines_in image.now) image.now }
    ensures many { length result.now ≡ lines_in image.now }
{
    let (lines, _) = image.as_chunks::<128>();
    lines
}

// Whether a line has a row.
fn is_taken(line: &[u8; 128]) -> bool
    ensures { result ≡ taken (meaning line.now) }
{
    !is_blank(&line[..10])
}

// A line that begins with the cells of a row's line.
pub(crate) fn place_of(lines: &[[u8; 128]], front: &[u8]) -> Option<usize>
    ensures { MatchOption result (All (λ line. take 120 line ≢ front.now) lines.now) (λ k. (k < length lines.now) × HoldsAt (λ line. take 120 line ≡ front.now) lines.now k) }
{
    lines.iter().position(|line| &line[..120] == front)
}

// The first blank line.
pub(crate) fn first_blank(image: &[u8]) -> Option<usize>
    ensures { MatchOption result (count_by taken (entries image.now) ≡ length (entries image.now)) (λ k. FirstFree image.now k) }
{
    lines_of(image).iter().position(|line| !is_taken(line))
}

// How many lines have a row.
pub(crate) fn used_lines(image: &[u8]) -> usize
    ensures { result ≡ count_by taken (entries image.now) }
{
    lines_of(image).iter().filter(|line| is_taken(line)).count()
}

// Line number n of those that have a row.
pub(crate) fn nth_taken(image: &[u8], n: usize) -> Option<&[u8; 128]>
    ensures { option_map (λ l. l.now) result ≡ slice_get (filter (λ l. taken (meaning l)) (first_chunks 128 (lines_in image.now) image.now)) n }
{
    lines_of(image).iter().filter(|line| is_taken(line)).nth(n)
}

// What a proper line means.
pub(crate) fn read_line(line: &[u8; 128]) -> Option<Entry>
    requires { Shows Storable line.now }
    ensures { option_map holding_of result ≡ meaning line.now }
{
    let found = read_cells(line);
    let key = Row::new(found.as_slice())?;
    let count = read_count(line)?;
    Some(Entry { key, count })
}
