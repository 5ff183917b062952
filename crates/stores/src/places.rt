// Looking through the records of a table.
ghost use Rattle.std.specs.Prelude.{◌≡◌, ◌<◌, [], length, count_by, MatchOption};
ghost use Rattle.std.specs.List.{slice_get};
ghost use Rattle.std.specs.Option.{option_map};
ghost use Rattle.terms.specs.Fitting.{cells_of};
ghost use Rattle.stores.specs.Means.{count_of};
ghost use Rattle.stores.specs.Places.{held, hits, look, taken, NoHit, AtHit, AtFree};
ghost use Rattle.stores.specs.Table.{contents, holding_of, place_of as record_place, PutPlace};

use crate::count::Count;
use crate::entry::{Entry, Record};
use terms::row::Row;

// Whether a record has the row.
fn holds(place: &Record, key: &Row) -> bool
    ensures { result ≡ hits (record_place place.now) (cells_of key.now) }
{
    match place {
        Some(entry) => entry.key == *key,
        None => false,
    }
}

// The first place of a row.
pub(crate) fn place_of(records: &[Record], key: &Row) -> Option<usize>
    ensures { MatchOption result (NoHit (contents records.now) (cells_of key.now) (length records.now)) (λ k. (k < length records.now) × AtHit (contents records.now) (cells_of key.now) k × NoHit (contents records.now) (cells_of key.now) k) }
{
    records.iter().position(|record| holds(record, key))
}

// The count of a row, or absent.
pub(crate) fn count_in(records: &[Record], key: &Row) -> Option<Count>
    ensures { option_map count_of result ≡ look (held (contents records.now)) (cells_of key.now) }
{
    let place = place_of(records, key)?;
    let entry = records[place]?;
    Some(entry.count)
}

// A free place.
pub(crate) fn free_place(records: &[Record]) -> Option<usize>
    ensures { MatchOption result (count_by taken (contents records.now) ≡ length records.now) (λ k. (k < length records.now) × AtFree (contents records.now) k) }
{
    records.iter().position(|record| record.is_none())
}

// The place for a put: that of the row, or a free one.
pub(crate) fn place_for(records: &[Record], key: &Row) -> Option<usize>
    ensures { MatchOption result (NoHit (contents records.now) (cells_of key.now) (length records.now) × (count_by taken (contents records.now) ≡ length records.now)) (PutPlace records.now (cells_of key.now)) }
{
    // not `or_else`: the checker's own search breaks down at it here
    match place_of(records, key) {
        Some(place) => Some(place),
        None => free_place(records),
    }
}

// How many records are in use.
pub(crate) fn used_places(records: &[Record]) -> usize
    ensures { result ≡ count_by taken (contents records.now) }
{
    records.iter().filter(|record| record.is_some()).count()
}

// Row number k of those in use.
pub(crate) fn used_row(records: &[Record], k: usize) -> Option<Entry>
    ensures { option_map holding_of result ≡ slice_get (held (contents records.now)) k }
{
    records.iter().filter_map(|record| *record).nth(k)
}

// Frees every place.
pub(crate) fn free_all(records: &mut [Record])
    ensures { held (contents records.new) ≡ [] }
{
    records.fill(None);
}
