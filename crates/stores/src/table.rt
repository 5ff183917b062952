// A table of records in the caller's memory.
ghost use Rattle.std.specs.Prelude.{◌≡◌, ◌<◌, ◌≤◌, [], length, count_by, MatchOption, MatchResult};
ghost use Rattle.stores.specs.declared.fault.StoreFault.TheVariants.{Length};
ghost use Rattle.stores.specs.Means.{Allowed};
ghost use Rattle.terms.specs.Fitting.{cells_of};
ghost use Rattle.stores.specs.Places.{held, rows_in, look, taken, Apart, NoHit, AtHit};
ghost use Rattle.stores.specs.Maps.{listed_of, look_small};
ghost use Rattle.stores.specs.Table.{contents, contents_small, contents_room, Cleared, PutPlace};

use crate::count::Count;
use crate::entry::{Entry, Record, Size};
use crate::fault::StoreFault;
use crate::length::check_places;
use crate::places::{count_in, free_all, place_for, place_of, used_places, used_row};
use crate::store::Store;
use terms::row::Row;

// A store in the caller's records; what a free record holds is nobody's.
#[derive(Drop)]
pub struct Table<'a> {
    pub(crate) records: &'a mut [Record],
    ghost apart: { Apart (held (contents records.now)) },
    ghost some: { 1 ≤ length records.now },
    ghost few: { length records.now ≤ 4096 },
}

// Frees every record where a table may have so many, and else leaves all as they are.
fn clear(records: &mut [Record]) -> Result<(), StoreFault>
    ensures { Cleared records.old records.new result }
{
    check_places(records.len())?;
    free_all(records);
    Ok(())
}

impl<'a> Table<'a> {
    // An empty table over 1 to 4,096 records. That a refusal leaves the records is promised by `clear`: the contract of
    // a function whose result borrows them cannot say so.
    pub fn new(records: &'a mut [Record]) -> Result<Table<'a>, StoreFault>
        ensures { MatchResult result (λ t. (held (contents t.records.now) ≡ []) × (length t.records.now ≡ length records.old)) (λ f. (f ≡ Length) × (Allowed (length records.old) → ⊥)) }
    {
        clear(records)?;
        Ok(Table { records })
    }
}

// Lent as a whole to look, so that what was found is known of the records that are then written.
impl Table<'_> {
    fn place(&self, key: &Row) -> Option<usize>
        ensures { MatchOption result (NoHit (contents self.now.records.now) (cells_of key.now) (length self.now.records.now)) (λ k. (k < length self.now.records.now) × AtHit (contents self.now.records.now) (cells_of key.now) k) }
    {
        place_of(self.records, key)
    }

    fn place_to_put(&self, key: &Row) -> Option<usize>
        ensures { MatchOption result (NoHit (contents self.now.records.now) (cells_of key.now) (length self.now.records.now) × (count_by taken (contents self.now.records.now) ≡ length self.now.records.now)) (PutPlace self.now.records.now (cells_of key.now)) }
    {
        place_for(self.records, key)
    }
}

impl<'a> Store for Table<'a> {
    ghost means = { λ t. look (held (contents t.records.now)) };

    ghost rows = { λ t. rows_in (held (contents t.records.now)) };

    ghost listed = { λ t. listed_of (held (contents t.records.now)) t.apart };

    ghost small = { λ t. look_small 999999 (contents t.records.now) (contents_small t.records.now) };

    ghost places = { λ t. length t.records.now };

    ghost some = { λ t. t.some };

    ghost few = { λ t. t.few };

    ghost room = { λ t. contents_room t.records.now };

    fn find(&self, key: &Row) -> Option<Count> {
        count_in(self.records, key)
    }

    fn put(&mut self, key: &Row, count: Count) -> Result<(), StoreFault> {
        let entry = Entry { key: *key, count };
        // not `ok_or(..)?`: the refusal in an arm of its own is one word, which an edit can spoil alone
        let Some(k) = self.place_to_put(key) else {
            return Err(StoreFault::Full);
        };
        self.records[k] = Some(entry);
        Ok(())
    }

    fn remove(&mut self, key: &Row) -> bool {
        match self.place(key) {
            Some(k) => {
                self.records[k] = None;
                true
            }
            None => false,
        }
    }

    fn size(&self) -> Size {
        let all = &*self.records;
        Size {
            places: all.len(),
            rows: used_places(all),
        }
    }

    fn row(&self, k: usize) -> Option<Entry> {
        used_row(self.records, k)
    }
}
