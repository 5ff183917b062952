// What a survey counts.
ghost use Rattle.std.specs.Prelude.{◌*◌, ◌≤◌, List, map, length, Decides};
ghost use Rattle.maps.specs.Maps.{Figures, Map};
ghost use Rattle.terms.specs.declared.cell.Cell.{Cell};
ghost use Rattle.terms.specs.Fitting.{Fits, described, cells_of};
ghost use Rattle.terms.specs.Proper.{ProperPattern};
ghost use Rattle.terms.specs.Rows.{decided};
ghost use Rattle.unification.specs.Sheets.{Blank};
ghost use Rattle.serial.specs.Machine.{KeysOnce, with_own};
ghost use Rattle.serial.specs.Surveys.{Changed as OwnRows, Unchanged};
ghost use Rattle.ledger.specs.Words.{pending_of};
ghost use Rattle.ledger.specs.Counting.{Adds, Owns, Stands};

use crate::changes::change_for;
use crate::entry::{PendingChange, Reservation};
use crate::fitting::fits_key;
use kinds::kind::Kind;
use stores::count::Count;
use stores::store::Store;
use terms::cell::Cell;
use terms::pattern::Pattern;
use terms::row::Row;
use terms::signature::Signature;

// The pattern of the transaction's reservation of that number.
pub fn pattern_of(reservations: &[Reservation], transaction: u32, number: u32) -> Option<Pattern>
    ensures { Owns transaction number reservations.now result }
{
    let own = reservations
        .iter()
        .find(|held| held.owner == transaction && held.number == number)?;
    Some(own.pattern)
}

// Whether a row of the store is counted as it stands there.
fn stands<K: Kind>(
    kind: &K,
    signature: &Signature,
    changes: &[PendingChange],
    transaction: u32,
    pattern: &Pattern,
    row: &Row,
    sheet: &mut [Cell; 16],
) -> bool
    requires pattern { ProperPattern signature.now.arities (K.Kind.means kind.now) (described pattern.now) }
    requires blank { Blank sheet.old }
    ensures answer { Decides result (Stands signature.now.arities (K.Kind.means kind.now) transaction (described pattern.now) changes.now (cells_of row.now)) }
    ensures blank { Blank sheet.new }
{
    change_for(changes, transaction, row).is_none()
        && fits_key(kind, signature, row, pattern, sheet)
}

// The rows of the store that fit and that the transaction has not changed.
pub fn survey_store<K: Kind, S: Store>(
    kind: &K,
    signature: &Signature,
    store: &S,
    changes: &[PendingChange],
    transaction: u32,
    pattern: &Pattern,
    sheet: &mut [Cell; 16],
) -> (u32, u64)
    requires pattern { ProperPattern signature.now.arities (K.Kind.means kind.now) (described pattern.now) }
    requires blank { Blank sheet.old }
    ensures figures { Figures (Unchanged decided transaction (map pending_of changes.now) (λ q. Fits signature.now.arities (K.Kind.means kind.now) q (described pattern.now)) (S.Store.rows store.now)) (with_own decided transaction (map pending_of changes.now) (S.Store.means store.now)) result.0 result.1 }
    ensures small { (result.0 ≤ 4096) × (result.1 ≤ 4096 * 999999) }
    ensures blank { Blank sheet.new }
{
    let size = store.size();
    // a store gives its rows by their numbers; no `filter`, of whose closure, which changes the sheet, nothing would be known
    let mut number: u32 = 0;
    let mut total: u64 = 0;
    for k in 0..size.rows {
        if let Some(entry) = store.row(k) {
            if stands(
                kind,
                signature,
                changes,
                transaction,
                pattern,
                &entry.key,
                sheet,
            ) {
                number += 1;
                total += u64::from(entry.count.value);
            }
        }
    }
    (number, total)
}

// The count that a change adds.
fn adds<K: Kind>(
    kind: &K,
    signature: &Signature,
    change: &PendingChange,
    transaction: u32,
    pattern: &Pattern,
    sheet: &mut [Cell; 16],
) -> Option<Count>
    requires pattern { ProperPattern signature.now.arities (K.Kind.means kind.now) (described pattern.now) }
    requires blank { Blank sheet.old }
    ensures answer { Adds signature.now.arities (K.Kind.means kind.now) transaction (described pattern.now) change.now result }
    ensures blank { Blank sheet.new }
{
    if change.owner != transaction {
        return None;
    }
    if !fits_key(kind, signature, &change.row, pattern, sheet) {
        return None;
    }
    change.change
}

// The rows that fit and that the transaction has changed to a count.
pub fn survey_changes<K: Kind>(
    kind: &K,
    signature: &Signature,
    changes: &[PendingChange],
    transaction: u32,
    pattern: &Pattern,
    sheet: &mut [Cell; 16],
) -> (u32, u64)
    requires pattern { ProperPattern signature.now.arities (K.Kind.means kind.now) (described pattern.now) }
    requires blank { Blank sheet.old }
    requires keys { KeysOnce (map pending_of changes.now) }
    requires few { length changes.now ≤ 128 }
    ensures figures { (m : Map (List Cell)) → Figures (OwnRows transaction (λ q. Fits signature.now.arities (K.Kind.means kind.now) q (described pattern.now)) (map pending_of changes.now)) (with_own decided transaction (map pending_of changes.now) m) result.0 result.1 }
    ensures small { (result.0 ≤ 128) × (result.1 ≤ 128 * 999999) }
    ensures blank { Blank sheet.new }
{
    // not `filter_map`, as above
    let mut number: u32 = 0;
    let mut total: u64 = 0;
    for change in changes {
        if let Some(count) = adds(kind, signature, change, transaction, pattern, sheet) {
            number += 1;
            total += u64::from(count.value);
        }
    }
    (number, total)
}
