// The changes of a transaction enter a store. Each function that writes to it promises that it keeps its places, as the trait's own do.
ghost use Rattle.std.specs.Prelude.{◌≡◌, ◌≤◌, true, false, [], ◌∷◌, map, length, count_by};
ghost use Rattle.maps.specs.Maps.{Same};
ghost use Rattle.serial.specs.Entering.{Room, alters, chosen, entered};
ghost use Rattle.serial.specs.Machine.{KeysOnce};
ghost use Rattle.terms.specs.Rows.{decided};
ghost use Rattle.ledger.specs.Words.{pending_of};
ghost use Rattle.ledger.specs.Entering.{Entered};

use crate::entry::PendingChange;
use stores::fault::StoreFault;
use stores::store::Store;

// Whether this is a change of the transaction's that takes a row away (`absences`), or one that adds a row.
fn is_altering<S: Store>(
    store: &S,
    change: &PendingChange,
    transaction: u32,
    absences: bool,
) -> bool
    ensures { result ≡ alters absences transaction (S.Store.means store.now) (pending_of change.now) }
{
    if change.owner != transaction {
        return false;
    }
    let found = store.find(&change.row).is_some();
    match change.change {
        None => absences & found,
        Some(_) => !absences & !found,
    }
}

fn count_altering<S: Store>(
    store: &S,
    changes: &[PendingChange],
    transaction: u32,
    absences: bool,
) -> usize
    ensures count { result ≡ count_by (λ c. alters absences transaction (S.Store.means store.now) (pending_of c)) changes.now }
    ensures few { result ≤ length changes.now }
{
    changes
        .iter()
        .filter(|change| is_altering(store, change, transaction, absences))
        .count()
}

fn enter_absence<S: Store>(store: &mut S, change: &PendingChange, transaction: u32)
    ensures map { Same (S.Store.means store.new) (entered decided (chosen true transaction (pending_of change.now ∷ [])) (S.Store.means store.old)) }
    ensures places { S.Store.places store.new ≡ S.Store.places store.old }
{
    if change.owner == transaction && change.change.is_none() {
        store.remove(&change.row);
    }
}

// The absences, in order of arrival.
fn enter_absences<S: Store>(store: &mut S, changes: &[PendingChange], transaction: u32)
    ensures map { Same (S.Store.means store.new) (entered decided (chosen true transaction (map pending_of changes.now)) (S.Store.means store.old)) }
    ensures places { S.Store.places store.new ≡ S.Store.places store.old }
{
    for change in changes {
        enter_absence(store, change, transaction);
    }
}

fn enter_count<S: Store>(store: &mut S, change: &PendingChange, transaction: u32)
    requires { Room decided (S.Store.means store.old) (chosen false transaction (pending_of change.now ∷ [])) (S.Store.places store.old) }
    ensures map { Same (S.Store.means store.new) (entered decided (chosen false transaction (pending_of change.now ∷ [])) (S.Store.means store.old)) }
    ensures places { S.Store.places store.new ≡ S.Store.places store.old }
{
    if change.owner == transaction {
        if let Some(count) = change.change {
            // there is room
            let _ = store.put(&change.row, count);
        }
    }
}

// The counts, in order of arrival.
fn enter_counts<S: Store>(store: &mut S, changes: &[PendingChange], transaction: u32)
    requires { Room decided (S.Store.means store.old) (chosen false transaction (map pending_of changes.now)) (S.Store.places store.old) }
    ensures map { Same (S.Store.means store.new) (entered decided (chosen false transaction (map pending_of changes.now)) (S.Store.means store.old)) }
    ensures places { S.Store.places store.new ≡ S.Store.places store.old }
{
    for change in changes {
        enter_count(store, change, transaction);
    }
}

// The changes enter the store, absences first; refused exactly when they need more places.
pub fn enter_changes<S: Store>(
    store: &mut S,
    changes: &[PendingChange],
    transaction: u32,
) -> Result<(), StoreFault>
    requires keys { KeysOnce (map pending_of changes.now) }
    requires few { length changes.now ≤ 128 }
    ensures { Entered S.Store.means S.Store.places transaction changes.now store.old store.new result }
{
    let size = store.size();
    let added = count_altering(store, changes, transaction, false);
    let removed = count_altering(store, changes, transaction, true);
    if size.rows + added > size.places + removed {
        return Err(StoreFault::Full);
    }
    enter_absences(store, changes, transaction);
    enter_counts(store, changes, transaction);
    Ok(())
}
