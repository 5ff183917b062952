// A transaction's change for a row.
ghost use Rattle.std.specs.Prelude.{◌≡◌, map, MatchOption};
ghost use Rattle.std.specs.Option.{option_map};
ghost use Rattle.maps.specs.Maps.{In};
ghost use Rattle.terms.specs.Fitting.{cells_of};
ghost use Rattle.terms.specs.Rows.{decided};
ghost use Rattle.serial.specs.Machine.{pending_for};
ghost use Rattle.ledger.specs.declared.entry.PendingChange.{PendingChange};
ghost use Rattle.ledger.specs.Words.{change_of, pending_of};
ghost use Rattle.ledger.specs.Covering.{FirstFor, For};

use crate::entry::PendingChange;
use stores::count::Count;
use terms::row::Row;

// Where the transaction's change for the row stands.
pub fn place_of(changes: &[PendingChange], transaction: u32, row: &Row) -> Option<usize>
    ensures { MatchOption result ((c : PendingChange) → In c changes.now → ¬ For transaction (cells_of row.now) c) (FirstFor transaction (cells_of row.now) changes.now) }
{
    changes
        .iter()
        .position(|change| change.owner == transaction && change.row == *row)
}

// The transaction's change for the row, if it has one.
pub fn change_for(changes: &[PendingChange], transaction: u32, row: &Row) -> Option<Option<Count>>
    ensures { option_map change_of result ≡ pending_for decided transaction (cells_of row.now) (map pending_of changes.now) }
{
    let place = place_of(changes, transaction, row)?;
    Some(changes[place].change)
}
