// Rows that a caller or a store names, and the reservations that they fit.
ghost use Rattle.std.specs.Prelude.{◌≡◌, Decides};
ghost use Rattle.maps.specs.Maps.{In};
ghost use Rattle.terms.specs.Fitting.{Fits, cells_of, described};
ghost use Rattle.terms.specs.Proper.{ProperPattern, RowCells};
ghost use Rattle.terms.specs.Rows.{Storable};
ghost use Rattle.unification.specs.Sheets.{Blank};
ghost use Rattle.ledger.specs.declared.entry.Reservation.{Reservation};
ghost use Rattle.ledger.specs.Covering.{Covered, Covers};

use crate::entry::Reservation;
use compare::overlap::fits;
use kinds::kind::Kind;
use terms::cell::Cell;
use terms::pattern::Pattern;
use terms::row::Row;
use terms::signature::Signature;

// Here and below, that a pattern is proper stands in a clause: it depends on the signature and the kind, which are values, so no type says it.
// Whether a row of a store fits the pattern. Cells that are no row fit no pattern.
pub fn fits_key<K: Kind>(
    kind: &K,
    signature: &Signature,
    key: &Row,
    pattern: &Pattern,
    sheet: &mut [Cell; 16],
) -> bool
    requires pattern { ProperPattern signature.now.arities (K.Kind.means kind.now) (described pattern.now) }
    requires blank { Blank sheet.old }
    ensures answer { Decides result (Fits signature.now.arities (K.Kind.means kind.now) (cells_of key.now) (described pattern.now)) }
    ensures blank { Blank sheet.new }
{
    // a `match`, since a closure that changes the sheet says nothing of it afterwards
    match Row::read(signature, kind, key.cells()) {
        Ok(row) => fits(kind, signature, &row, pattern, sheet),
        Err(_) => false,
    }
}

// Whether the reservation is the transaction's own and the row fits it; for a change, it must be for writing.
fn covers<K: Kind>(
    kind: &K,
    signature: &Signature,
    held: &Reservation,
    transaction: u32,
    row: &Row,
    changing: bool,
    sheet: &mut [Cell; 16],
) -> bool
    requires held { ProperPattern signature.now.arities (K.Kind.means kind.now) (described held.now.pattern) }
    requires row { RowCells signature.now.arities (K.Kind.means kind.now) (cells_of row.now) }
    requires blank { Blank sheet.old }
    ensures answer { Decides result (Covers signature.now.arities (K.Kind.means kind.now) transaction (cells_of row.now) changing held.now) }
    ensures blank { Blank sheet.new }
{
    held.owner == transaction
        && (!changing || held.right.writes())
        && fits(kind, signature, row, &held.pattern, sheet)
}

// Whether one of the reservations does.
pub fn covered<K: Kind>(
    kind: &K,
    signature: &Signature,
    reservations: &[Reservation],
    transaction: u32,
    row: &Row,
    changing: bool,
    sheet: &mut [Cell; 16],
) -> bool
    requires held { (r : Reservation) → In r reservations.now → ProperPattern signature.now.arities (K.Kind.means kind.now) (described r.pattern) }
    requires row { RowCells signature.now.arities (K.Kind.means kind.now) (cells_of row.now) }
    requires blank { Blank sheet.old }
    ensures answer { Decides result (Covered signature.now.arities (K.Kind.means kind.now) transaction (cells_of row.now) changing reservations.now) }
    ensures blank { Blank sheet.new }
{
    // not `any`: of a sheet that its closure changes nothing is known afterwards
    for held in reservations {
        if covers(kind, signature, held, transaction, row, changing, sheet) {
            return true;
        }
    }
    false
}
