// Reservations that another transaction's request collides with.
ghost use Rattle.std.specs.Prelude.{◌≡◌, MatchBool, MatchOption};
ghost use Rattle.maps.specs.Maps.{In};
ghost use Rattle.terms.specs.Fitting.{described};
ghost use Rattle.terms.specs.Proper.{ProperPattern};
ghost use Rattle.unification.specs.Sheets.{Blank};
ghost use Rattle.serial.specs.Rights.{Right.reading, Right.writing};
ghost use Rattle.ledger.specs.declared.entry.Reservation.{Reservation};
ghost use Rattle.ledger.specs.Words.{right_of};
ghost use Rattle.ledger.specs.Clashes.{Clashing, FirstClash, Shown, request};

use crate::entry::{Reservation, Right};
use compare::overlap::overlap;
use compare::sample::Sample;
use kinds::kind::Kind;
use terms::cell::Cell;
use terms::pattern::Pattern;
use terms::signature::Signature;

// The place of a reservation in its roll, and a row that fits it and the request.
#[derive(Clone, Copy)]
pub struct Clash {
    pub index: usize,
    pub sample: Sample,
}

impl Right {
    pub fn writes(self) -> bool
        ensures { MatchBool result (right_of self ≡ writing) (right_of self ≡ reading) }
    {
        self == Right::Write
    }
}

// Kind and signature, and the sheet, are passed apart here and below: a struct of the first two makes each clause longer, since what it refers to is
// named with a moment; and a struct over the lent sheet, blank by its type, hides from a caller that it is its own sheet that is blank.
// A row that fits the reservation and the request, if they collide. The patterns were read, so they are proper.
fn clash_with<K: Kind>(
    kind: &K,
    signature: &Signature,
    held: &Reservation,
    transaction: u32,
    right: Right,
    pattern: &Pattern,
    sheet: &mut [Cell; 16],
) -> Option<Sample>
    requires held { ProperPattern signature.now.arities (K.Kind.means kind.now) (described held.now.pattern) }
    requires pattern { ProperPattern signature.now.arities (K.Kind.means kind.now) (described pattern.now) }
    requires blank { Blank sheet.old }
    ensures answer { MatchOption result (Clashing signature.now.arities (K.Kind.means kind.now) (request transaction (right_of right) (described pattern.now)) held.now → ⊥) (λ s. Clashing signature.now.arities (K.Kind.means kind.now) (request transaction (right_of right) (described pattern.now)) held.now × Shown signature.now.arities (K.Kind.means kind.now) (described held.now.pattern) (described pattern.now) s) }
    ensures blank { Blank sheet.new }
{
    if held.owner == transaction {
        return None;
    }
    if !held.right.writes() && !right.writes() {
        return None;
    }
    let common = overlap(kind, signature, &held.pattern, pattern, sheet)?;
    Some(common.sample)
}

// The first reservation that the request collides with.
pub fn first_clash<K: Kind>(
    kind: &K,
    signature: &Signature,
    reservations: &[Reservation],
    transaction: u32,
    right: Right,
    pattern: &Pattern,
    sheet: &mut [Cell; 16],
) -> Option<Clash>
    requires held { (r : Reservation) → In r reservations.now → ProperPattern signature.now.arities (K.Kind.means kind.now) (described r.pattern) }
    requires pattern { ProperPattern signature.now.arities (K.Kind.means kind.now) (described pattern.now) }
    requires blank { Blank sheet.old }
    ensures answer { MatchOption result ((h : Reservation) → In h reservations.now → ¬ Clashing signature.now.arities (K.Kind.means kind.now) (request transaction (right_of right) (described pattern.now)) h) (FirstClash signature.now.arities (K.Kind.means kind.now) (request transaction (right_of right) (described pattern.now)) reservations.now) }
    ensures blank { Blank sheet.new }
{
    // a loop with the index, which the first that collides is named by; and its closure would change the sheet
    for (index, held) in reservations.iter().enumerate() {
        if let Some(sample) = clash_with(
            kind,
            signature,
            held,
            transaction,
            right,
            pattern,
            sheet,
        ) {
            return Some(Clash { index, sample });
        }
    }
    None
}
