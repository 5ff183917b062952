// Reserve.
ghost use Rattle.std.specs.Prelude.{◌≡◌, min, MatchOption};
ghost use Rattle.maps.specs.Maps.{In};
ghost use Rattle.terms.specs.Fitting.{described};
ghost use Rattle.terms.specs.Proper.{ProperPattern};
ghost use Rattle.unification.specs.Sheets.{Blank};
ghost use Rattle.ledger.specs.declared.entry.Reservation.{Reservation};
ghost use Rattle.ledger.specs.Words.{right_of};
ghost use Rattle.manager.specs.Book.{Fixed, Sizes, Well, book_of};
ghost use Rattle.manager.specs.Checks.{Answers};
ghost use Rattle.ledger.specs.Clashes.{Clashing, FirstClash, request};
ghost use Rattle.manager.specs.Reserving.{Conflicted, Reserved, by_conflict, reserve_checks};

use crate::check::check_sizes;
use crate::fault::ManagerFault;
use crate::memory::Memory;
use crate::state::Manager;
use compare::sample::Sample;
use kinds::kind::Kind;
use ledger::clash::{Clash, first_clash};
use ledger::entry::{Reservation, Right};
use terms::cell::{BLANK, Cell};
use terms::constraint::Constraint;
use terms::pattern::Pattern;

impl<K: Kind> Manager<K> {
    fn own_clash(
        &self,
        memory: &Memory,
        transaction: u32,
        right: Right,
        pattern: &Pattern,
        sheet: &mut [Cell; 16],
    ) -> Option<Clash>
        requires sizes { Sizes memory.now }
        requires well { Well K.Kind.means self.now memory.now }
        requires pattern { ProperPattern self.now.signature.arities (K.Kind.means self.now.kind) (described pattern.now) }
        requires blank { Blank sheet.old }
        ensures answer { MatchOption result ((h : Reservation) → In h (book_of self.now memory.now).reservations → ¬ Clashing self.now.signature.arities (K.Kind.means self.now.kind) (request transaction (right_of right) (described pattern.now)) h) (FirstClash self.now.signature.arities (K.Kind.means self.now.kind) (request transaction (right_of right) (described pattern.now)) (book_of self.now memory.now).reservations) }
        ensures blank { Blank sheet.new }
    {
        first_clash(
            &self.kind,
            &self.signature,
            self.reservations.entries(memory.reservations),
            transaction,
            right,
            pattern,
            sheet,
        )
    }

    // Enters the next reservation, unless another transaction's reservation collides with it: then the tally rises, and
    // the row buffer gets a sample of the rows that fit both.
    pub fn reserve(
        &mut self,
        memory: &mut Memory,
        transaction: u32,
        right: u8,
        cells: &[Cell],
        constraints: &[Constraint],
        sheet: &mut [Cell; 16],
        buffer: &mut Sample,
    ) -> Result<u32, ManagerFault>
        requires { Well K.Kind.means self.old memory.old }
        ensures answers { Answers (reserve_checks self.old.signature.arities (K.Kind.means self.old.kind) memory.old (book_of self.old memory.old) transaction right (record { cells = cells.entry.now; constraints = constraints.now })) (λ n. Reserved transaction right (record { cells = cells.entry.now; constraints = constraints.now }) (book_of self.old memory.old) (book_of self.new memory.new) n × (buffer.new ≡ buffer.old)) (by_conflict (Conflicted self.old.signature.arities (K.Kind.means self.old.kind) (record { cells = cells.entry.now; constraints = constraints.now }) (book_of self.old memory.old) (book_of self.new memory.new) buffer.new) ((book_of self.new memory.new ≡ book_of self.old memory.old) × (buffer.new ≡ buffer.old))) result }
        ensures blank { Blank sheet.new }
        ensures well { Well K.Kind.means self.new memory.new }
        ensures fixed { Fixed self.old self.new }
        ensures sizes { Sizes memory.old → Sizes memory.new }
    {
        *sheet = [BLANK; 16];
        check_sizes(memory)?;
        self.check_open(memory, transaction)?;
        let right = Right::try_from(right)?;
        let pattern = Pattern::read(&self.signature, &self.kind, cells, constraints)?;
        if self.reservations.len() >= 64 {
            return Err(ManagerFault::ReservationsFull);
        }
        if self.last_reservation >= 999_999 {
            return Err(ManagerFault::NumbersSpent);
        }
        if let Some(clash) = self.own_clash(memory, transaction, right, &pattern, sheet) {
            let holder = memory.reservations[clash.index];
            *buffer = clash.sample;
            self.tally = (self.tally + 1).min(999_999_999);
            return Err(ManagerFault::Conflict {
                transaction: holder.owner,
                reservation: holder.number,
            });
        }
        let number = self.last_reservation + 1;
        let entry = Reservation {
            number,
            owner: transaction,
            right,
            pattern,
        };
        // there is a place for it
        let _ = self.reservations.push(memory.reservations, entry);
        self.last_reservation = number;
        Ok(number)
    }
}
