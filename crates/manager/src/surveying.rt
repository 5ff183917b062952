// Survey.
ghost use Rattle.maps.specs.Maps.{Figures};
ghost use Rattle.terms.specs.Fitting.{Fits, described};
ghost use Rattle.terms.specs.Proper.{ProperPattern};
ghost use Rattle.unification.specs.Sheets.{Blank};
ghost use Rattle.ledger.specs.Counting.{Owns};
ghost use Rattle.manager.specs.Book.{Sizes, Well, book_of};
ghost use Rattle.manager.specs.Checks.{Answers};
ghost use Rattle.manager.specs.Ending.{own_map};
ghost use Rattle.manager.specs.Surveying.{Surveyed, survey_checks};

use crate::check::check_sizes;
use crate::fault::ManagerFault;
use crate::memory::Memory;
use crate::state::Manager;
use kinds::kind::Kind;
use ledger::figures::{pattern_of, survey_changes, survey_store};
use stores::store::Store;
use terms::cell::{BLANK, Cell};
use terms::pattern::Pattern;

impl<K: Kind> Manager<K> {
    fn own_pattern(&self, memory: &Memory, transaction: u32, number: u32) -> Option<Pattern>
        requires { Sizes memory.now }
        ensures { Owns transaction number (book_of self.now memory.now).reservations result }
    {
        pattern_of(
            self.reservations.entries(memory.reservations),
            transaction,
            number,
        )
    }

    // The figures of all rows that fit, as the transaction sees them.
    fn figures<S: Store>(
        &self,
        memory: &Memory,
        store: &S,
        transaction: u32,
        pattern: &Pattern,
        sheet: &mut [Cell; 16],
    ) -> (u32, u64)
        requires sizes { Sizes memory.now }
        requires well { Well K.Kind.means self.now memory.now }
        requires pattern { ProperPattern self.now.signature.arities (K.Kind.means self.now.kind) (described pattern.now) }
        requires blank { Blank sheet.old }
        ensures figures { Figures (λ q. Fits self.now.signature.arities (K.Kind.means self.now.kind) q (described pattern.now)) (own_map transaction (book_of self.now memory.now) (S.Store.means store.now)) result.0 result.1 }
        ensures blank { Blank sheet.new }
    {
        let changes = self.changes.entries(memory.changes);
        let stored = survey_store(
            &self.kind,
            &self.signature,
            store,
            changes,
            transaction,
            pattern,
            sheet,
        );
        let changed = survey_changes(
            &self.kind,
            &self.signature,
            changes,
            transaction,
            pattern,
            sheet,
        );
        (stored.0 + changed.0, stored.1 + changed.1)
    }

    // How many rows fit the reservation, and the total of their counts, the transaction's own changes included.
    pub fn survey<S: Store>(
        &self,
        memory: &Memory,
        store: &S,
        transaction: u32,
        reservation: u32,
        sheet: &mut [Cell; 16],
    ) -> Result<(u32, u64), ManagerFault>
        requires { Well K.Kind.means self.now memory.now }
        ensures answers { Answers (survey_checks memory.now (book_of self.now memory.now) transaction reservation) (Surveyed self.now.signature.arities (K.Kind.means self.now.kind) (book_of self.now memory.now) (S.Store.means store.now) transaction reservation) (λ _. Unit {0}) result }
        ensures blank { Blank sheet.new }
    {
        *sheet = [BLANK; 16];
        check_sizes(memory)?;
        self.check_open(memory, transaction)?;
        let pattern = self
            .own_pattern(memory, transaction, reservation)
            .ok_or(ManagerFault::NotOwn)?;
        Ok(self.figures(memory, store, transaction, &pattern, sheet))
    }
}
