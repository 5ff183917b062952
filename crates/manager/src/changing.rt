// Look, write and strike.
ghost use Rattle.std.specs.Prelude.{◌≡◌, [], ◌∷◌, MatchBool, MatchOption};
ghost use Rattle.std.specs.Option.{option_map};
ghost use Rattle.maps.specs.Maps.{In};
ghost use Rattle.terms.specs.Fitting.{cells_of};
ghost use Rattle.terms.specs.Proper.{RowCells};
ghost use Rattle.stores.specs.Means.{count_of};
ghost use Rattle.unification.specs.Sheets.{Blank};
ghost use Rattle.serial.specs.Rights.{Change.struck, Change.written};
ghost use Rattle.ledger.specs.declared.entry.PendingChange.{PendingChange};
ghost use Rattle.ledger.specs.Covering.{Covered, FirstFor, For};
ghost use Rattle.ledger.specs.Words.{change_of};
ghost use Rattle.manager.specs.Book.{Fixed, Sizes, Well, book_of};
ghost use Rattle.manager.specs.Checks.{Answers, unless};
ghost use Rattle.manager.specs.declared.fault.ManagerFault.TheVariants.{ChangesFull};
ghost use Rattle.manager.specs.Ending.{own_map};
ghost use Rattle.manager.specs.Looking.{Changed, HasPlace, enter_rules, look_checks, row_checks, strike_checks, write_checks};

use crate::check::check_sizes;
use crate::fault::ManagerFault;
use crate::memory::Memory;
use crate::state::Manager;
use kinds::kind::Kind;
use ledger::changes::{change_for, place_of};
use ledger::entry::PendingChange;
use ledger::fitting::covered;
use stores::count::Count;
use stores::store::Store;
use terms::cell::{BLANK, Cell};
use terms::row::Row;
use terms::signature::Signature;

impl<K: Kind> Manager<K> {
    // The row that a caller writes, where the memory has its sizes and the transaction is open.
    fn read_row(
        &self,
        memory: &Memory,
        transaction: u32,
        cells: &[Cell],
    ) -> Result<Row, ManagerFault>
        ensures { Answers (row_checks self.now.signature.arities (K.Kind.means self.now.kind) memory.now (book_of self.now memory.now) transaction cells.now) (λ r. cells_of r ≡ cells.now) (λ _. Unit {0}) result }
    {
        check_sizes(memory)?;
        self.check_open(memory, transaction)?;
        let row = Row::read(&self.signature, &self.kind, cells)?;
        Ok(row)
    }

    fn is_covered(
        &self,
        memory: &Memory,
        transaction: u32,
        row: &Row,
        changing: bool,
        sheet: &mut [Cell; 16],
    ) -> bool
        requires sizes { Sizes memory.now }
        requires well { Well K.Kind.means self.now memory.now }
        requires row { RowCells self.now.signature.arities (K.Kind.means self.now.kind) (cells_of row.now) }
        requires blank { Blank sheet.old }
        ensures answer { MatchBool result (Covered self.now.signature.arities (K.Kind.means self.now.kind) transaction (cells_of row.now) changing (book_of self.now memory.now).reservations) (Covered self.now.signature.arities (K.Kind.means self.now.kind) transaction (cells_of row.now) changing (book_of self.now memory.now).reservations → ⊥) }
        ensures blank { Blank sheet.new }
    {
        covered(
            &self.kind,
            &self.signature,
            self.reservations.entries(memory.reservations),
            transaction,
            row,
            changing,
            sheet,
        )
    }

    fn seen<S: Store>(
        &self,
        memory: &Memory,
        store: &S,
        transaction: u32,
        row: &Row,
    ) -> Option<Count>
        requires { Sizes memory.now }
        ensures { option_map count_of result ≡ own_map transaction (book_of self.now memory.now) (S.Store.means store.now) (cells_of row.now) }
    {
        // the own change's Option is passed on as it is, as the project asks
        match change_for(self.changes.entries(memory.changes), transaction, row) {
            Some(change) => change,
            None => store.find(row),
        }
    }

    // The count of a row, or absent: from the transaction's own change if there is one, else from the store.
    pub fn look<S: Store>(
        &self,
        memory: &Memory,
        store: &S,
        transaction: u32,
        cells: &[Cell],
        sheet: &mut [Cell; 16],
    ) -> Result<Option<Count>, ManagerFault>
        requires { Well K.Kind.means self.now memory.now }
        ensures answers { Answers (look_checks self.now.signature.arities (K.Kind.means self.now.kind) memory.now (book_of self.now memory.now) transaction cells.now) (λ v. option_map count_of v ≡ own_map transaction (book_of self.now memory.now) (S.Store.means store.now) cells.now) (λ _. Unit {0}) result }
        ensures blank { Blank sheet.new }
    {
        *sheet = [BLANK; 16];
        let row = self.read_row(memory, transaction, cells)?;
        if !self.is_covered(memory, transaction, &row, false, sheet) {
            return Err(ManagerFault::NoneFits);
        }
        Ok(self.seen(memory, store, transaction, &row))
    }

    fn own_place(&self, memory: &Memory, transaction: u32, row: &Row) -> Option<usize>
        requires { Sizes memory.now }
        ensures { MatchOption result ((c : PendingChange) → In c (book_of self.now memory.now).changes → ¬ For transaction (cells_of row.now) c) (FirstFor transaction (cells_of row.now) (book_of self.now memory.now).changes) }
    {
        place_of(self.changes.entries(memory.changes), transaction, row)
    }

    // The transaction's change for the row becomes this one, unless the roll has no place for it.
    fn set_change(
        &mut self,
        memory: &mut Memory,
        transaction: u32,
        row: &Row,
        change: Option<Count>,
    ) -> Result<(), ManagerFault>
        requires { Sizes memory.old }
        ensures answers { Answers (unless ChangesFull (HasPlace transaction (cells_of row.now) (book_of self.old memory.old)) ∷ []) (λ _. Changed transaction (cells_of row.now) (change_of change) (book_of self.old memory.old) (book_of self.new memory.new)) (λ _. book_of self.new memory.new ≡ book_of self.old memory.old) result }
        ensures fixed { Fixed self.old self.new }
        ensures sizes { Sizes memory.old → Sizes memory.new }
    {
        let entry = PendingChange {
            owner: transaction,
            row: *row,
            change,
        };
        match self.own_place(memory, transaction, row) {
            Some(place) => {
                memory.changes[place] = entry;
                Ok(())
            }
            // not `map_err`: its closure's answer is known by a relation alone, and the proof would say both arms again
            None => match self.changes.push(memory.changes, entry) {
                Ok(()) => Ok(()),
                Err(_) => Err(ManagerFault::ChangesFull),
            },
        }
    }

    // Enters a change for a row that a reservation of the transaction's own for writing covers.
    fn enter(
        &mut self,
        memory: &mut Memory,
        transaction: u32,
        row: &Row,
        change: Option<Count>,
        sheet: &mut [Cell; 16],
    ) -> Result<(), ManagerFault>
        requires sizes { Sizes memory.old }
        requires well { Well K.Kind.means self.old memory.old }
        requires row { RowCells self.old.signature.arities (K.Kind.means self.old.kind) (cells_of row.now) }
        requires blank { Blank sheet.old }
        ensures answers { Answers (enter_rules self.old.signature.arities (K.Kind.means self.old.kind) (book_of self.old memory.old) transaction (cells_of row.now)) (λ _. Changed transaction (cells_of row.now) (change_of change) (book_of self.old memory.old) (book_of self.new memory.new)) (λ _. book_of self.new memory.new ≡ book_of self.old memory.old) result }
        ensures blank { Blank sheet.new }
        ensures well { Well K.Kind.means self.new memory.new }
        ensures fixed { Fixed self.old self.new }
        ensures sizes { Sizes memory.old → Sizes memory.new }
    {
        if !self.is_covered(memory, transaction, row, true, sheet) {
            return Err(ManagerFault::NoneWrites);
        }
        self.set_change(memory, transaction, row, change)
    }

    // The transaction's change for the row becomes the count.
    pub fn write(
        &mut self,
        memory: &mut Memory,
        transaction: u32,
        cells: &[Cell],
        count: u32,
        sheet: &mut [Cell; 16],
    ) -> Result<(), ManagerFault>
        requires { Well K.Kind.means self.old memory.old }
        ensures answers { Answers (write_checks self.old.signature.arities (K.Kind.means self.old.kind) memory.old (book_of self.old memory.old) transaction cells.now count) (λ _. Changed transaction cells.now (written count) (book_of self.old memory.old) (book_of self.new memory.new)) (λ _. book_of self.new memory.new ≡ book_of self.old memory.old) result }
        ensures blank { Blank sheet.new }
        ensures well { Well K.Kind.means self.new memory.new }
        ensures fixed { Fixed self.old self.new }
        ensures sizes { Sizes memory.old → Sizes memory.new }
    {
        *sheet = [BLANK; 16];
        let row = self.read_row(memory, transaction, cells)?;
        let count = Count::new(count).ok_or(ManagerFault::Count)?;
        self.enter(memory, transaction, &row, Some(count), sheet)
    }

    // The transaction's change for the row becomes absent, even if no row is there.
    pub fn strike(
        &mut self,
        memory: &mut Memory,
        transaction: u32,
        cells: &[Cell],
        sheet: &mut [Cell; 16],
    ) -> Result<(), ManagerFault>
        requires { Well K.Kind.means self.old memory.old }
        ensures answers { Answers (strike_checks self.old.signature.arities (K.Kind.means self.old.kind) memory.old (book_of self.old memory.old) transaction cells.now) (λ _. Changed transaction cells.now struck (book_of self.old memory.old) (book_of self.new memory.new)) (λ _. book_of self.new memory.new ≡ book_of self.old memory.old) result }
        ensures blank { Blank sheet.new }
        ensures well { Well K.Kind.means self.new memory.new }
        ensures fixed { Fixed self.old self.new }
        ensures sizes { Sizes memory.old → Sizes memory.new }
    {
        *sheet = [BLANK; 16];
        let row = self.read_row(memory, transaction, cells)?;
        self.enter(memory, transaction, &row, None, sheet)
    }
}
