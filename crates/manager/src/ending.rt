// Begin, and the two ends of a transaction.
ghost use Rattle.std.specs.Prelude.{◌≡◌, ◌<◌, [], ◌∷◌, count_by, nat_eq};
ghost use Rattle.rolls.specs.Rolls.{Has};
ghost use Rattle.manager.specs.Book.{Fixed, Sizes, Well, book_of};
ghost use Rattle.manager.specs.Checks.{Answers};
ghost use Rattle.ledger.specs.Entering.{Entered};
ghost use Rattle.manager.specs.Ending.{Abandoned, Begun, Committed, abandon_checks, begin_checks, commit_checks, ended, sizes};

use crate::check::check_sizes;
use crate::fault::ManagerFault;
use crate::memory::Memory;
use crate::state::Manager;
use kinds::kind::Kind;
use ledger::entering::enter_changes;
use ledger::entry::Transaction;
use stores::fault::StoreFault;
use stores::store::Store;

impl<K: Kind> Manager<K> {
    // Opens the next transaction.
    pub fn begin(&mut self, memory: &mut Memory, planner: u32) -> Result<u32, ManagerFault>
        requires { Well K.Kind.means self.old memory.old }
        ensures answers { Answers (begin_checks memory.old (book_of self.old memory.old) planner) (Begun planner (book_of self.old memory.old) (book_of self.new memory.new)) (λ _. book_of self.new memory.new ≡ book_of self.old memory.old) result }
        ensures well { Well K.Kind.means self.new memory.new }
        ensures fixed { Fixed self.old self.new }
        ensures sizes { Sizes memory.old → Sizes memory.new }
    {
        check_sizes(memory)?;
        if planner < 1 || planner > 16 {
            return Err(ManagerFault::Planner);
        }
        if self.transactions.len() >= 16 {
            return Err(ManagerFault::TransactionsFull);
        }
        if self.last_transaction >= 999_999 {
            return Err(ManagerFault::NumbersSpent);
        }
        let number = self.last_transaction + 1;
        // there is a place for it
        let _ = self
            .transactions
            .push(memory.transactions, Transaction { number, planner });
        self.last_transaction = number;
        Ok(number)
    }

    // How many refusals 30 there were.
    pub fn tally(&self, memory: &Memory) -> Result<u32, ManagerFault>
        ensures { Answers (sizes memory.now ∷ []) (λ n. n ≡ self.now.tally) (λ _. Unit {0}) result }
    {
        check_sizes(memory)?;
        Ok(self.tally)
    }

    fn count_changes(&self, memory: &Memory, transaction: u32) -> u32
        requires { Sizes memory.now }
        ensures { result ≡ count_by (λ c. nat_eq c.owner transaction) (book_of self.now memory.now).changes }
    {
        self.changes.count(memory.changes, transaction) as u32
    }

    // All entries of the transaction leave.
    fn end(&mut self, memory: &mut Memory, transaction: u32)
        requires { Sizes memory.old }
        ensures book { book_of self.new memory.new ≡ ended transaction self.old.last_commit (book_of self.old memory.old) }
        ensures fewer { Has (λ e. e.number) transaction (book_of self.old memory.old).transactions → self.new.transactions.len < self.old.transactions.len }
        ensures fixed { Fixed self.old self.new }
        ensures sizes { Sizes memory.old → Sizes memory.new }
    {
        self.transactions.remove(memory.transactions, transaction);
        self.reservations.remove(memory.reservations, transaction);
        self.changes.remove(memory.changes, transaction);
    }

    // All entries of the transaction leave; how many changes it had.
    pub fn abandon(&mut self, memory: &mut Memory, transaction: u32) -> Result<u32, ManagerFault>
        requires { Well K.Kind.means self.old memory.old }
        ensures answers { Answers (abandon_checks memory.old (book_of self.old memory.old) transaction) (Abandoned transaction (book_of self.old memory.old) (book_of self.new memory.new)) (λ _. book_of self.new memory.new ≡ book_of self.old memory.old) result }
        ensures well { Well K.Kind.means self.new memory.new }
        ensures fixed { Fixed self.old self.new }
        ensures sizes { Sizes memory.old → Sizes memory.new }
    {
        check_sizes(memory)?;
        self.check_open(memory, transaction)?;
        let number = self.count_changes(memory, transaction);
        self.end(memory, transaction);
        Ok(number)
    }

    fn enter_own<S: Store>(
        &self,
        memory: &Memory,
        store: &mut S,
        transaction: u32,
    ) -> Result<(), StoreFault>
        requires sizes { Sizes memory.now }
        requires well { Well K.Kind.means self.now memory.now }
        ensures { Entered S.Store.means S.Store.places transaction (book_of self.now memory.now).changes store.old store.new result }
    {
        enter_changes(store, self.changes.entries(memory.changes), transaction)
    }

    // The changes of the transaction enter the store, and all its entries leave; the next commit number.
    pub fn commit<S: Store>(
        &mut self,
        memory: &mut Memory,
        store: &mut S,
        transaction: u32,
    ) -> Result<u32, ManagerFault>
        requires { Well K.Kind.means self.old memory.old }
        ensures answers { Answers (commit_checks memory.old (book_of self.old memory.old) (S.Store.means store.old) (S.Store.places store.old) transaction) (Committed transaction (book_of self.old memory.old) (book_of self.new memory.new) (S.Store.means store.old) (S.Store.means store.new)) (λ _. (book_of self.new memory.new ≡ book_of self.old memory.old) × (store.new ≡ store.old)) result }
        ensures places { S.Store.places store.new ≡ S.Store.places store.old }
        ensures well { Well K.Kind.means self.new memory.new }
        ensures fixed { Fixed self.old self.new }
        ensures sizes { Sizes memory.old → Sizes memory.new }
    {
        check_sizes(memory)?;
        self.check_open(memory, transaction)?;
        self.enter_own(memory, store, transaction)?;
        self.end(memory, transaction);
        self.last_commit += 1;
        Ok(self.last_commit)
    }
}
