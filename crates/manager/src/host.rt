// Begin, commit and abandon for a host, which holds a ticket for each transaction that it began.
ghost use Rattle.std.specs.Prelude.{◌≡◌, false};
ghost use Rattle.manager.specs.Book.{Fixed, Sizes, Well, book_of};
ghost use Rattle.manager.specs.Checks.{Answers};
ghost use Rattle.manager.specs.Ending.{Begun, Committed, begin_checks, commit_checks};
ghost use Rattle.manager.specs.Tickets.{GivenUp, Ticketed};

use crate::fault::ManagerFault;
use crate::memory::Memory;
use crate::state::Manager;
use crate::ticket::Ticket;
use kinds::kind::Kind;
use stores::store::Store;

// Why nothing was given up with a ticket.
pub enum AbandonFault {
    // it is taken, though its transaction is not open here (13)
    NotOpen,
    // it is handed back: the memory of a roll has not its size (40)
    Back(Ticket),
}

// Opens the next transaction.
pub fn begin_ticket<K: Kind>(
    manager: &mut Manager<K>,
    memory: &mut Memory,
    planner: u32,
) -> Result<Ticket, ManagerFault>
    requires { Well K.Kind.means manager.old memory.old }
    ensures answers { Answers (begin_checks memory.old (book_of manager.old memory.old) planner) (λ k. (k.spent ≡ false) × Begun planner (book_of manager.old memory.old) (book_of manager.new memory.new) k.number) (λ _. book_of manager.new memory.new ≡ book_of manager.old memory.old) result }
    ensures well { Well K.Kind.means manager.new memory.new }
    ensures fixed { Fixed manager.old manager.new }
    ensures sizes { Sizes memory.old → Sizes memory.new }
{
    let number = manager.begin(memory, planner)?;
    Ok(Ticket {
        number,
        spent: false,
    })
}

// The changes enter the store, and the ticket is spent; a refused commit hands it back.
pub fn commit_ticket<K: Kind, S: Store>(
    manager: &mut Manager<K>,
    memory: &mut Memory,
    store: &mut S,
    mut ticket: Ticket,
) -> Result<u32, (Ticket, ManagerFault)>
    requires { Well K.Kind.means manager.old memory.old }
    ensures answers { Ticketed (commit_checks memory.old (book_of manager.old memory.old) (S.Store.means store.old) (S.Store.places store.old) ticket.number) (Committed ticket.number (book_of manager.old memory.old) (book_of manager.new memory.new) (S.Store.means store.old) (S.Store.means store.new)) ((book_of manager.new memory.new ≡ book_of manager.old memory.old) × (store.new ≡ store.old)) ticket result }
    ensures well { Well K.Kind.means manager.new memory.new }
    ensures fixed { Fixed manager.old manager.new }
    ensures sizes { Sizes memory.old → Sizes memory.new }
{
    match manager.commit(memory, store, ticket.number) {
        Ok(number) => {
            ticket.spent = true;
            Ok(number)
        }
        Err(fault) => Err((ticket, fault)),
    }
}

// All entries of the transaction leave, and the ticket is spent: how many changes it had. It is handed back only if the
// memory has not its sizes.
pub fn abandon_ticket<K: Kind>(
    manager: &mut Manager<K>,
    memory: &mut Memory,
    mut ticket: Ticket,
) -> Result<u32, AbandonFault>
    requires { Well K.Kind.means manager.old memory.old }
    ensures answers { GivenUp memory.old (book_of manager.old memory.old) (book_of manager.new memory.new) ticket result }
    ensures well { Well K.Kind.means manager.new memory.new }
    ensures fixed { Fixed manager.old manager.new }
    ensures sizes { Sizes memory.old → Sizes memory.new }
{
    match manager.abandon(memory, ticket.number) {
        Ok(number) => {
            ticket.spent = true;
            Ok(number)
        }
        Err(ManagerFault::NotOpen) => {
            ticket.spent = true;
            Err(AbandonFault::NotOpen)
        }
        // no `map_err`: two of the three arms spend the ticket, and the third hands it on
        Err(_) => Err(AbandonFault::Back(ticket)),
    }
}
