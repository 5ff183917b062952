// Arrays of the rolls' sizes.
ghost use Rattle.manager.specs.Book.{Sizes};

use crate::model::ARITIES;
use kinds::number::Number;
use ledger::entry::{PendingChange, Reservation, Right, Transaction};
use manager::memory::Memory;
use terms::cell::Cell;
use terms::pattern::Pattern;
use terms::row::Row;
use terms::signature::Signature;

// What a manager is lent as its memory.
// Owns the arrays that `Memory` is lent: the manager has no memory of its own, and this one needs no heap.
#[derive(Clone, Copy)]
pub struct Rolls {
    transactions: [Transaction; 16],
    reservations: [Reservation; 64],
    changes: [PendingChange; 128],
}

impl Rolls {
    // No entry is read before a call has written it, so what they hold is nobody's: the symbol 0, which is always a term.
    pub fn new() -> Option<Rolls> {
        let nought = [Cell {
            letter: b'S',
            number: 0,
        }];
        let signature = Signature::new(ARITIES).ok()?;
        let pattern = Pattern::read(&signature, &Number, &nought, &[]).ok()?;
        let row = Row::new(&nought)?;
        let transaction = Transaction {
            number: 0,
            planner: 0,
        };
        let reservation = Reservation {
            number: 0,
            owner: 0,
            right: Right::Read,
            pattern,
        };
        let change = PendingChange {
            owner: 0,
            row,
            change: None,
        };
        Some(Rolls {
            transactions: [transaction; 16],
            reservations: [reservation; 64],
            changes: [change; 128],
        })
    }

    // Lent as the memory of a manager.
    pub fn memory(&mut self) -> Memory<'_>
        ensures { Sizes result }
    {
        let Rolls {
            transactions,
            reservations,
            changes,
        } = self;
        Memory {
            transactions,
            reservations,
            changes,
        }
    }
}
