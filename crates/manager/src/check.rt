// The checks that several calls share.
ghost use Rattle.refusals.specs.Checks.{Checked};
ghost use Rattle.rolls.specs.Rolls.{Has};
ghost use Rattle.stores.specs.declared.fault.StoreFault.TheVariants.{Length};
ghost use Rattle.manager.specs.Book.{Sizes, book_of};
ghost use Rattle.manager.specs.declared.fault.ManagerFault.TheVariants.{NotOpen};

use crate::fault::ManagerFault;
use crate::memory::Memory;
use crate::state::Manager;
use stores::fault::StoreFault;

// Whether each roll's memory has its size.
pub(crate) fn check_sizes(memory: &Memory) -> Result<(), StoreFault>
    ensures { Checked (Sizes memory.now) Length result }
{
    if memory.transactions.len() != 16
        || memory.reservations.len() != 64
        || memory.changes.len() != 128
    {
        return Err(StoreFault::Length);
    }
    Ok(())
}

impl<K> Manager<K> {
    // Whether the transaction is open.
    pub(crate) fn check_open(&self, memory: &Memory, transaction: u32) -> Result<(), ManagerFault>
        requires { Sizes memory.now }
        ensures { Checked (Has (λ e. e.number) transaction (book_of self.now memory.now).transactions) NotOpen result }
    {
        if self.transactions.has(memory.transactions, transaction) {
            Ok(())
        } else {
            Err(ManagerFault::NotOpen)
        }
    }
}
