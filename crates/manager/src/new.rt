// A new manager.
ghost use Rattle.std.specs.Prelude.{IfOk};
ghost use Rattle.manager.specs.Book.{Well};
ghost use Rattle.manager.specs.Checks.{Answers};
ghost use Rattle.manager.specs.New.{Made, new_checks};

use crate::check::check_sizes;
use crate::fault::ManagerFault;
use crate::memory::Memory;
use crate::state::Manager;
use kinds::kind::Kind;
use rolls::roll::Roll;
use terms::signature::Signature;

impl<K: Kind + Drop> Manager<K> {
    // A manager with empty rolls, over memory of their sizes.
    pub fn new(kind: K, arities: [u8; 32], memory: &Memory) -> Result<Manager<K>, ManagerFault>
        ensures answers { Answers (new_checks memory.now arities) (Made kind arities memory.now) (λ _. Unit {0}) result }
        ensures well { IfOk result (λ m. Well K.Kind.means m memory.now) }
    {
        check_sizes(memory)?;
        let signature = Signature::new(arities)?;
        Ok(Manager {
            kind,
            signature,
            transactions: Roll::new(),
            reservations: Roll::new(),
            changes: Roll::new(),
            last_transaction: 0,
            last_reservation: 0,
            last_commit: 0,
            tally: 0,
        })
    }
}
