// What the manager refuses.
ghost use Rattle.std.specs.Prelude.{◌≡◌};
ghost use Rattle.manager.specs.Faults.{manager_refusal};
ghost use Rattle.manager.specs.declared.fault.ManagerFault.TheVariants.{Pattern as OfPattern, Right as OfRight, Store as OfStore};

use ledger::entry::UnknownRight;
use refusals::{Fault, Layer, Refusal};
use stores::fault::StoreFault;
use terms::fault::PatternFault;

#[derive(Clone, Copy, PartialEq, Eq, Debug)]
pub enum ManagerFault {
    // the fault of the signature, the pattern or the row, whole
    Pattern(PatternFault),
    // the fault of the store, or of the rolls' memory, whole
    Store(StoreFault),
    // the planner is not 1 to 16
    Planner,
    // 16 transactions are open
    TransactionsFull,
    // the last number was 999,999
    NumbersSpent,
    // the transaction is not open
    NotOpen,
    // the right is not R or W
    Right,
    // there are 64 reservations
    ReservationsFull,
    // no reservation of its own fits the row
    NoneFits,
    // the reservation is not its own
    NotOwn,
    // the count is above 999,999
    Count,
    // no reservation of its own for writing fits the row
    NoneWrites,
    // there are 128 changes, and none for this row and transaction
    ChangesFull,
    // another transaction holds a reservation that overlaps
    Conflict { transaction: u32, reservation: u32 },
}

impl From<PatternFault> for ManagerFault {
    ghost from_gives = { λ f r. r ≡ OfPattern f };

    fn from(fault: PatternFault) -> ManagerFault {
        ManagerFault::Pattern(fault)
    }
}

impl From<UnknownRight> for ManagerFault {
    ghost from_gives = { λ _ r. r ≡ OfRight };

    fn from(_unknown: UnknownRight) -> ManagerFault {
        ManagerFault::Right
    }
}

impl From<StoreFault> for ManagerFault {
    ghost from_gives = { λ f r. r ≡ OfStore f };

    fn from(fault: StoreFault) -> ManagerFault {
        ManagerFault::Store(fault)
    }
}

impl Fault for ManagerFault {
    ghost refuses = { manager_refusal };

    fn refusal(&self) -> Refusal {
        let number = match self {
            ManagerFault::Pattern(fault) => return fault.refusal(),
            ManagerFault::Store(fault) => return fault.refusal(),
            ManagerFault::Planner => 10,
            ManagerFault::TransactionsFull => 11,
            ManagerFault::NumbersSpent => 12,
            ManagerFault::NotOpen => 13,
            ManagerFault::Right => 14,
            ManagerFault::ReservationsFull => 24,
            ManagerFault::NoneFits => 25,
            ManagerFault::NotOwn => 26,
            ManagerFault::Count => 27,
            ManagerFault::NoneWrites => 28,
            ManagerFault::ChangesFull => 29,
            ManagerFault::Conflict { .. } => 30,
        };
        Refusal {
            number,
            layer: Layer::Manager,
            place: None,
            field: None,
        }
    }
}
