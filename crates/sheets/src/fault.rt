// Why a sheet has no answer.
ghost use Rattle.std.specs.Prelude.{◌≡◌};
ghost use Rattle.sheets.specs.declared.fault.SheetFault.TheVariants.{Manager, NoMemory};

use manager::fault::ManagerFault;
use std::alloc::AllocError;

#[derive(Clone, Copy, PartialEq, Eq, Debug)]
pub enum SheetFault {
    // there is no memory left
    NoMemory,
    // the manager itself is refused: the memory of its rolls, or its signature
    Manager(ManagerFault),
}

impl From<AllocError> for SheetFault {
    ghost from_gives = { λ _ r. r ≡ NoMemory };

    fn from(_fault: AllocError) -> SheetFault {
        SheetFault::NoMemory
    }
}

impl From<ManagerFault> for SheetFault {
    ghost from_gives = { λ f r. r ≡ Manager f };

    fn from(fault: ManagerFault) -> SheetFault {
        SheetFault::Manager(fault)
    }
}
