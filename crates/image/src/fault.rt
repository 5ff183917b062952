// What an opening refuses.
ghost use Rattle.std.specs.Prelude.{◌≡◌};
ghost use Rattle.image.specs.Faults.{opening_refusal};
ghost use Rattle.image.specs.declared.fault.OpeningFault.TheVariants.{Store as OfStore, Pattern as OfPattern};

use refusals::{Fault, Refusal};
use stores::fault::StoreFault;
use terms::fault::PatternFault;

#[derive(Clone, Copy, PartialEq, Eq, Debug)]
pub enum OpeningFault {
    // the length or a line, whole
    Store(StoreFault),
    // the signature, whole
    Pattern(PatternFault),
}

impl From<StoreFault> for OpeningFault {
    ghost from_gives = { λ f r. r ≡ OfStore f };

    fn from(fault: StoreFault) -> OpeningFault {
        OpeningFault::Store(fault)
    }
}

impl From<PatternFault> for OpeningFault {
    ghost from_gives = { λ f r. r ≡ OfPattern f };

    fn from(fault: PatternFault) -> OpeningFault {
        OpeningFault::Pattern(fault)
    }
}

impl Fault for OpeningFault {
    ghost refuses = { opening_refusal };

    fn refusal(&self) -> Refusal {
        match self {
            OpeningFault::Store(fault) => fault.refusal(),
            OpeningFault::Pattern(fault) => fault.refusal(),
        }
    }
}
