// What is refused of signatures, rows and patterns.
ghost use Rattle.std.specs.Prelude.{◌≡◌};
ghost use Rattle.terms.specs.Faults.{pattern_refusal};
ghost use Rattle.terms.specs.declared.fault.PatternFault.TheVariants.{Bank as OfBank};

use kinds::fault::BankFault;
use refusals::{Fault, Layer, Refusal};

#[derive(Clone, Copy, PartialEq, Eq, Debug)]
pub enum PatternFault {
    // the bank's own fault, whole
    Bank(BankFault),
    // the arity of this symbol is above 7, or not 0 for symbol 0
    Arity { symbol: usize },
    // no proper row (or pattern) begins with the cells up to this place, or cells lack there
    Structure { place: usize },
    // this constraint is a ninth one, or on a variable above 7
    Constraint { place: usize },
}

impl From<BankFault> for PatternFault {
    ghost from_gives = { λ f r. r ≡ OfBank f };

    fn from(fault: BankFault) -> PatternFault {
        PatternFault::Bank(fault)
    }
}

impl Fault for PatternFault {
    ghost refuses = { pattern_refusal };

    fn refusal(&self) -> Refusal {
        let (number, place) = match self {
            PatternFault::Bank(fault) => return fault.refusal(),
            PatternFault::Arity { symbol } => (19, *symbol),
            PatternFault::Structure { place } => (21, *place),
            PatternFault::Constraint { place } => (23, *place),
        };
        Refusal {
            number,
            layer: Layer::Pattern,
            place: Some(place),
            field: None,
        }
    }
}
