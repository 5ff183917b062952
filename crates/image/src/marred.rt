// What is wrong with a line.
ghost use Rattle.std.specs.Prelude.{◌≡◌, Some};
ghost use Rattle.terms.specs.Faults.{pattern_refusal};

use kinds::fault::BankFault;
use terms::fault::PatternFault;

// No proper line begins with its fields up to this one, the first being 0.
#[derive(Clone, Copy, PartialEq, Eq, Debug)]
pub(crate) struct Marred {
    pub(crate) field: usize,
}

// The cell that a fault names.
impl From<PatternFault> for Marred {
    ghost from_gives = { λ f r. (pattern_refusal f).place ≡ Some r.field };

    fn from(fault: PatternFault) -> Marred {
        let field = match fault {
            PatternFault::Bank(BankFault::Value { place } | BankFault::Condition { place }) =>
                place,
            PatternFault::Arity { symbol } => symbol,
            PatternFault::Structure { place } | PatternFault::Constraint { place } => place,
        };
        Marred { field }
    }
}
