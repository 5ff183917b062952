// What a bank refuses.
ghost use Rattle.std.specs.Prelude.{◌≡◌};
ghost use Rattle.kinds.specs.Faults.{bank_refusal};

use refusals::{Fault, Layer, Refusal};

#[derive(Clone, Copy, PartialEq, Eq, Debug)]
pub enum BankFault {
    // the cell at this place has an unknown value letter, or a code above its top
    Value { place: usize },
    // the condition at this place is of no known form, or its numbers are not such a form's
    Condition { place: usize },
}

impl Fault for BankFault {
    ghost refuses = { bank_refusal };

    fn refusal(&self) -> Refusal {
        let (number, place) = match *self {
            BankFault::Value { place } => (20, place),
            BankFault::Condition { place } => (22, place),
        };
        Refusal {
            number,
            layer: Layer::Bank,
            place: Some(place),
            field: None,
        }
    }
}
