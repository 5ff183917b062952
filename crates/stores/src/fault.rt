// What stores refuse.
ghost use Rattle.stores.specs.Faults.{store_refusal};

use refusals::{Fault, Layer, Refusal};

#[derive(Clone, Copy, PartialEq, Eq, Debug)]
pub enum StoreFault {
    // a put or a commit needs more places
    Full,
    // not 1 to 4,096 places long
    Length,
    // no proper line begins with the fields of this line up to this one, the first being 1
    Line { line: usize, field: usize },
    // this line has the row of an earlier one
    Again { line: usize },
}

impl Fault for StoreFault {
    ghost refuses = { store_refusal };

    fn refusal(&self) -> Refusal {
        let (number, place, field) = match self {
            StoreFault::Full => (31, None, None),
            StoreFault::Length => (40, None, None),
            StoreFault::Line { line, field } => (41, Some(*line), Some(*field)),
            StoreFault::Again { line } => (42, Some(*line), None),
        };
        Refusal {
            number,
            layer: Layer::Store,
            place,
            field,
        }
    }
}
