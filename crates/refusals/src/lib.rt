// What every refusal carries, whatever layer it comes from.
#![tactic(auto)]

ghost use Rattle.std.specs.Prelude.{◌≡◌};
ghost use Rattle.refusals.specs.declared.Refusal.{Refusal};

// The layer that refuses.
#[derive(Clone, Copy, PartialEq, Eq, Debug)]
pub enum Layer {
    Bank,
    Pattern,
    Store,
    Sheet,
    Manager,
}

// A refusal of the published table: its number, its layer, and where it lies, if anywhere. Places count from 0.
#[derive(Clone, Copy, PartialEq, Eq, Debug)]
pub struct Refusal {
    pub number: u8,
    pub layer: Layer,
    pub place: Option<usize>,
    // the field of a line of the image, the first being 1
    pub field: Option<usize>,
}

// A layer's own fault, which says what its refusal is.
pub trait Fault {
    ghost refuses: { Self → Refusal };

    fn refusal(&self) -> Refusal
        ensures { result ≡ refuses self.now };
}
