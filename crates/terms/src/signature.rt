// How many arguments each symbol has.
ghost use Rattle.std.specs.Prelude.{◌≡◌, length, slice_index};

// The arities of the symbols 0 to 31; symbol 0 has none, so that a term can always be ended.
#[derive(Clone, Copy)]
pub struct Signature {
    pub(crate) arities: [u8; 32],
    ghost long: { length arities ≡ 32 },
    ghost nought: { slice_index arities 0 ≡ 0 },
}
