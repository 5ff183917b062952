// What the kinds of one letter share.
ghost use Rattle.std.specs.Prelude.{◌≡◌, ℕ, ◌^◌, ◌<◌, ◌≤◌, Decides};
ghost use Rattle.kinds.specs.Sets.{only, where_known, Bit};
ghost use Rattle.kinds.specs.Smallest.{Smallest};

use crate::codes::Single;

// The top code of a letter, where it is the kind's letter.
pub fn top_of<const L: u8, const T: u32, S: Single<L, T>>(letter: u8) -> Option<u32>
    ensures { result ≡ only L T letter }
{
    (letter == S::LETTER.byte).then_some(S::TOP.code)
}

// The kind's letter, where the condition is known.
pub fn letter_where<const L: u8, const T: u32, S: Single<L, T>>(known: bool) -> Option<u8>
    ensures { result ≡ where_known known L }
{
    known.then_some(S::LETTER.byte)
}

// A set of codes up to the top T that is tested code by code.
pub trait Tested<const T: u32> {
    ghost passes: { Self → ℕ → Type 0 };

    fn test(&self, code: u32) -> bool
        requires { code ≤ T }
        ensures { Decides result (passes self.now code) };
}

// The first code from v up to the kind's top that passes.
pub fn first_from<const L: u8, const T: u32, S: Single<L, T>, M: Tested<T>>(
    set: &M,
    v: u32,
) -> Option<u32>
    ensures { Smallest (λ c. (c ≤ T) × M.Tested.passes set.now c) v result }
{
    (v..S::TOP.code + 1).find(
        |code|
            requires { code.now ≤ T }
            ensures { Decides result (M.Tested.passes set.entry.now code.entry.now) }
        { set.test(*code) },
    )
}

// Whether bit k of the mask is set, by a shift and a mask; no mask has a bit past 31.
pub fn bit(mask: u32, k: u32) -> bool
    ensures { Decides result (Bit mask k) }
{
    k < 32 && (mask >> k) & 1 == 1
}
