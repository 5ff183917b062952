// What a kind of values is.
ghost use Rattle.std.specs.Prelude.{◌≡◌, Decides};
ghost use Rattle.kinds.specs.Meaning.{Meaning, Sound, Value};
ghost use Rattle.kinds.specs.Smallest.{Smallest};

use crate::condition::Condition;

// Three operations that change nothing and repeat their answers. The letters of symbols and variables, S and V, are
// never value letters.
pub trait Kind {
    ghost means: { Self → Meaning };

    // The top code of a letter.
    fn top(&self, letter: u8) -> Option<u32>
        ensures { result ≡ (means self.now).tops letter };

    // The letter that a condition belongs to.
    fn letter(&self, condition: Condition) -> Option<u8>
        ensures { result ≡ (means self.now).letters condition };

    // The smallest code of a condition's set that is at least v.
    fn next(&self, condition: Condition, v: u32) -> Option<u32>
        ensures { Smallest ((means self.now).holds condition) v result };

    // Whether the letter and the code make a value.
    fn admits(&self, letter: u8, code: u32) -> bool
        ensures { Decides result (Value (means self.now) letter code) }
    {
        self.top(letter).is_some_and(|top| code <= top)
    }

    ghost sound: { (s : Self) → Sound (means s) };
}
