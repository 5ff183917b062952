// Two kinds as one; each part may itself be a bank.
ghost use Rattle.std.specs.Prelude.{◌≡◌};
ghost use Rattle.kinds.specs.Banks.{both};
ghost use Rattle.kinds.specs.Smallest.{Smallest};
ghost use Rattle.kinds.specs.Together.{together};
ghost use Rattle.kinds.specs.Banked.{both_sound};

use crate::class::Class;
use crate::condition::Condition;
use crate::hour::Hour;
use crate::kind::Kind;
use crate::number::Number;

#[derive(Clone, Copy, Debug)]
pub struct Bank<P, Q> {
    pub first: P,
    pub second: Q,
}

impl<P: Kind, Q: Kind> Kind for Bank<P, Q> {
    ghost means = { λ s. both (P.Kind.means s.first) (Q.Kind.means s.second) };

    ghost sound = { λ s. both_sound (P.Kind.means s.first) (Q.Kind.means s.second) (P.Kind.sound s.first) (Q.Kind.sound s.second) };

    fn top(&self, letter: u8) -> Option<u32> {
        self.first.top(letter).or_else(|| self.second.top(letter))
    }

    fn letter(&self, condition: Condition) -> Option<u8> {
        self.first.letter(condition).or_else(|| {
            let letter = self.second.letter(condition)?;
            self.first.top(letter).is_none().then_some(letter)
        })
    }

    fn next(&self, condition: Condition, v: u32) -> Option<u32> {
        if self.first.letter(condition).is_some() {
            return self.first.next(condition, v);
        }
        self.letter(condition)?;
        self.second.next(condition, v)
    }
}

// Numbers, hours and classes together.
pub type AllKinds = Bank<Number, Bank<Hour, Class>>;

pub const ALL_KINDS: AllKinds = Bank {
    first: Number,
    second: Bank {
        first: Hour,
        second: Class,
    },
};

// What all kinds answer of a letter and of a condition from v on. Asks that they are numbers, hours and classes, in this order.
pub fn all_kinds_stand(
    letter: u8,
    condition: Condition,
    v: u32,
) -> (Option<u32>, Option<u8>, Option<u32>)
    ensures top { result.0 ≡ together.tops letter }
    ensures letter { result.1 ≡ together.letters condition }
    ensures next { Smallest (together.holds condition) v result.2 }
{
    let top = ALL_KINDS.top(letter);
    let own = ALL_KINDS.letter(condition);
    let next = ALL_KINDS.next(condition, v);
    (top, own, next)
}
