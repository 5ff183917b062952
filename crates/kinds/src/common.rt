// The smallest value that meets several conditions.
ghost use Rattle.std.specs.Prelude.{◌≡◌, ◌∷◌};
ghost use Rattle.kinds.specs.Smallest.{Smallest};
ghost use Rattle.kinds.specs.Common.{Holds, OneLetter, Passed, SmallestValue};

use crate::condition::Condition;
use crate::kind::Kind;

// A value: its letter and its code.
#[derive(Clone, Copy, PartialEq, Eq, Debug)]
pub struct Value {
    pub letter: u8,
    pub code: u32,
}

// Takes v up to the next code of each condition in turn.
fn pass<K: Kind>(kind: &K, conditions: &[Condition], v: u32) -> Option<u32>
    ensures { Passed (K.Kind.means kind.now) conditions.now v result }
{
    conditions
        .iter()
        .try_fold(v, |low, condition| kind.next(*condition, low))
}

// The smallest code from v on that is in the first condition's set and in each of the others.
fn smallest_code<K: Kind>(kind: &K, first: Condition, rest: &[Condition]) -> Option<u32>
    ensures { Smallest (Holds (K.Kind.means kind.now) (first ∷ rest.now)) 0 result }
{
    // a loop and no chain: it ends only because v rises and has a top
    let mut v = 0;
    'rise: loop {
        let start = kind.next(first, v)?;
        let low = pass(kind, rest, start)?;
        if low == v {
            return Some(v);
        }
        v = low;
    }
}

// The letter that the first condition and each of the others belong to.
fn one_letter<K: Kind>(kind: &K, first: Condition, rest: &[Condition]) -> Option<u8>
    ensures { OneLetter (K.Kind.means kind.now) (first ∷ rest.now) result }
{
    let letter = kind.letter(first)?;
    rest.iter()
        .all(|condition| kind.letter(*condition) == Some(letter))
        .then_some(letter)
}

// The smallest value that meets the first condition and each of the others; none exactly when no value does.
pub fn smallest_value<K: Kind>(kind: &K, first: Condition, rest: &[Condition]) -> Option<Value>
    ensures { SmallestValue (K.Kind.means kind.now) (first ∷ rest.now) result }
{
    let letter = one_letter(kind, first, rest)?;
    let code = smallest_code(kind, first, rest)?;
    Some(Value { letter, code })
}
