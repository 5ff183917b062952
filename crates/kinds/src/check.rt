// Whether a bank knows a value or a condition, as a check that names the place.
ghost use Rattle.std.specs.Prelude.{◌≡◌};
ghost use Rattle.refusals.specs.Checks.{Checked};
ghost use Rattle.kinds.specs.Meaning.{Known, Value};
ghost use Rattle.kinds.specs.declared.fault.BankFault.TheVariants.{Value as BadValue, Condition as BadCondition};

use crate::condition::Condition;
use crate::fault::BankFault;
use crate::kind::Kind;

// The letter and the code of the cell at this place.
pub fn check_value<K: Kind>(kind: &K, letter: u8, code: u32, place: usize) -> Result<(), BankFault>
    ensures { Checked (Value (K.Kind.means kind.now) letter code) (BadValue place) result }
{
    kind.admits(letter, code)
        .then_some(())
        .ok_or(BankFault::Value { place })
}

// The condition at this place.
pub fn check_condition<K: Kind>(
    kind: &K,
    condition: Condition,
    place: usize,
) -> Result<(), BankFault>
    ensures { Checked (Known (K.Kind.means kind.now) condition) (BadCondition place) result }
{
    kind.letter(condition)
        .map(|_| ())
        .ok_or(BankFault::Condition { place })
}
