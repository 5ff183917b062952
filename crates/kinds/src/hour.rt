// Hours of the week, from Monday 0:00.
ghost use Rattle.std.specs.Prelude.{◌≡◌, ◌/◌, ◌%◌};
ghost use Rattle.kinds.specs.Sets.{hour, hour_known, Bit};
ghost use Rattle.std.proofs.Common.{rules};

use crate::codes::{Letter, Single, Top};
use crate::condition::Condition;
use crate::kind::Kind;
use crate::single;
use crate::single::Tested;

#[derive(Clone, Copy, Debug)]
pub struct Hour;

impl Single<b'H', 167> for Hour {
    const LETTER: Letter<b'H'> = Letter { byte: b'H' };

    const TOP: Top<167> = Top { code: 167 };
}

// The days and the hours of the day, as masks.
#[derive(Clone, Copy)]
struct Masks {
    days: u32,
    hours: u32,
}

impl Tested<167> for Masks {
    ghost passes = { λ m h. Bit m.days (h / 24) × Bit m.hours (h % 24) };

    fn test(&self, code: u32) -> bool {
        single::bit(self.days, code / 24) && single::bit(self.hours, code % 24)
    }
}

impl Hour {
    fn knows(condition: Condition) -> bool
        ensures { result ≡ hour_known condition }
    {
        condition.form == b'W' && condition.a <= 127 && condition.b <= 16_777_215
    }
}

impl Kind for Hour {
    ghost means = { λ _. hour };

    ghost sound = { Prim.search rules };

    fn top(&self, letter: u8) -> Option<u32> {
        single::top_of::<_, _, Hour>(letter)
    }

    // as the number's: one call of what the two share
    fn letter(&self, condition: Condition) -> Option<u8> {
        single::letter_where::<_, _, Hour>(Hour::knows(condition))
    }

    fn next(&self, condition: Condition, v: u32) -> Option<u32> {
        if !Hour::knows(condition) {
            return None;
        }
        let masks = Masks {
            days: condition.a,
            hours: condition.b,
        };
        single::first_from::<_, _, Hour, _>(&masks, v)
    }
}
