// Whole numbers from 0 to 999,999,999.
ghost use Rattle.std.specs.Prelude.{◌≡◌};
ghost use Rattle.kinds.specs.Sets.{number, number_known};
ghost use Rattle.std.proofs.Common.{rules};

use crate::codes::{Letter, Single, Top};
use crate::condition::Condition;
use crate::kind::Kind;
use crate::single;

#[derive(Clone, Copy, Debug)]
pub struct Number;

impl Single<b'N', 999_999_999> for Number {
    const LETTER: Letter<b'N'> = Letter { byte: b'N' };

    const TOP: Top<999_999_999> = Top { code: 999_999_999 };
}

impl Number {
    fn knows(condition: Condition) -> bool
        ensures { result ≡ number_known condition }
    {
        condition.a <= Number::TOP.code
            && condition.b <= Number::TOP.code
            && (condition.form == b'B' || condition.form == b'X' && condition.b == 0)
    }
}

impl Kind for Number {
    ghost means = { λ _. number };

    ghost sound = { Prim.search rules };

    fn top(&self, letter: u8) -> Option<u32> {
        single::top_of::<_, _, Number>(letter)
    }

    // as the hour's: one call of what the two share
    fn letter(&self, condition: Condition) -> Option<u8> {
        single::letter_where::<_, _, Number>(Number::knows(condition))
    }

    fn next(&self, condition: Condition, v: u32) -> Option<u32> {
        if !Number::knows(condition) {
            return None;
        }
        if condition.form == b'B' {
            let low = v.max(condition.a);
            (low <= condition.b).then_some(low)
        } else {
            let low = if v == condition.a { v + 1 } else { v };
            (low <= Number::TOP.code).then_some(low)
        }
    }
}
