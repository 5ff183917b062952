// Vehicle classes, of which a condition names some by the bits of a mask.
ghost use Rattle.std.specs.Prelude.{◌≡◌};
ghost use Rattle.kinds.specs.Sets.{class, class_known};
ghost use Rattle.std.proofs.Common.{rules};

use crate::codes::{Letter, Single, Top};
use crate::condition::Condition;
use crate::kind::Kind;
use crate::single;

#[derive(Clone, Copy, Debug)]
pub struct Class;

impl Single<b'C', 23> for Class {
    const LETTER: Letter<b'C'> = Letter { byte: b'C' };

    const TOP: Top<23> = Top { code: 23 };
}

impl Class {
    fn knows(condition: Condition) -> bool
        ensures { result ≡ class_known condition }
    {
        condition.form == b'M' && condition.a <= 16_777_215 && condition.b == 0
    }
}

impl Kind for Class {
    ghost means = { λ _. class };

    ghost sound = { Prim.search rules };

    fn top(&self, letter: u8) -> Option<u32> {
        single::top_of::<_, _, Class>(letter)
    }

    fn letter(&self, condition: Condition) -> Option<u8> {
        single::letter_where::<_, _, Class>(Class::knows(condition))
    }

    fn next(&self, condition: Condition, v: u32) -> Option<u32> {
        if !Class::knows(condition) || v > Class::TOP.code {
            return None;
        }
        // the next class is as far on as the mask shifted down to v has zeros at its end
        let rest = condition.a >> v;
        (rest != 0).then_some(v + rest.trailing_zeros())
    }
}
