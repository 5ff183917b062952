// Maps from rows to counts: theory only. The function asks for the theorems on sizes.
#![tactic(auto)]

ghost use Rattle.maps.specs.Sizes.{OneSize, SizeMoves};

pub fn sizes_stand<R>() -> u8
    ensures one { OneSize R }
    ensures moves { SizeMoves R }
{
    0
}
