// Worked cases, as a theorem on the definitions.
ghost use Rattle.compare.specs.Worked.{WorkedCases};

pub fn worked_cases() -> u8
    ensures { WorkedCases }
{
    0
}
