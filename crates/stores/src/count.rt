// A count.
ghost use Rattle.std.specs.Prelude.{◌≡◌, ◌<◌, ◌≤◌, MatchOption};

// At most 999,999.
#[derive(Clone, Copy)]
pub struct Count {
    pub value: u32,
    ghost few: { value ≤ 999999 },
}

impl Count {
    // Absent above 999,999.
    pub fn new(value: u32) -> Option<Count>
        ensures { MatchOption result (999999 < value) (λ c. c.value ≡ value) }
    {
        if value > 999_999 {
            return None;
        }
        Some(Count { value })
    }
}
