// A design studio loads one junction's turning counts for the evening peak. Two consultants counted two arms each, and two planners load
// what they sent into a table in memory; all values are whole numbers.
#![tactic(auto)]

mod story;

use kinds::number::Number;
use story::Sheets;
use telling::follow::perform;
use telling::script::Script;

// The office's `main` has the same shape and another story, kind and table; what the two share is `perform`.
fn main(rt: HostRuntime) -> anyhow::Result<()> {
    let sheets = Sheets::new();
    let mut script = Script::new(rt.alloc());
    story::write(&mut script, &sheets)?;
    perform(
        &rt,
        Number,
        &mut [None; 16],
        "Turning counts at the market cross, Thursday 16:30 to 17:30. Arm 1 is north, 2 east, 3 south, 4 west.",
        &script,
    )
}
