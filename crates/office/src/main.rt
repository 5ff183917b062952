// A city office loads two consultants' counts by hour, class and turn into a table in memory: one counted a junction on weekday mornings, the other
// heavy vehicles at two junctions.
#![tactic(auto)]

mod story;

use kinds::bank::ALL_KINDS;
use story::Sheets;
use telling::follow::perform;
use telling::script::Script;

// The studio's `main` has the same shape and another story, kind and table; what the two share is `perform`.
fn main(rt: HostRuntime) -> anyhow::Result<()> {
    let sheets = Sheets::new();
    let mut script = Script::new(rt.alloc());
    story::write(&mut script, &sheets)?;
    perform(
        &rt,
        ALL_KINDS,
        &mut [None; 12],
        "Counts at junctions 12 and 14. Class 2 are cars, class 4 heavy goods vehicles, class 5 buses.",
        &script,
    )
}
