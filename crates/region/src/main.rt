// A region keeps its counts in a saved file. Two planners load what two consultants sent into the file's image: one moves counts that were noted at a wrong
// hour, the other enters U-turns all over the region. At the end come the lines that changed.
#![tactic(auto)]

mod story;

use image::open::open;
use kinds::bank::ALL_KINDS;
use refusals::Fault;
use std::{fs, io};
use story::Sheets;
use telling::follow::{follow, holdings};
use telling::model::ARITIES;
use telling::refusal::RefusalWords;
use telling::script::Script;

const PATH: &str = "region.txt";

// Follows the script in the image.
fn work(rt: &HostRuntime, image: &mut [u8], script: &Script) -> anyhow::Result<()> {
    match open(&ALL_KINDS, &ARITIES, image) {
        Ok(lines) => {
            let mut store = lines.into_store();
            holdings(rt, &store)?;
            follow(rt, ALL_KINDS, &mut store, script)?;
            println!(rt; "")?;
            holdings(rt, &store)?;
            Ok(())
        }
        Err(fault) => {
            let refusal = RefusalWords(fault.refusal());
            println!(rt; "{PATH} is {refusal}.")?;
            Ok(())
        }
    }
}

// A line without its blanks at the end.
fn text(line: &[u8]) -> &str {
    match std::str::from_utf8(line).map(str::trim_end) {
        Ok("") => "free",
        Ok(text) => text,
        Err(_) => "not text",
    }
}

fn show_changes(rt: &HostRuntime, before: &[u8], after: &[u8]) -> io::Result<()> {
    let lines = before.chunks_exact(128).zip(after.chunks_exact(128));
    for (k, (old, new)) in lines.enumerate().filter(|(_, (old, new))| old != new) {
        println!(rt; "  line {k} was {}", text(old))?;
        println!(rt; "  and is now {}", text(new))?;
    }
    Ok(())
}

fn run(rt: &HostRuntime) -> anyhow::Result<()> {
    let sheets = Sheets::new();
    let mut script = Script::new(rt.alloc());
    story::write(&mut script, &sheets)?;
    let before = fs::read(rt, PATH)?;
    let mut image = before.clone()?;
    work(rt, image.as_mut_slice(), &script)?;
    println!(rt; "\nThe lines of {PATH} that changed, counted from 0:")?;
    show_changes(rt, before.as_slice(), image.as_slice())?;
    Ok(())
}

fn main(rt: HostRuntime) -> anyhow::Result<()> {
    run(&rt)
}
