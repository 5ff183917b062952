// Corrections in a saved file: opens its image, enters a new count, replaces one and drops one, and shows the image before and after.
// A damaged image is refused with its line and field.
#![tactic(auto)]

use image::fault::OpeningFault;
use image::open::open;
use kinds::bank::ALL_KINDS;
use refusals::{Fault, Refusal};
use std::{fs, io};
use stores::count::Count;
use stores::entry::Size;
use stores::store::Store;
use telling::day::Day;
use telling::model::{ARITIES, count_row};
use terms::cell::Cell;
use terms::row::Row;

// A count at junction 12 on a Monday: the hour, the vehicle class, and the turn from one arm to another.
fn count_at(of_day: u8, class: u32, from: u32, to: u32) -> [Cell; 7] {
    count_row(12, Day::Monday.at(of_day), class, from, to)
}

// The lines of an image, each with its number.
fn show(rt: &HostRuntime, bytes: &[u8]) -> io::Result<()> {
    for (k, line) in bytes.chunks_exact(128).enumerate() {
        let text = std::str::from_utf8(line).map_or("(not text)", |text| text.trim_end());
        println!(rt; "  line {k}: {text}")?;
    }
    Ok(())
}

fn put<S: Store>(rt: &HostRuntime, store: &mut S, cells: &[Cell], count: u32) -> io::Result<()> {
    let Some(key) = Row::new(cells) else {
        return println!(rt; "this is no row");
    };
    let Some(count) = Count::new(count) else {
        return println!(rt; "this is no count");
    };
    let value = count.value;
    match store.find(&key) {
        Some(Count { value: old, .. }) => println!(rt; "the count {old} becomes {value}")?,
        None => println!(rt; "a new row gets the count {value}")?,
    }
    if let Err(fault) = store.put(&key, count) {
        let number = fault.refusal().number;
        println!(rt; "  refused with {number}: every place is taken")?;
    }
    Ok(())
}

fn drop_row<S: Store>(rt: &HostRuntime, store: &mut S, cells: &[Cell]) -> io::Result<()> {
    let Some(key) = Row::new(cells) else {
        return println!(rt; "this is no row");
    };
    if store.remove(&key) {
        println!(rt; "a row is dropped")
    } else {
        println!(rt; "there was no such row to drop")
    }
}

fn correct<S: Store>(rt: &HostRuntime, store: &mut S) -> io::Result<()> {
    put(rt, store, &count_at(7, 0, 3, 1), 95)?;
    put(rt, store, &count_at(8, 3, 1, 3), 351)?;
    drop_row(rt, store, &count_at(7, 3, 1, 3))?;
    drop_row(rt, store, &count_at(7, 3, 1, 3))?;
    for (of_day, count) in [(9, 88), (10, 61), (11, 57)] {
        put(rt, store, &count_at(of_day, 0, 3, 1), count)?;
    }
    let Size { places, rows } = store.size();
    println!(rt; "{rows} of {places} places are taken")
}

fn refuse(rt: &HostRuntime, fault: OpeningFault) -> io::Result<()> {
    let Refusal {
        number,
        place,
        field,
        ..
    } = fault.refusal();
    print!(rt; "  refused with {number}")?;
    if let Some(line) = place {
        print!(rt; ", line {line}")?;
    }
    if let Some(field) = field {
        print!(rt; ", field {field}")?;
    }
    println!(rt; "")
}

// Opens the image in memory and corrects it there.
fn follow(rt: &HostRuntime, path: &str) -> anyhow::Result<()> {
    println!(rt; "{path}")?;
    let mut bytes = fs::read(rt, path)?;
    show(rt, bytes.as_slice())?;
    match open(&ALL_KINDS, &ARITIES, bytes.as_mut_slice()) {
        Ok(lines) => correct(rt, &mut lines.into_store())?,
        Err(fault) => return Ok(refuse(rt, fault)?),
    }
    println!(rt; "and now")?;
    Ok(show(rt, bytes.as_slice())?)
}

fn run(rt: &HostRuntime) -> anyhow::Result<()> {
    follow(rt, "base.txt")?;
    follow(rt, "damaged.txt")?;
    follow(rt, "twice.txt")
}

fn main(rt: HostRuntime) -> anyhow::Result<()> {
    run(&rt)
}
