// A file is saved whole: written beside and then put in its place.
use crate::blank::{Lines, blank_image};
use crate::failure::Failure;
use std::fs::File;
use std::io::Write;
use std::{fs, io};

// Writes all bytes, and returns once they are on the disk.
fn write_through(mut file: File, bytes: &[u8]) -> io::Result<()> {
    file.write_all(bytes)?;
    file.sync_all()
}

// Writes the bytes beside the file and puts them in its place.
fn replace(rt: &HostRuntime, file: &str, beside: &str, bytes: &[u8]) -> io::Result<()> {
    let made = File::create(rt, beside)?;
    let done = write_through(made, bytes).and_then(|()| fs::rename(rt, beside, file));
    // only what was made here is taken away again
    if done.is_err() {
        let _ = fs::remove_file(rt, beside);
    }
    done
}

// The bytes take the file's place at once, or it stays as it was.
pub fn save(rt: &HostRuntime, file: &str, bytes: &[u8]) -> Result<(), Failure> {
    let beside = format!(in rt.alloc(); "{file}.new")?;
    replace(rt, file, beside.as_str(), bytes).map_err(Failure::Unsaved)
}

// A new file of blank lines; one that stands already is left alone.
pub fn make_blank(rt: &HostRuntime, file: &str, lines: Lines) -> Result<(), Failure> {
    if fs::exists(rt, file).map_err(Failure::Unreadable)? {
        return Err(Failure::Exists);
    }
    let image = blank_image(rt.alloc(), lines)?;
    save(rt, file, image.as_slice())?;
    let count = lines.count();
    println!(rt; "{file} is made, with {count} free places")?;
    Ok(())
}
