// Reading a saved file.
use crate::failure::Failure;
use image::open::open;
use kinds::bank::ALL_KINDS;
use std::fs;
use std::io::ErrorKind;
use telling::follow::holdings;
use telling::model::ARITIES;

pub fn read_file(rt: &HostRuntime, file: &str) -> Result<Vec<u8>, Failure> {
    fs::read(rt, file).map_err(|error| match error.kind() {
        ErrorKind::NotFound => Failure::Missing,
        _ => Failure::Unreadable(error),
    })
}

// The rows of an image with their counts, and how many places are free.
fn list_image(rt: &HostRuntime, image: &mut [u8]) -> Result<(), Failure> {
    let store = open(&ALL_KINDS, &ARITIES, image)?.into_store();
    Ok(holdings(rt, &store)?)
}

// Checks a file and lists it; nothing is written.
pub fn list_rows(rt: &HostRuntime, file: &str) -> Result<(), Failure> {
    let mut bytes = read_file(rt, file)?;
    list_image(rt, bytes.as_mut_slice())
}
