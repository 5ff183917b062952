// Requests on the standard input, run over a saved file.
use crate::checking::read_file;
use crate::failure::Failure;
use crate::saving::save;
use image::open::open;
use kinds::bank::ALL_KINDS;
use sheets::answering::answer_sheet;
use std::io::{Read, Write};
use telling::memory::Rolls;
use telling::model::ARITIES;

// The answers, and in the image exactly the rows that were committed; a damaged image is refused as it is.
fn answers(rt: &HostRuntime, image: &mut [u8], requests: &[u8]) -> Result<Vec<u8>, Failure> {
    let mut rolls = Rolls::new().ok_or(Failure::NoMemory)?;
    let mut store = open(&ALL_KINDS, &ARITIES, image)?.into_store();
    answer_sheet(
        rt.alloc(),
        ALL_KINDS,
        ARITIES,
        &mut rolls.memory(),
        &mut store,
        requests,
    )
    .map_err(|_| Failure::NoMemory)
}

// The file is saved before anything is answered, so that no answer tells of a commit that was lost.
pub fn run_requests(rt: &HostRuntime, file: &str) -> Result<(), Failure> {
    let before = read_file(rt, file)?;
    let mut bytes = before.as_slice().to_vec(rt.alloc())?;
    let mut requests = Vec::new(rt.alloc());
    rt.stdin().take(65_536).read_to_end(&mut requests)?;
    let out = answers(rt, bytes.as_mut_slice(), requests.as_slice())?;
    if bytes.as_slice() != before.as_slice() {
        save(rt, file, bytes.as_slice())?;
    }
    rt.stdout().write_all(out.as_slice())?;
    Ok(())
}
