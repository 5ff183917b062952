// What the lines of a sheet ask.
ghost use Rattle.std.specs.Prelude.{map, IfOk};
ghost use Rattle.std.specs.Option.{option_map};
ghost use Rattle.requests.specs.Layout.{asked_of};
ghost use Rattle.sheets.specs.Sheets.{Asks, ReadEach};

use crate::split::split_lines;
use requests::read::read_request;
use requests::request::Request;
use std::alloc::{AllocError, Global};

// The lines that end in a newline.
fn read_ended(heap: Global, ended: &[&[u8]]) -> Result<Vec<Option<Request>>, AllocError>
    ensures { IfOk result (λ v. ReadEach (map (λ x. x.now) ended.now) (map (option_map asked_of) v.items)) }
{
    // a loop, since reading a line allocates
    let mut lines = Vec::new(heap);
    for line in ended {
        lines.push(read_request(heap, line)?)?;
    }
    Ok(lines)
}

// Every line, absent where it is not laid out; a last line without a newline is not.
pub fn read_lines(heap: Global, input: &[u8]) -> Result<Vec<Option<Request>>, AllocError>
    ensures { IfOk result (λ v. Asks input.now (map (option_map asked_of) v.items)) }
{
    let split = split_lines(heap, input)?;
    let mut lines = read_ended(heap, split.ended.as_slice())?;
    if !split.rest.is_empty() {
        lines.push(None)?;
    }
    Ok(lines)
}
