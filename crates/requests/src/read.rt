// A request read from its line.
ghost use Rattle.std.specs.Option.{option_map};
ghost use Rattle.std.specs.Prelude.{IfOk, Decides};
ghost use Rattle.requests.specs.Layout.{Reads, Shows, asked_of};

use crate::laid::is_laid;
use crate::lines::alike;
use crate::loose::guess_request;
use crate::request::Request;
use crate::write::write_request;
use std::alloc::{AllocError, Global};

// Whether a line shows a request: there is room for it, and written it is this line.
fn shows(heap: Global, line: &[u8], request: &Request) -> Result<bool, AllocError>
    ensures { IfOk result (λ b. Decides b (Shows line.now (asked_of request.now))) }
{
    if !is_laid(request) {
        return Ok(false);
    }
    let mut again = Vec::new(heap);
    write_request(request, &mut again)?;
    Ok(alike(line, &again))
}

// The request that a line shows, given without its newline; absent where the line is not laid out.
pub fn read_request(heap: Global, line: &[u8]) -> Result<Option<Request>, AllocError>
    ensures { IfOk result (λ o. Reads line.now (option_map asked_of o)) }
{
    let request = guess_request(heap, line)?;
    Ok(shows(heap, line, &request)?.then_some(request))
}
