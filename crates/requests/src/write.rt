// A request written as its line.
ghost use Rattle.std.specs.Prelude.{◌≡◌, ◌++◌, OnOk};
ghost use Rattle.requests.specs.Layout.{asked_of, text};

use crate::push::{push_cells, push_constraints, push_field};
use crate::request::Request;
use std::alloc::AllocError;

// Writes the request's line, without a newline, after what is there.
pub fn write_request(request: &Request, out: &mut Vec<u8>) -> Result<(), AllocError>
    ensures { OnOk result (out.new.items ≡ out.old.items ++ text (asked_of request.now)) }
{
    let line = request.line();
    out.extend_from_slice(&line.word.bytes())?;
    push_field(out, 7, line.first)?;
    push_field(out, 7, line.second)?;
    out.push(line.right)?;
    push_cells(out, line.cells)?;
    push_constraints(out, line.constraints)?;
    Ok(())
}
