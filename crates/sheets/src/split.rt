// The lines of a sheet.
ghost use Rattle.std.specs.Prelude.{◌≡◌, ◌==◌, map, position, IfOk};
ghost use Rattle.sheets.specs.Lines.{LinesOf};

use std::alloc::{AllocError, Global};

// The lines that end in a newline, and what follows the last of them.
#[derive(Drop)]
pub struct Lines<'a> {
    pub ended: Vec<&'a [u8]>,
    pub rest: &'a [u8],
}

// Where the first newline stands.
fn newline_in(input: &[u8]) -> Option<usize>
    ensures { result ≡ position (λ b. b == 10) input.now }
{
    input.iter().position(|b| *b == b'\n')
}

pub fn split_lines<'a>(heap: Global, input: &'a [u8]) -> Result<Lines<'a>, AllocError>
    ensures { IfOk result (λ l. LinesOf input.now (map (λ x. x.now) l.ended.items) l.rest.now) }
{
    let mut ended = Vec::new(heap);
    let mut rest = input;
    // not `split`: what follows the last newline is no line, and is told apart
    while let Some(end) = newline_in(rest) {
        ended.push(&rest[..end])?;
        rest = &rest[end + 1..];
    }
    Ok(Lines { ended, rest })
}
