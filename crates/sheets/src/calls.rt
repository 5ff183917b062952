// The calls that a sheet asks for.
ghost use Rattle.std.specs.Prelude.{◌≡◌, map, IfOk};
ghost use Rattle.std.specs.Option.{option_map};
ghost use Rattle.runs.specs.Calls.{asked_by};
ghost use Rattle.runs.specs.Runs.{present};
ghost use Rattle.requests.specs.Layout.{asked_of};

use requests::request::Request;
use runs::call::Call;
use std::alloc::{AllocError, Global};

// The call that a request asks for, over the request's own cells. No `From`, since both are types of other crates.
pub fn call_of<'a>(request: &'a Request) -> Call<'a>
    ensures { asked_by result ≡ asked_of request.now }
{
    match request {
        Request::Begin { planner } => Call::Begin { planner: *planner },
        Request::Reserve {
            transaction,
            right,
            cells,
            constraints,
        } => Call::Reserve {
            transaction: *transaction,
            right: *right,
            cells: cells.as_slice(),
            constraints: constraints.as_slice(),
        },
        Request::Look { transaction, cells } => Call::Look {
            transaction: *transaction,
            cells: cells.as_slice(),
        },
        Request::Survey {
            transaction,
            reservation,
        } => Call::Survey {
            transaction: *transaction,
            reservation: *reservation,
        },
        Request::Write {
            transaction,
            cells,
            count,
        } => Call::Write {
            transaction: *transaction,
            cells: cells.as_slice(),
            count: *count,
        },
        Request::Strike { transaction, cells } => Call::Strike {
            transaction: *transaction,
            cells: cells.as_slice(),
        },
        Request::Commit { transaction } => Call::Commit {
            transaction: *transaction,
        },
        Request::Abandon { transaction } => Call::Abandon {
            transaction: *transaction,
        },
        Request::Tally => Call::Tally,
    }
}

// The calls of the lines that are laid out, in order.
pub fn calls_of<'a>(heap: Global, lines: &'a [Option<Request>]) -> Result<Vec<Call<'a>>, AllocError>
    ensures { IfOk result (λ v. map asked_by v.items ≡ present (map (option_map asked_of) lines.now)) }
{
    // a loop, since a call borrows its cells: what it asks is known, and not which value it is, as a chain would have to say
    let mut calls = Vec::new(heap);
    for line in lines {
        if let Some(request) = line {
            calls.push(call_of(request))?;
        }
    }
    Ok(calls)
}
