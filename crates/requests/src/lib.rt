// A request as a line of columns, read and written, and the line of an answer.
#![tactic(auto)]

ghost use Rattle.requests.specs.Laws.{OneRequest};

pub mod answer;
mod laid;
mod lines;
mod loose;
mod push;
pub mod read;
pub mod request;
pub mod word;
pub mod write;

// Asks for the theorem that a line shows one request at most.
pub fn requests_stand() -> u8
    ensures { OneRequest }
{
    0
}
