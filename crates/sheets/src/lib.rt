// A whole sheet of requests, answered.
#![tactic(auto)]

pub mod answering;
pub mod calls;
pub mod fault;
pub mod reading;
pub mod running;
pub mod split;
pub mod told;
pub mod writing;
