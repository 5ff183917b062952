// The manager of transactions, reservations and changes.
#![tactic(auto)]

pub mod changing;
mod check;
pub mod ending;
pub mod fault;
pub mod host;
pub mod memory;
pub mod new;
pub mod reserving;
pub mod state;
pub mod surveying;
pub mod ticket;
