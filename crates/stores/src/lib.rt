// What a store of rows with counts is, and a table of records that is one.
#![tactic(auto)]

pub mod count;
pub mod entry;
pub mod fault;
pub mod length;
mod places;
pub mod store;
pub mod table;
