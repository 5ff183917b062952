// Rolls of entries that have an owner, in order of arrival, in memory that the caller brings to every call.
#![tactic(auto)]

pub mod entry;
pub mod roll;
