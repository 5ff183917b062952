// What the entries of the manager's rolls mean, and what is worked out from them.
#![tactic(auto)]

pub mod changes;
pub mod clash;
pub mod entering;
pub mod entry;
pub mod figures;
pub mod fitting;
