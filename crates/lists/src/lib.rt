// Lists of a bounded length, in memory of their own: nothing is allocated, and they are copied as arrays are.
#![tactic(auto)]

mod list;
pub mod up_to;
