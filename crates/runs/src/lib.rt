// Lists of calls over a new manager, with the serial order on the contract of the run.
#![tactic(auto)]

pub mod call;
pub mod run;
