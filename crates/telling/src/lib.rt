// What a planner reads: calls, answers and rows of the model base in sentences.
#![tactic(auto)]

pub mod condition;
pub mod day;
pub mod follow;
pub mod mask;
pub mod memory;
pub mod model;
pub mod moment;
pub mod place;
pub mod plural;
pub mod refusal;
pub mod script;
pub mod sentence;
pub mod term;
