// Kinds of values: numbers, hours of the week, vehicle classes, and banks of several kinds.
#![tactic(auto)]

pub mod bank;
pub mod check;
pub mod class;
pub mod codes;
pub mod common;
pub mod condition;
pub mod fault;
pub mod hour;
pub mod kind;
pub mod number;
pub mod single;
