// Whether two patterns overlap: their most general unifier, and a sample of the rows that fit both.
#![tactic(auto)]

pub mod binding;
mod classes;
mod join;
mod lay;
mod order;
pub mod outside;
pub mod overlap;
pub mod sample;
mod sheet;
mod unify;
mod walk;
pub mod worked;
mod write;
