// Cells, signatures, rows and patterns, and what it means that a row fits a pattern.
#![tactic(auto)]

pub mod cell;
pub mod constraint;
pub mod fault;
pub mod pattern;
pub mod patterns;
pub mod row;
pub mod rows;
pub mod scan;
pub mod shape;
pub mod signature;
pub mod signatures;
