// A store in an image of lines.
#![tactic(auto)]

mod decode;
mod encode;
pub mod fault;
mod fields;
pub mod image;
mod lines;
mod marred;
pub mod memory;
pub mod open;
mod scan;
