//! The nesting of a loop file's lines: the tree of the program, or the first line that breaks the nesting.
//!
//! The lines are read once, from the first to the last, and moved into the tree. What has been read is always a front that can
//! be gone on with to a program; the first line that takes that away is the one refused.
#![tactic(auto)]

mod laws;
mod open;
mod read;
mod stack;

pub use laws::{never_both, never_neither, one_program, one_refusal};
pub use read::nest;
