//! The lines of a loop file: what the tokens of a line say, exactly as the grammar has it.
//!
//! A line is read forwards once. A number that is too wide is read all the same, so that a line can first be told from what
//! is no line.
#![tactic(auto)]

mod forms;
mod front;
mod parts;
mod tower;
mod verdict;

pub use forms::one_line;
pub use tower::one_tower;
pub use verdict::{one_saying, one_verdict, read_line};
