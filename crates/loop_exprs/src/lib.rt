//! Expressions: read from tokens exactly as the grammar spells them.
//!
//! An expression is read from the front of a line's tokens. A number that is too wide is read all the same and
//! reported beside the expression, so that a line can first be told from what is no line.
#![tactic(auto)]

mod front;
mod leaves;
mod level;
mod operations;
mod read;

pub use level::Level;
pub use read::{ReadError, one_reading, read_front};
