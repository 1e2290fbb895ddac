//! Literals, patterns and the heads of a `for` line: read from tokens exactly as the grammar of lines spells them.
//!
//! A literal and a pattern are read from the front of a line's tokens, the heads up to its end. A number that is too wide is
//! read all the same and reported beside what was read, so that a line can first be told from what is no line.
#![tactic(auto)]

mod axis;
mod heads;
mod literal;
mod pattern;
mod range;
mod tokens;

pub use heads::{one_heads, read_heads};
pub use literal::{one_literal, read_literal};
pub use pattern::{one_pattern, read_pattern};
pub use tokens::{eat, eat_name, eat_word};
