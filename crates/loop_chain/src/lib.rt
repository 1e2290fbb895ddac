//! The stages to which a program is lowered, and the lines that explain them.
//!
//! [`stages_of`] makes the stages of a program by the definition `lowered` of loop_stages. [`explain_lines`] writes how a loop is
//! folded: how many items there are, its stages and its reducers.
#![tactic(auto)]

mod bodies;
mod explain;
mod holding;
mod statements;

pub use bodies::stages_of;
pub use explain::{explain_lines, joined};
