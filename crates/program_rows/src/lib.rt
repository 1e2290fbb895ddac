//! The row of a program's reducers, and emitted pairs put into its states.
//!
//! [`row_of`] makes the row of a legal program: a tower for each reducer, in the order of their first `@reduce` lines. What a
//! loop emits are pairs of a name and an input; [`add_pairs`] folds them into the states of the row, each into the tower of its
//! name.
#![tactic(auto)]

pub mod laws;
mod pairs;
mod row;

pub use pairs::{add_pairs, drop_pairs};
pub use row::row_of;
