//! Reducers that are chosen at run time.
//!
//! A [`Tower`] is made from a kind of tower and folds values. Its state stands for a list of inputs where it says of them what
//! the kind's reducers say; so it prints as the result of that list. A [`Row`] is a list of named towers with start values.
#![tactic(auto)]

mod display;
mod inputs;
pub mod laws;
mod leaves;
mod named;
mod nested;
mod row;
mod state;
mod tower;

pub use named::Named;
pub use row::{Emitted, Row, RowState, RowStop};
pub use state::TowerState;
pub use tower::Tower;
