//! What the answer of a stretch of a loop's items stands for, where a loop is folded in parts: the run of the plain loop over these
//! items, from the start.
//!
//! [`LoopState`] is what is gathered from the items of a part. The definitions stand in specs/Standing; what they need to be the
//! laws of a fold's job stands in [`laws`].
#![tactic(auto)]

pub mod laws;
mod state;

pub use state::LoopState;
