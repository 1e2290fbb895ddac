//! A legal loop carries nothing: what one step of the body leaves behind, no later step reads.
//!
//! The definitions stand in specs/: `Alike` says what a store is and which stores are alike, `Parts` what it is that a loop
//! carries nothing. What holds of legal loops stands in [`laws`].
#![tactic(auto)]

pub mod laws;
