//! Ranges of 64-bit numbers by Julia's rule: how many items `first:step:last` has, and each of them. [`MOST_ITEMS`] is the most
//! that a loop has.
//!
//! The definitions stand in specs/Ranges, and what follows from them in [`laws`]. All crates that count or walk a range
//! stand on this one.
#![tactic(auto)]

pub mod laws;
mod ranges;

pub use ranges::{MOST_ITEMS, range_count, range_item};
