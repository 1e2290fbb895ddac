//! A large table from a number: so many rows of a region and a quantity, made from a seed.
//!
//! [`try_bytes`] writes it as the bytes of a CSV file. Which bytes stands in specs/Tables.
#![tactic(auto)]

mod rows;

pub use rows::{MOST_ROWS, try_bytes};
