//! Three example jobs: a sum that no item stops, a sum that one item stops or faults, and a loop that is a job only where it
//! carries nothing from item to item.
#![tactic(auto)]

mod carried;
mod sums;
#[cfg(test)]
mod tests;
mod until;

pub use carried::{ApartLoop, PlaceLoop};
pub use sums::{Sum, sum_of_places};
pub use until::SumUntil;
