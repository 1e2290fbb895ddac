//! Tests of the fold by stealing: worked rows on turns, every stop and fault of small shapes, two threads at once.
#![tactic(auto)]

#[cfg(test)]
mod gates;
pub mod plays;
#[cfg(test)]
mod rows;
#[cfg(test)]
mod stops;
