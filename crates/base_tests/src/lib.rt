//! Tests of the crates at the bottom, through their public calls alone: what no clause says, as that ample memory is enough,
//! and values that were worked out outside.
//!
//! They stand here, above the crates that they test, so that a change in a test proves none of those again.
#![tactic(auto)]

#[cfg(test)]
mod edge;
#[cfg(test)]
mod shapes;
#[cfg(test)]
mod tables;
#[cfg(test)]
mod words;
