//! Tests of values, names, kinds and inputs through library calls that no loop reaches, or whose answer no loop shows.
//!
//! A tree is read from a text by the program's own reader where a test needs more than a small one: a function that holds
//! trees has a path on which they are dropped for each `?`, and the prover walks each.
#![tactic(auto)]

#[cfg(test)]
mod asked;
#[cfg(test)]
mod copies;
#[cfg(test)]
mod data;
#[cfg(test)]
mod inputs;
#[cfg(test)]
mod kinds;
#[cfg(test)]
mod names;
