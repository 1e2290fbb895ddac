//! Tests of the top call that no case can make: with gates of a caller's own, which tell which leaves were run and by how many
//! threads at once.
//!
//! They stand here, above the crates that they test, so that a change in a test proves none of those again.
#![tactic(auto)]

#[cfg(test)]
mod calls;
#[cfg(test)]
mod places;
#[cfg(test)]
mod threads;
