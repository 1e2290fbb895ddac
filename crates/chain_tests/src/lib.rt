//! Tests of wrappers and chains, through their public calls alone, and pipelines that a user would build by hand.
#![tactic(auto)]

#[cfg(test)]
mod chains;
#[cfg(test)]
mod own;
pub mod pipelines;
#[cfg(test)]
mod rows;
#[cfg(test)]
mod stages;
pub mod worked;
