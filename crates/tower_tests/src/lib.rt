//! Tests of towers and rows, through their public calls alone: what no clause says, as that ample memory is enough, and results
//! that were worked out outside.
#![tactic(auto)]

#[cfg(test)]
mod tests;
