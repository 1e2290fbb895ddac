//! Tests of the folds in parts: the worked rows, what the logs hold, stops and faults at every place against the fold on one
//! thread, and that two threads run parts.
#![tactic(auto)]

pub mod before;
#[cfg(test)]
mod gates;
#[cfg(test)]
mod rows;
#[cfg(test)]
mod stops;
