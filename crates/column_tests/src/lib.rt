//! Tests of tables and of the data files that they are read from: what no clause says of them, on files worked by hand.
#![tactic(auto)]

#[cfg(test)]
mod data;
#[cfg(test)]
mod tests;
