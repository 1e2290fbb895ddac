//! Worked values of definitions, as theorems: the contracts of empty functions. There is no test here, so they are proved once.
#![tactic(auto)]

pub mod results;
pub mod trees;
