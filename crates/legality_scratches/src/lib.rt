//! Checks a program against the rule of carried scratches: no line reads a scratch that some path of a body run reaches before
//! the scratch is assigned.
//!
//! The rule is defined in the crate `legality_rules`.
#![tactic(auto)]

mod scratches;

pub use scratches::check_scratches;
