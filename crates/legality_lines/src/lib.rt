//! Checks the lines of a program against all rules of legal loops but that of carried scratches, which the crate
//! `legality_scratches` checks.
//!
//! The walk goes from line to line, told what those before bind and reduce into, and ends at the first line that breaks a rule.
//! The rules are defined in the crate `legality_rules`.
#![tactic(auto)]

mod head;
mod lines;
mod reduce;
mod state;
mod walk;

pub use walk::check_lines;
