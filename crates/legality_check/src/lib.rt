//! Checks programs: a legal one is handed on as a [`LegalProgram`], any other is refused with its first offence.
//!
//! Which programs are legal, and what the first offence of another is, is defined in the crate `legality_rules`.
#![tactic(auto)]

pub mod laws;
mod program;
mod tree;

pub use legality_rules::{LegalRefusal, Offence};
pub use program::{LegalProgram, check_program};
