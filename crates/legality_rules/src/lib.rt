//! Which loops are legal: the ten rules, and the first offence of a loop that breaks one.
//!
//! The definitions stand in specs/: `Scopes` and `Towers` say which kinds names and inputs have, `Lines` what each line binds,
//! reads, assigns, reduces into and prints, `Paths` all paths of a body run, `Rules` the ten rules, `Offences` legal programs
//! and the first offence. What follows from them stands in [`laws`]. The crate `legality_check` checks programs.
#![tactic(auto)]

pub mod laws;
mod refusal;
mod scope;

pub use refusal::{LegalRefusal, Offence};
pub use scope::{Known, Site, Sort};
