//! The canonical text of a program: which tokens each line has, with which spaces, and how lines make a text.
//!
//! The definitions stand in specs/: `Layout` has tokens with the spaces before them, `Rows` lines with their numbers,
//! `Canonical` what is written of a program.
#![tactic(auto)]

mod laws;

pub use laws::{
    canonical_spaces, canonical_tokens, laid_out, laid_out_lines, laid_out_utf8, readable_tokens,
    rows_are_lines,
};
