//! The canonical text of a program is written, and spells that program.
//!
//! Each function of the writer puts the tokens of one thing behind what was written before: no list of tokens is made, and
//! no text of the program is copied but into the text that is written.
#![tactic(auto)]

mod exprs;
mod heads;
mod laws;
mod lines;
mod marks;
mod program;
mod rows;
mod towers;

pub use laws::written_is_spelled;
pub use program::write_tree;
