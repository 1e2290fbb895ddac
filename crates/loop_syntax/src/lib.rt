//! Reads and writes loop files: a text is read as exactly the program that it spells, or refused with its first refusal; a
//! program is written as its canonical text, which spells it.
//!
//! What a text spells is defined in the crate `loop_grammar`: specs/LineForms, specs/Nesting and specs/Texts; what is written
//! in `loop_layout`, specs/Canonical, and `loop_writer`, specs/Programs.
#![tactic(auto)]

pub mod laws;
mod program;
mod read;
mod write;

pub use laws::{never_both, never_neither, one_program, one_refusal};
pub use loop_grammar::SyntaxRefusal;
pub use program::Program;
pub use read::{LOOP_FILE_LIMIT, read_program};
pub use write::write_program;
