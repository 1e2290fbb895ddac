//! The grammar of loop files: what a line says, how lines nest, which text spells which program, and the first refusal of a
//! text that spells none.
//!
//! The definitions stand in specs/: `LineForms` has the forms of lines over the grammar of expressions, `Nesting` the grammar
//! of lines, `Texts` what a whole text is. The crates that read and write loop files are proved against them.
#![tactic(auto)]

pub mod laws;
mod line;
mod refusal;
mod tree;

pub use line::{Heads, Line, NumberedLine};
pub use refusal::SyntaxRefusal;
pub use tree::ProgramTree;
