//! The parts of a program.

use loop_data::{Binding, HeadLine, Many, PrintLine, Statement};

/// The parts of a program, each with the line on which it stands.
#[derive(Debug, PartialEq, Eq, Drop)]
pub struct ProgramTree {
    /// The line on which `on fault skip` stands, where the program has it.
    pub skip_line: Option<u32>,
    /// The `var` lines.
    pub vars: Many<Binding>,
    /// The `for` line.
    pub head: HeadLine,
    /// The `@init` lines.
    pub scratch: Many<Binding>,
    /// The rest of the loop's body.
    pub body: Many<Statement>,
    /// The `print` lines.
    pub prints: Many<PrintLine>,
}
