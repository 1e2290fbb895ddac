//! How tightly an expression holds together.

/// A level of the grammar, the loosest first.
#[derive(Clone, Copy, Debug, PartialEq, Eq)]
pub enum Level {
    Expr,
    Or,
    And,
    Not,
    Compare,
    Join,
    Add,
    Multiply,
    Negate,
    Atom,
}
