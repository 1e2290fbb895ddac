//! A program as far as its lines have been read.

use crate::stack::Stack;
use loop_data::{Binding, Branch, Expr, Many, Statement};
use loop_grammar::{Heads, ProgramTree};

/// How far the lines have been read.
#[derive(Drop)]
pub enum Stage {
    /// No line.
    Start,
    /// The line `on fault skip` or `var` lines or both, and nothing else.
    Vars(Preface),
    /// A place within the loop.
    Loop(OpenLoop),
    /// Past the loop, where only `print` lines may follow.
    Prints(ProgramTree),
}

/// What stands before the loop.
#[derive(Drop)]
pub struct Preface {
    /// The line of `on fault skip`, where it stands.
    pub skip_line: Option<u32>,
    pub vars: Many<Binding>,
}

/// What stands before the first statement of the loop's body.
#[derive(Drop)]
pub struct LoopFront {
    pub preface: Preface,
    /// The line of the `for`.
    pub line: u32,
    pub heads: Heads,
    pub scratch: Many<Binding>,
}

/// A loop whose `end` hasn't come.
#[derive(Drop)]
pub struct OpenLoop {
    pub front: LoopFront,
    /// The `if`s that are open, the innermost first.
    pub ifs: Stack<OpenIf>,
    /// The statements so far of the innermost open block.
    pub block: Many<Statement>,
}

/// An `if` whose `end` hasn't come.
#[derive(Drop)]
pub struct OpenIf {
    /// What stands before it in the block around it.
    pub before: Many<Statement>,
    /// The line of the `if`.
    pub line: u32,
    /// The branches whose blocks are complete.
    pub branches: Many<Branch>,
    /// What opened the block that is being read.
    pub opened: Opened,
}

/// What opened a block of an `if`, with its line.
#[derive(Drop)]
pub enum Opened {
    /// The `if` line or an `elseif` line.
    Test { line: u32, test: Expr },
    /// The `else` line.
    Else { line: u32 },
}
