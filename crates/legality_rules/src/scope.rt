//! Names in scope, and what `@reduce` lines reduce into.

use loop_data::{Kind, Many, TextValue, ValueKind};

/// What a name in scope is bound by.
#[derive(Clone, Copy, Debug, PartialEq, Eq)]
pub enum Sort {
    /// `var`: an outer variable.
    Variable,
    /// The pattern of the `for` line, or an inner head.
    LoopVariable,
    /// `@init`
    Scratch,
    /// `let` or `@keep`
    Local,
}

/// A name in scope. It has no kind where the line that binds it gives it none.
#[derive(Debug, PartialEq, Eq, Drop)]
pub struct Known {
    pub name: TextValue,
    pub sort: Sort,
    pub kind: Option<ValueKind>,
}

/// What an `@reduce` line reduces into: the name, the kind of its tower, and the kinds of its inputs, where all have one that
/// may stand there.
#[derive(Debug, PartialEq, Eq, Drop)]
pub struct Site {
    pub name: TextValue,
    pub tower: Kind,
    pub inputs: Option<Many<ValueKind>>,
}
