//! What one line of a loop file says.

use loop_data::{Axis, Expr, Inner, Many, TextValue, TowerExpr, Value};

/// A line that isn't blank, by its form.
#[derive(Debug, PartialEq, Eq, Drop)]
pub enum Line {
    /// `on fault skip`, three names that stay names everywhere else.
    SkipFaults,
    /// `var NAME = LITERAL`
    Var {
        name: TextValue,
        value: Value,
    },
    /// `@init NAME = LITERAL`
    Init {
        name: TextValue,
        value: Value,
    },
    /// `for PATTERN in HEAD`, with its further heads
    For(Heads),
    /// `let PATTERN = EXPR`
    Let {
        names: Many<TextValue>,
        expr: Expr,
    },
    /// `NAME = EXPR`
    Set {
        name: TextValue,
        expr: Expr,
    },
    /// `if EXPR`
    If(Expr),
    /// `elseif EXPR`
    ElseIf(Expr),
    /// `else`
    Else,
    /// `@keep NAME = EXPR`
    Keep {
        name: TextValue,
        expr: Expr,
    },
    /// `@reduce NAME += EXPR`, which is `@reduce NAME = sum(EXPR)`, or `@reduce NAME = TOWER`, with the start value after `from`
    Reduce {
        name: TextValue,
        tower: TowerExpr,
        start: Option<Value>,
    },
    /// `continue`
    Continue,
    /// `break`
    Break,
    /// `end`
    End,
    /// `print NAME`
    Print(TextValue),
}

/// What a `for` line goes over. A head that isn't a product has one axis.
#[derive(Debug, PartialEq, Eq, Drop)]
pub struct Heads {
    /// One name, or two to four for the parts of a tuple.
    pub names: Many<TextValue>,
    /// One axis, or the two to four of a product.
    pub axes: Many<Axis>,
    pub product: bool,
    /// The further heads, at most three, the last of which changes fastest.
    pub inner: Many<Inner>,
}

/// A line that isn't blank, with the line of the text on which it stands, counted from 1.
#[derive(Debug, PartialEq, Eq, Drop)]
pub struct NumberedLine {
    pub line: u32,
    pub form: Line,
}
