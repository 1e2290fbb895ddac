//! The stages of a chain.

use loop_data::{Expr, Many, RangeExpr, Statement, TextValue};
use std::fmt;

/// What a `Map` does to an element.
#[derive(Debug, PartialEq, Eq, Drop)]
pub enum Doing {
    /// Binds the expression's value.
    Bind { name: TextValue, expr: Expr },
    /// Sets the inner range, for the `Cat` of this name.
    Inner { name: TextValue, range: RangeExpr },
    /// Runs the statement.
    Block { statement: Statement },
    /// Runs the statements, and gathers what they emit.
    Rest { statements: Many<Statement> },
}

/// Where a `MapSplat` has its tuple from.
#[derive(Debug, PartialEq, Eq, Drop)]
pub enum Source {
    /// The item.
    Item,
    /// The expression's value.
    Of(Expr),
}

/// What an element is asked.
#[derive(Debug, PartialEq, Eq, Drop)]
pub enum Test {
    If(Expr),
    IfNot(Expr),
    /// Whether its mark is that of a `break`.
    Broke,
    /// Whether its mark is that of what goes on.
    Going,
    Always,
    Never,
}

/// A stage of a chain, with the line of the statement from which it comes.
#[derive(Debug, PartialEq, Eq, Drop)]
pub enum Stage {
    Map {
        line: u32,
        action: Doing,
    },
    MapSplat {
        line: u32,
        names: Many<TextValue>,
        source: Source,
    },
    Filter {
        line: u32,
        test: Test,
    },
    KeepSomething {
        line: u32,
        name: TextValue,
        expr: Expr,
    },
    Cat {
        line: u32,
        name: TextValue,
    },
    ReduceIf {
        line: u32,
        test: Test,
    },
}

impl fmt::Display for Stage {
    ghost use Rattle.std.specs.Prelude.{Some};
    ghost use Rattle.chain_stages.specs.ChainText.{stage_text};

    ghost output = { λ s. Some (stage_text s) };

    fn fmt<W: fmt::Write>(&self, f: &mut fmt::Formatter<W>) -> fmt::Result {
        match self {
            Stage::Map { line, action: _ } => write!(f, "Map, line {line}"),
            Stage::MapSplat {
                line,
                names: _,
                source: _,
            } => write!(f, "MapSplat, line {line}"),
            Stage::Filter { line, test: _ } => write!(f, "Filter, line {line}"),
            Stage::KeepSomething {
                line,
                name: _,
                expr: _,
            } => write!(f, "KeepSomething, line {line}"),
            Stage::Cat { line, name: _ } => write!(f, "Cat, line {line}"),
            Stage::ReduceIf { line, test: _ } => write!(f, "ReduceIf, line {line}"),
        }
    }
}
