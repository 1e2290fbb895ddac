//! Stages made of the statements of a loop, which the program's own reader reads.

use chain_stages::{Doing, Source, Stage, Test};
use loop_data::{Expr, Inner, Many, Statement, TextValue, copy_block};
use loop_syntax::{Program, read_program};
use std::alloc::Global;
use std::test::Fail;
use transducer_kit::Chain;

/// What a stage asks. The expression is that of the statement.
#[derive(Clone, Copy)]
pub enum Asks {
    If,
    IfNot,
    Broke,
    Going,
    Always,
    Never,
}

/// A stage, by the number of the statement of the body from which it comes, counted from 0.
#[derive(Clone, Copy)]
pub enum Made {
    /// The names of the head, from the item.
    Item,
    /// The range of the inner head of this number.
    Range(usize),
    /// The `Cat` of the inner head of this number.
    Cat(usize),
    Bind(usize),
    Splat(usize),
    Keep(usize),
    Block(usize),
    /// All statements from this one on.
    Rest(usize),
    Filter(usize, Asks),
    ReduceIf(usize, Asks),
}

/// The program that a text spells.
pub fn read(alloc: Global, text: &str) -> Result<Program, Fail> {
    if text.len() > 65536 {
        return Err(Fail::from("too long"));
    }
    Ok(read_program(alloc, text.as_bytes()).map_err(|_| "no program")?)
}

/// The statement of this number.
fn statement(program: &Program, number: usize) -> Result<&Statement, Fail> {
    Ok(program.body().as_slice().get(number).ok_or("no statement")?)
}

/// The inner head of this number.
fn inner(program: &Program, number: usize) -> Result<&Inner, Fail> {
    Ok(
        program
            .head()
            .inner
            .as_slice()
            .get(number)
            .ok_or("no inner head")?,
    )
}

fn line_of(statement: &Statement) -> u32 {
    match statement {
        Statement::Let {
            line,
            names: _,
            expr: _,
        } => *line,
        Statement::Set {
            line,
            name: _,
            expr: _,
        } => *line,
        Statement::If {
            line,
            branches: _,
            else_line: _,
            other: _,
            end_line: _,
        } => *line,
        Statement::Keep {
            line,
            name: _,
            expr: _,
        } => *line,
        Statement::Reduce {
            line,
            name: _,
            tower: _,
            start: _,
        } => *line,
        Statement::Continue { line } => *line,
        Statement::Break { line } => *line,
    }
}

/// The expression of a statement, or its first condition.
fn expr_in(statement: &Statement) -> Result<&Expr, Fail> {
    match statement {
        Statement::Let {
            line: _,
            names: _,
            expr,
        } => Ok(expr),
        Statement::Set {
            line: _,
            name: _,
            expr,
        } => Ok(expr),
        Statement::Keep {
            line: _,
            name: _,
            expr,
        } => Ok(expr),
        Statement::If {
            line: _,
            branches,
            else_line: _,
            other: _,
            end_line: _,
        } => {
            let first = branches.as_slice().first().ok_or("no branch")?;
            Ok(&first.test)
        }
        _ => Err(Fail::from("no expression")),
    }
}

/// The expression of the statement of this number.
pub fn expr_at(program: &Program, number: usize) -> Result<&Expr, Fail> {
    expr_in(statement(program, number)?)
}

fn expr_of(alloc: Global, program: &Program, number: usize) -> Result<Expr, Fail> {
    Ok(expr_at(program, number)?.copy(alloc)?)
}

/// The name that a statement binds.
fn name_in(statement: &Statement) -> Result<&TextValue, Fail> {
    match statement {
        Statement::Let {
            line: _,
            names,
            expr: _,
        } => Ok(names.as_slice().first().ok_or("no name")?),
        Statement::Set {
            line: _,
            name,
            expr: _,
        } => Ok(name),
        Statement::Keep {
            line: _,
            name,
            expr: _,
        } => Ok(name),
        _ => Err(Fail::from("no name")),
    }
}

fn name_of(alloc: Global, program: &Program, number: usize) -> Result<TextValue, Fail> {
    let statement = statement(program, number)?;
    Ok(name_in(statement)?.copy(alloc)?)
}

fn names_of(alloc: Global, program: &Program, number: usize) -> Result<Many<TextValue>, Fail> {
    match statement(program, number)? {
        Statement::Let {
            line: _,
            names,
            expr: _,
        } => Ok(names.copy(alloc)?),
        _ => Err(Fail::from("no names")),
    }
}

fn test_of(alloc: Global, program: &Program, number: usize, asks: Asks) -> Result<Test, Fail> {
    match asks {
        Asks::If => Ok(Test::If(expr_of(alloc, program, number)?)),
        Asks::IfNot => Ok(Test::IfNot(expr_of(alloc, program, number)?)),
        Asks::Broke => Ok(Test::Broke),
        Asks::Going => Ok(Test::Going),
        Asks::Always => Ok(Test::Always),
        Asks::Never => Ok(Test::Never),
    }
}

/// What a `Map` does.
fn doing_of(alloc: Global, program: &Program, made: Made) -> Result<Doing, Fail> {
    match made {
        Made::Range(number) => {
            let inner = inner(program, number)?;
            let name = inner.name.copy(alloc)?;
            let range = inner.range.copy(alloc)?;
            Ok(Doing::Inner { name, range })
        }
        Made::Bind(number) => {
            let name = name_of(alloc, program, number)?;
            let expr = expr_of(alloc, program, number)?;
            Ok(Doing::Bind { name, expr })
        }
        Made::Block(number) => {
            let statement = statement(program, number)?.copy(alloc)?;
            Ok(Doing::Block { statement })
        }
        Made::Rest(number) => {
            let body = program.body().as_slice();
            let rest = body.get(number..).ok_or("no statement")?;
            let statements = copy_block(alloc, rest)?;
            Ok(Doing::Rest { statements })
        }
        _ => Err(Fail::from("no map")),
    }
}

fn splat_of(alloc: Global, program: &Program, number: usize) -> Result<Stage, Fail> {
    let line = line_of(statement(program, number)?);
    let names = names_of(alloc, program, number)?;
    let source = Source::Of(expr_of(alloc, program, number)?);
    Ok(Stage::MapSplat {
        line,
        names,
        source,
    })
}

fn keep_of(alloc: Global, program: &Program, number: usize) -> Result<Stage, Fail> {
    let line = line_of(statement(program, number)?);
    let name = name_of(alloc, program, number)?;
    let expr = expr_of(alloc, program, number)?;
    Ok(Stage::KeepSomething { line, name, expr })
}

fn map_of(alloc: Global, program: &Program, line: u32, made: Made) -> Result<Stage, Fail> {
    let action = doing_of(alloc, program, made)?;
    Ok(Stage::Map { line, action })
}

fn item_of(alloc: Global, program: &Program) -> Result<Stage, Fail> {
    let names = program.head().names.copy(alloc)?;
    let source = Source::Item;
    Ok(Stage::MapSplat {
        line: program.head().line,
        names,
        source,
    })
}

fn cat_of(alloc: Global, program: &Program, number: usize) -> Result<Stage, Fail> {
    let name = inner(program, number)?.name.copy(alloc)?;
    Ok(Stage::Cat {
        line: program.head().line,
        name,
    })
}

fn stage_of(alloc: Global, program: &Program, made: Made) -> Result<Stage, Fail> {
    match made {
        Made::Item => item_of(alloc, program),
        Made::Range(_) => map_of(alloc, program, program.head().line, made),
        Made::Cat(number) => cat_of(alloc, program, number),
        Made::Bind(number) | Made::Block(number) | Made::Rest(number) => {
            map_of(alloc, program, line_of(statement(program, number)?), made)
        }
        Made::Splat(number) => splat_of(alloc, program, number),
        Made::Keep(number) => keep_of(alloc, program, number),
        Made::Filter(number, asks) => {
            let line = line_of(statement(program, number)?);
            let test = test_of(alloc, program, number, asks)?;
            Ok(Stage::Filter { line, test })
        }
        Made::ReduceIf(number, asks) => {
            let line = line_of(statement(program, number)?);
            let test = test_of(alloc, program, number, asks)?;
            Ok(Stage::ReduceIf { line, test })
        }
    }
}

/// The chain of these stages.
pub fn chain_of(alloc: Global, program: &Program, made: &[Made]) -> Result<Chain, Fail> {
    let mut chain = Chain::new(alloc);
    for made in made {
        chain.push(alloc, stage_of(alloc, program, *made)?)?;
    }
    Ok(chain)
}
