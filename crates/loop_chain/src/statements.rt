//! The stages of statements.

ghost use Rattle.std.specs.Prelude.{◌≡◌, ◌++◌, ◌∷◌, [], IfOk, OnOk};
ghost use Rattle.chain_stages.specs.declared.stages.Stage.TheVariants as stage;
ghost use Rattle.chain_stages.specs.declared.stages.Doing.TheVariants as doing;
ghost use Rattle.chain_stages.specs.declared.stages.Test.TheVariants as test;
ghost use Rattle.loop_stages.specs.Lowering.{any_other, block_form, if_form, if_line, if_stages, where_holds};
ghost use Rattle.loop_stages.specs.Lowering.{let_stages, line_of, statement_stages};

use crate::holding::held_in;
use chain_stages::{Doing, Source, Stage, Test};
use loop_data::{Branch, Expr, Many, Statement, TextValue};
use no_memory::NoMemory;
use std::alloc::Global;

/// Puts a stage last.
pub(crate) fn push(stage: Stage, stages: &mut Vec<Stage>) -> Result<(), NoMemory>
    ensures { OnOk result (stages.new.items ≡ stages.old.items ++ stage ∷ []) }
{
    stages.push(stage)?;
    Ok(())
}

/// A `Map` that binds an expression's value.
fn bind_stage(alloc: Global, line: u32, name: &TextValue, expr: &Expr) -> Result<Stage, NoMemory>
    ensures { IfOk result (λ made. made ≡ stage.Map line (doing.Bind name.now expr.now)) }
{
    let name = name.copy(alloc)?;
    let expr = expr.copy(alloc)?;
    Ok(Stage::Map {
        line,
        action: Doing::Bind { name, expr },
    })
}

/// The stage of a `let`: a `MapSplat` where it has several names.
fn let_stage(
    alloc: Global,
    line: u32,
    names: &Many<TextValue>,
    expr: &Expr,
) -> Result<Stage, NoMemory>
    ensures { IfOk result (λ made. let_stages line names.now expr.now ≡ made ∷ []) }
{
    match names.as_slice() {
        [name] => bind_stage(alloc, line, name, expr),
        _ => {
            let names = names.copy(alloc)?;
            let source = Source::Of(expr.copy(alloc)?);
            Ok(Stage::MapSplat {
                line,
                names,
                source,
            })
        }
    }
}

// ---- an `if` before the split statement

/// The stages of an `if` that is run as a block.
fn push_block(
    alloc: Global,
    line: u32,
    statement: &Statement,
    stages: &mut Vec<Stage>,
) -> Result<(), NoMemory>
    ensures { OnOk result (stages.new.items
        ≡ stages.old.items ++ if_stages line any_other statement.now) }
{
    let held = held_in(statement);
    let statement = statement.copy(alloc)?;
    stages.push(Stage::Map {
        line,
        action: Doing::Block { statement },
    })?;
    push_broke(held.breaks, line, stages)?;
    push_going(held.exits, line, stages)
}

/// A stage that ends the fold after an element that broke, where it is wanted.
fn push_broke(wanted: bool, line: u32, stages: &mut Vec<Stage>) -> Result<(), NoMemory>
    ensures { OnOk result (stages.new.items
        ≡ stages.old.items ++ where_holds wanted (stage.ReduceIf line test.Broke)) }
{
    if !wanted {
        return Ok(());
    }
    let test = Test::Broke;
    push(Stage::ReduceIf { line, test }, stages)
}

/// A stage that lets further only what goes on, where it is wanted.
fn push_going(wanted: bool, line: u32, stages: &mut Vec<Stage>) -> Result<(), NoMemory>
    ensures { OnOk result (stages.new.items
        ≡ stages.old.items ++ where_holds wanted (stage.Filter line test.Going)) }
{
    if !wanted {
        return Ok(());
    }
    let test = Test::Going;
    push(Stage::Filter { line, test }, stages)
}

/// The stages of an `if` of one condition, which has no `else`: a `Filter` where its block is one `continue`, with a `ReduceIf`
/// before it where it is one `break`.
fn push_one_branch(
    alloc: Global,
    line: u32,
    branch: &Branch,
    statement: &Statement,
    stages: &mut Vec<Stage>,
) -> Result<(), NoMemory>
    ensures { OnOk result (stages.new.items
        ≡ stages.old.items
        ++ if_stages line (block_form branch.now.test branch.now.block) statement.now) }
{
    match branch.block.as_slice() {
        [Statement::Continue { line: _ }] => {
            let test = Test::IfNot(branch.test.copy(alloc)?);
            push(Stage::Filter { line, test }, stages)
        }
        [Statement::Break { line: _ }] => {
            let test = Test::If(branch.test.copy(alloc)?);
            stages.push(Stage::ReduceIf { line, test })?;
            let test = Test::IfNot(branch.test.copy(alloc)?);
            push(Stage::Filter { line, test }, stages)
        }
        _ => push_block(alloc, line, statement, stages),
    }
}

/// The line of an `if`: that of its first condition.
fn if_line(line: u32, branches: &[Branch]) -> u32
    ensures { result ≡ if_line line branches.now }
{
    match branches {
        [] => line,
        [first, ..] => first.line,
    }
}

/// The stages of an `if`.
fn push_if(
    alloc: Global,
    line: u32,
    branches: &[Branch],
    else_line: u32,
    other: &[Statement],
    statement: &Statement,
    stages: &mut Vec<Stage>,
) -> Result<(), NoMemory>
    ensures { OnOk result (stages.new.items
        ≡ stages.old.items
        ++ if_stages line (if_form branches.now else_line other.now) statement.now) }
{
    match (branches, else_line, other) {
        ([branch], 0, []) => push_one_branch(alloc, line, branch, statement, stages),
        _ => push_block(alloc, line, statement, stages),
    }
}

// ---- statements

/// The stage of an `@keep`.
fn push_keep(
    alloc: Global,
    line: u32,
    name: &TextValue,
    expr: &Expr,
    stages: &mut Vec<Stage>,
) -> Result<(), NoMemory>
    ensures { OnOk result (stages.new.items
        ≡ stages.old.items ++ stage.KeepSomething line name.now expr.now ∷ []) }
{
    let name = name.copy(alloc)?;
    let expr = expr.copy(alloc)?;
    push(Stage::KeepSomething { line, name, expr }, stages)
}

/// The stages of a `break`: one that ends the fold, and one that lets nothing further.
fn push_break(line: u32, stages: &mut Vec<Stage>) -> Result<(), NoMemory>
    ensures { OnOk result (stages.new.items
        ≡ stages.old.items ++ stage.ReduceIf line test.Always ∷ stage.Filter line test.Never ∷ []) }
{
    let test = Test::Always;
    stages.push(Stage::ReduceIf { line, test })?;
    let test = Test::Never;
    push(Stage::Filter { line, test }, stages)
}

/// The stages of a statement before the split statement.
pub(crate) fn push_statement(
    alloc: Global,
    statement: &Statement,
    stages: &mut Vec<Stage>,
) -> Result<(), NoMemory>
    ensures { OnOk result (stages.new.items ≡ stages.old.items ++ statement_stages statement.now) }
{
    match statement {
        Statement::Let { line, names, expr } => {
            push(let_stage(alloc, *line, names, expr)?, stages)
        }
        Statement::Set { line, name, expr } => {
            push(bind_stage(alloc, *line, name, expr)?, stages)
        }
        Statement::If {
            line,
            branches,
            else_line,
            other,
            end_line: _,
        } => {
            let branches = branches.as_slice();
            let line = if_line(*line, branches);
            push_if(
                alloc,
                line,
                branches,
                *else_line,
                other.as_slice(),
                statement,
                stages,
            )
        }
        Statement::Keep { line, name, expr } => push_keep(alloc, *line, name, expr, stages),
        Statement::Continue { line } => {
            let (line, test) = (*line, Test::Never);
            push(Stage::Filter { line, test }, stages)
        }
        Statement::Break { line } => push_break(*line, stages),
        Statement::Reduce {
            line: _,
            name: _,
            tower: _,
            start: _,
        } => Ok(()),
    }
}

/// The line of a statement; of an `if`, that of its first condition.
pub(crate) fn line_of(statement: &Statement) -> u32
    ensures { result ≡ line_of statement.now }
{
    match statement {
        Statement::Let { line, .. } => *line,
        Statement::Set { line, .. } => *line,
        Statement::If { line, branches, .. } => if_line(*line, branches.as_slice()),
        Statement::Keep { line, .. } => *line,
        Statement::Reduce { line, .. } => *line,
        Statement::Continue { line } => *line,
        Statement::Break { line } => *line,
    }
}
