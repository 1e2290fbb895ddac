//! The walk over a program, which tries all rules but that of carried scratches and ends at the first offence.

ghost use Rattle.std.specs.Prelude.{◌≡◌, ◌≢◌, Err, map, true};
ghost use Rattle.legality_lines.specs.Walks.{bindings_checked, block_checked, branch_checked, branches_checked, inside_checked};
ghost use Rattle.legality_lines.specs.Walks.{prints_checked, program_checked, statement_checked};

use crate::head::check_head;
use crate::lines::{check_binding, check_condition, check_keep, check_let, check_print, check_set};
use crate::reduce::check_reduce;
use crate::state::{State, leave};
use legality_rules::{LegalRefusal, Sort};
use loop_data::{Binding, Branch, PrintLine, Statement, TextValue};
use loop_grammar::ProgramTree;
use std::alloc::Global;

#[cycle(walk)]
fn check_statement(
    alloc: Global,
    reducers: &[TextValue],
    state: State,
    statement: &Statement,
) -> Result<State, LegalRefusal>
    ensures { result ≢ Err LegalRefusal.NoMemory → result ≡ statement_checked reducers.now statement.now state }
{
    match statement {
        Statement::Let { line, names, expr } => {
            check_let(alloc, reducers, state, *line, names.as_slice(), expr)
        }
        Statement::Set { line, name, expr } => {
            check_set(alloc, reducers, state, *line, name, expr)
        }
        Statement::If {
            line: _,
            branches,
            else_line: _,
            other,
            end_line: _,
        } => {
            let state = check_branches(alloc, reducers, state, branches.as_slice())?;
            check_inside(alloc, reducers, state, other.as_slice())
        }
        Statement::Keep { line, name, expr } => {
            check_keep(alloc, reducers, state, *line, name, expr)
        }
        Statement::Reduce {
            line,
            name,
            tower,
            start,
        } => check_reduce(alloc, reducers, state, *line, name, tower, start.as_ref()),
        Statement::Continue { line: _ } => Ok(state),
        Statement::Break { line: _ } => Ok(state),
    }
}

/// Checks the conditions of an `if` and its `elseif`s, each with its block.
#[cycle(walk)]
fn check_branches(
    alloc: Global,
    reducers: &[TextValue],
    state: State,
    branches: &[Branch],
) -> Result<State, LegalRefusal>
    ensures { result ≢ Err LegalRefusal.NoMemory →
        result ≡ branches_checked (map (branch_checked reducers.now) branches.now) true state }
{
    let mut state = state;
    let mut first = true;
    for branch in branches {
        state = check_branch(alloc, reducers, state, first, branch)?;
        first = false;
    }
    Ok(state)
}

#[cycle(walk)]
fn check_branch(
    alloc: Global,
    reducers: &[TextValue],
    state: State,
    first: bool,
    branch: &Branch,
) -> Result<State, LegalRefusal>
    ensures { result ≢ Err LegalRefusal.NoMemory → result ≡ branch_checked reducers.now branch.now first state }
{
    check_condition(alloc, reducers, &state, first, branch.line, &branch.test)?;
    check_inside(alloc, reducers, state, branch.block.as_slice())
}

/// Checks a block, after which the names that it binds are no longer in scope.
#[cycle(walk)]
fn check_inside(
    alloc: Global,
    reducers: &[TextValue],
    state: State,
    block: &[Statement],
) -> Result<State, LegalRefusal>
    ensures { result ≢ Err LegalRefusal.NoMemory →
        result ≡ inside_checked (map (statement_checked reducers.now) block.now) state }
{
    let known = state.scope.len();
    let state = check_block(alloc, reducers, state, block)?;
    Ok(leave(state, known))
}

/// Checks the statements of a block one after another.
#[cycle(walk)]
fn check_block(
    alloc: Global,
    reducers: &[TextValue],
    state: State,
    block: &[Statement],
) -> Result<State, LegalRefusal>
    ensures { result ≢ Err LegalRefusal.NoMemory → result ≡ block_checked (map (statement_checked reducers.now) block.now) state }
{
    let mut state = state;
    for statement in block {
        state = check_statement(alloc, reducers, state, statement)?;
    }
    Ok(state)
}

/// Checks `var` or `@init` lines.
fn check_bindings(
    alloc: Global,
    state: State,
    sort: Sort,
    bindings: &[Binding],
) -> Result<State, LegalRefusal>
    ensures { result ≢ Err LegalRefusal.NoMemory → result ≡ bindings_checked sort bindings.now state }
{
    let mut state = state;
    for binding in bindings {
        state = check_binding(alloc, state, sort, binding)?;
    }
    Ok(state)
}

/// Checks `print` lines.
fn check_prints(
    alloc: Global,
    reducers: &[TextValue],
    prints: &[PrintLine],
) -> Result<(), LegalRefusal>
    ensures { result ≢ Err LegalRefusal.NoMemory → result ≡ prints_checked reducers.now prints.now }
{
    for print in prints {
        check_print(alloc, reducers, print)?;
    }
    Ok(())
}

/// Tries all rules but the fourth on the lines of a program, told its reducers.
pub fn check_lines(
    alloc: Global,
    reducers: &[TextValue],
    program: &ProgramTree,
) -> Result<(), LegalRefusal>
    ensures { result ≢ Err LegalRefusal.NoMemory → result ≡ program_checked reducers.now program.now }
{
    let state = State::new(alloc);
    let state = check_bindings(alloc, state, Sort::Variable, program.vars.as_slice())?;
    let state = check_head(alloc, reducers, state, &program.head)?;
    let state = check_bindings(alloc, state, Sort::Scratch, program.scratch.as_slice())?;
    check_block(alloc, reducers, state, program.body.as_slice())?;
    check_prints(alloc, reducers, program.prints.as_slice())
}
