//! The names that the lines of a program reduce into or assign.

ghost use Rattle.std.specs.Prelude.{◌≡◌, ◌++◌, ◌∷◌, [], IfOk, OnOk, if◌then◌else◌, map};
ghost use Rattle.loop_values.specs.NamesIn.{all_names};
ghost use Rattle.legality_names.specs.Deeds.{done_by, done_in, done_in_branch, is_assigning};

use loop_data::{Branch, Many, Statement, TextValue};
use no_memory::NoMemory;
use std::alloc::Global;

/// What a line may do to a name.
#[derive(Clone, Copy, Debug, PartialEq, Eq)]
pub enum Deed {
    /// `@reduce` into it.
    Reduces,
    /// Assign it.
    Assigns,
}

/// Puts a name behind others, if this holds.
fn push_if(
    alloc: Global,
    holds: bool,
    name: &TextValue,
    names: &mut Many<TextValue>,
) -> Result<(), NoMemory>
    ensures { OnOk result (names.new ≡ names.old ++ (if holds then name.now ∷ [] else [])) }
{
    if holds {
        names.push(alloc, name.copy(alloc)?)?;
    }
    Ok(())
}

/// The names to which a statement does this, put behind others.
#[cycle(deeds)]
fn push_statement(
    alloc: Global,
    deed: Deed,
    statement: &Statement,
    names: &mut Many<TextValue>,
) -> Result<(), NoMemory>
    ensures { OnOk result (names.new ≡ names.old ++ done_by deed statement.now) }
{
    match statement {
        Statement::Set {
            line: _,
            name,
            expr: _,
        } => push_if(alloc, is_assigning(deed), name, names),
        Statement::If {
            line: _,
            branches,
            else_line: _,
            other,
            end_line: _,
        } => {
            push_branches(alloc, deed, branches.as_slice(), names)?;
            push_block(alloc, deed, other.as_slice(), names)
        }
        Statement::Reduce {
            line: _,
            name,
            tower: _,
            start: _,
        } => push_if(alloc, !is_assigning(deed), name, names),
        _ => Ok(()),
    }
}

fn is_assigning(deed: Deed) -> bool
    ensures { result ≡ is_assigning deed }
{
    matches!(deed, Deed::Assigns)
}

#[cycle(deeds)]
fn push_branches(
    alloc: Global,
    deed: Deed,
    branches: &[Branch],
    names: &mut Many<TextValue>,
) -> Result<(), NoMemory>
    ensures { OnOk result (names.new ≡ names.old ++ all_names (map (done_in_branch deed) branches.now)) }
{
    for branch in branches {
        push_branch(alloc, deed, branch, names)?;
    }
    Ok(())
}

#[cycle(deeds)]
fn push_branch(
    alloc: Global,
    deed: Deed,
    branch: &Branch,
    names: &mut Many<TextValue>,
) -> Result<(), NoMemory>
    ensures { OnOk result (names.new ≡ names.old ++ done_in_branch deed branch.now) }
{
    push_block(alloc, deed, branch.block.as_slice(), names)
}

#[cycle(deeds)]
fn push_block(
    alloc: Global,
    deed: Deed,
    block: &[Statement],
    names: &mut Many<TextValue>,
) -> Result<(), NoMemory>
    ensures { OnOk result (names.new ≡ names.old ++ done_in deed block.now) }
{
    for statement in block {
        push_statement(alloc, deed, statement, names)?;
    }
    Ok(())
}

/// The names to which the statements of a body do this, in order.
pub fn names_done(
    alloc: Global,
    deed: Deed,
    body: &[Statement],
) -> Result<Many<TextValue>, NoMemory>
    ensures { IfOk result (λ names. names ≡ done_in deed body.now) }
{
    let mut names = Many::new(alloc);
    push_block(alloc, deed, body, &mut names)?;
    Ok(names)
}
