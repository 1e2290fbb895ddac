//! The stages of a program.

ghost use Rattle.std.specs.Prelude.{◌≡◌, ◌++◌, ◌∷◌, [], IfOk, OnOk};
ghost use Rattle.chain_stages.specs.declared.stages.Stage.TheVariants as stage;
ghost use Rattle.chain_stages.specs.declared.stages.Doing.TheVariants as doing;
ghost use Rattle.loop_stages.specs.Lowering.{body_stages, inner_stages, lowered, most_before_split, pattern_stages, rest_stages};

use crate::holding::held_in;
use crate::statements::{line_of, push, push_statement};
use chain_stages::{Doing, Source, Stage, Test};
use loop_data::{Inner, Many, Statement, TextValue, copy_block};
use loop_grammar::ProgramTree;
use no_memory::NoMemory;
use std::alloc::Global;

/// How many statements may stand before the split statement.
const MOST_BEFORE_SPLIT: u32 = 64;

/// The stages from the split statement on, which run all the rest of the body.
fn push_rest(
    alloc: Global,
    line: u32,
    statements: &[Statement],
    stages: &mut Vec<Stage>,
) -> Result<(), NoMemory>
    ensures { OnOk result (stages.new.items ≡ stages.old.items ++ rest_stages line statements.now) }
{
    let statements = copy_block(alloc, statements)?;
    let action = Doing::Rest { statements };
    stages.push(Stage::Map { line, action })?;
    let test = Test::Broke;
    push(Stage::ReduceIf { line, test }, stages)
}

/// The stages of a body: of each statement before the split statement, and from there on of all the rest together.
fn push_body(alloc: Global, body: &[Statement], stages: &mut Vec<Stage>) -> Result<(), NoMemory>
    ensures { OnOk result (stages.new.items
        ≡ stages.old.items ++ body_stages most_before_split body.now) }
{
    let mut room = MOST_BEFORE_SPLIT;
    for before in 0..body.len() {
        let statement = &body[before];
        if room == 0 || held_in(statement).reduces {
            return push_rest(alloc, line_of(statement), &body[before..], stages);
        }
        push_statement(alloc, statement, stages)?;
        room -= 1;
    }
    Ok(())
}

/// The stage of a pattern of several names. One name is bound already.
fn push_pattern(
    alloc: Global,
    line: u32,
    names: &Many<TextValue>,
    stages: &mut Vec<Stage>,
) -> Result<(), NoMemory>
    ensures { OnOk result (stages.new.items ≡ stages.old.items ++ pattern_stages line names.now) }
{
    match names.as_slice() {
        [_] => Ok(()),
        _ => {
            let names = names.copy(alloc)?;
            let source = Source::Item;
            push(
                Stage::MapSplat {
                    line,
                    names,
                    source,
                },
                stages,
            )
        }
    }
}

/// The two stages of an inner head: its range, and the elements for the items of that.
fn push_inner(
    alloc: Global,
    line: u32,
    inner: &Inner,
    stages: &mut Vec<Stage>,
) -> Result<(), NoMemory>
    ensures { OnOk result (stages.new.items ≡ stages.old.items
        ++ stage.Map line (doing.Inner inner.now.name inner.now.range)
        ∷ stage.Cat line inner.now.name ∷ []) }
{
    let name = inner.name.copy(alloc)?;
    let range = inner.range.copy(alloc)?;
    let action = Doing::Inner { name, range };
    stages.push(Stage::Map { line, action })?;
    let name = inner.name.copy(alloc)?;
    push(Stage::Cat { line, name }, stages)
}

/// The stages of the inner heads.
fn push_inners(
    alloc: Global,
    line: u32,
    heads: &[Inner],
    stages: &mut Vec<Stage>,
) -> Result<(), NoMemory>
    ensures { OnOk result (stages.new.items ≡ stages.old.items ++ inner_stages line heads.now) }
{
    for head in heads {
        push_inner(alloc, line, head, stages)?;
    }
    Ok(())
}

/// The stages to which a program is lowered: those of its `for` line, and then those of its body. Refused only for want of
/// memory.
pub fn stages_of(alloc: Global, program: &ProgramTree) -> Result<Vec<Stage>, NoMemory>
    ensures { IfOk result (λ stages. stages.items ≡ lowered program.now) }
{
    let mut stages = Vec::new(alloc);
    let head = &program.head;
    push_pattern(alloc, head.line, &head.names, &mut stages)?;
    push_inners(alloc, head.line, head.inner.as_slice(), &mut stages)?;
    push_body(alloc, program.body.as_slice(), &mut stages)?;
    Ok(stages)
}
