//! The lines that tell how a loop is folded.

ghost use Rattle.std.specs.Prelude.{◌≡◌, ◌++◌, ◌∷◌, [], IfOk, OnOk, map, string_bytes};
ghost use Rattle.chain_stages.specs.ChainText.{stage_line};
ghost use Rattle.loop_chain.specs.Explain.{items_line, joined, lines_in, lines_for, reduce_line, skip_lines, stage_lines};

use chain_stages::Stage;
use no_memory::NoMemory;
use reducer_tower::Named;
use std::alloc::{AllocError, Global};

/// The line of how many items there are.
fn items_line(alloc: Global, count: u64) -> Result<String, AllocError>
    ensures { IfOk result (λ text. string_bytes text ≡ items_line count) }
{
    format!(in alloc; "items {count}\n")
}

/// The line of a stage, with its number.
fn stage_line(alloc: Global, number: usize, stage: &Stage) -> Result<String, AllocError>
    ensures { IfOk result (λ text. string_bytes text ≡ stage_line number stage.now) }
{
    format!(in alloc; "stage {number}: {stage}\n")
}

/// The line of a reducer.
fn reduce_line(alloc: Global, named: &Named) -> Result<String, AllocError>
    ensures { IfOk result (λ text. string_bytes text ≡ reduce_line named.now) }
{
    format!(in alloc; "reduce {named}\n")
}

/// One line more, in a program that skips faults.
fn add_skip_line(alloc: Global, skips: bool, lines: &mut Vec<Vec<u8>>) -> Result<(), NoMemory>
    ensures { OnOk result (lines_in lines.new.items
        ≡ lines_in lines.old.items ++ skip_lines skips) }
{
    if !skips {
        return Ok(());
    }
    let line = format!(in alloc; "on fault skip\n")?;
    lines.push(line.into_bytes())?;
    Ok(())
}

/// A line for each stage, the first of them having the number 1.
fn add_stage_lines(
    alloc: Global,
    stages: &[Stage],
    lines: &mut Vec<Vec<u8>>,
) -> Result<(), NoMemory>
    ensures { OnOk result (lines_in lines.new.items
        ≡ lines_in lines.old.items ++ stage_lines 1 stages.now) }
{
    let mut number = 1;
    for stage in stages {
        let line = stage_line(alloc, number, stage)?;
        lines.push(line.into_bytes())?;
        number += 1;
    }
    Ok(())
}

/// A line for each reducer.
fn add_reduce_lines(alloc: Global, row: &[Named], lines: &mut Vec<Vec<u8>>) -> Result<(), NoMemory>
    ensures { OnOk result (lines_in lines.new.items
        ≡ lines_in lines.old.items ++ map reduce_line row.now) }
{
    for named in row {
        let line = reduce_line(alloc, named)?;
        lines.push(line.into_bytes())?;
    }
    Ok(())
}

/// The lines that tell how a loop over so many items is folded, each with its LF: how many items there are, whether faults are
/// skipped, its stages and its reducers. A line is one line also where it holds another LF, as the start value of a reducer may.
/// Refused only for want of memory.
pub fn explain_lines(
    alloc: Global,
    count: u64,
    skips: bool,
    stages: &[Stage],
    row: &[Named],
) -> Result<Vec<Vec<u8>>, NoMemory>
    ensures { IfOk result (λ lines. lines_in lines.items
        ≡ lines_for count skips stages.now row.now) }
{
    let mut lines = Vec::new(alloc);
    let line = items_line(alloc, count)?;
    lines.push(line.into_bytes())?;
    add_skip_line(alloc, skips, &mut lines)?;
    add_stage_lines(alloc, stages, &mut lines)?;
    add_reduce_lines(alloc, row, &mut lines)?;
    Ok(lines)
}

/// Lines one after another, as one text. Refused only for want of memory.
pub fn joined(alloc: Global, lines: &[Vec<u8>]) -> Result<Vec<u8>, NoMemory>
    ensures { IfOk result (λ text. text.items ≡ joined (lines_in lines.now)) }
{
    let mut text = Vec::new(alloc);
    for line in lines {
        text.extend_from_slice(line.as_slice())?;
    }
    Ok(text)
}
