//! The row of a program's reducers.

ghost use Rattle.std.specs.Prelude.{◌≡◌, ◌<◌, ◌≤◌, ◌^◌, ◌++◌, ◌∷◌, [], true, IfOk, OnOk, length, map};
ghost use Rattle.std.specs.List.{list_all};
ghost use Rattle.reducer_tower.specs.Rows.{named_tower, start_fits};
ghost use Rattle.tower_inputs.specs.Towers.{kind_of_tower};
ghost use Rattle.fitting_inputs.specs.ReduceLines.{all_lines, lines_in, lines_in_branch, reduce_lines};
ghost use Rattle.program_rows.specs.Rows.{named_line, with_line, with_lines, row_of};

use fitting_inputs::laws::legal_reducers_have_one_tower;
use legality_check::LegalProgram;
use loop_data::{Branch, Statement, TextValue, TowerExpr, Value, copy_start};
use loop_grammar::ProgramTree;
use no_memory::NoMemory;
use reducer_tower::{Named, Row, Tower};
use std::alloc::Global;
use tower_inputs::kind_of_tower;

/// Puts the tower of an `@reduce` line last, with the line's name and start value.
fn push_line(
    alloc: Global,
    name: &TextValue,
    tower: &TowerExpr,
    start: &Option<Value>,
    lines: &mut Vec<Named>,
) -> Result<(), NoMemory>
    ensures { OnOk result (lines.new.items
        ≡ lines.old.items ++ named_tower name.now (kind_of_tower tower.now) start.now ∷ []) }
{
    let name = name.copy(alloc)?;
    let kind = kind_of_tower(alloc, tower)?;
    let start = copy_start(alloc, start)?;
    lines.push(Named {
        name,
        tower: Tower { kind },
        start,
    })?;
    Ok(())
}

#[cycle(lines)]
fn push_statement(
    alloc: Global,
    statement: &Statement,
    lines: &mut Vec<Named>,
) -> Result<(), NoMemory>
    ensures { OnOk result (lines.new.items ≡ lines.old.items ++ map named_line (lines_in statement.now)) }
{
    match statement {
        Statement::If {
            line: _,
            branches,
            else_line: _,
            other,
            end_line: _,
        } => {
            push_branches(alloc, branches.as_slice(), lines)?;
            push_block(alloc, other.as_slice(), lines)
        }
        Statement::Reduce {
            line: _,
            name,
            tower,
            start,
        } => push_line(alloc, name, tower, start, lines),
        _ => Ok(()),
    }
}

#[cycle(lines)]
fn push_branches(alloc: Global, branches: &[Branch], lines: &mut Vec<Named>) -> Result<(), NoMemory>
    ensures { OnOk result (lines.new.items
        ≡ lines.old.items ++ map named_line (all_lines (map lines_in_branch branches.now))) }
{
    for branch in branches {
        push_block(alloc, branch.block.as_slice(), lines)?;
    }
    Ok(())
}

#[cycle(lines)]
fn push_block(alloc: Global, block: &[Statement], lines: &mut Vec<Named>) -> Result<(), NoMemory>
    ensures { OnOk result (lines.new.items
        ≡ lines.old.items ++ map named_line (all_lines (map lines_in block.now))) }
{
    for statement in block {
        push_statement(alloc, statement, lines)?;
    }
    Ok(())
}

/// The `@reduce` lines of a program, by rising lines, each as a named tower with its start value.
fn lines_of(alloc: Global, program: &ProgramTree) -> Result<Vec<Named>, NoMemory>
    ensures { IfOk result (λ lines. lines.items ≡ map named_line (reduce_lines program.now)) }
{
    let mut lines = Vec::new(alloc);
    push_block(alloc, program.body.as_slice(), &mut lines)?;
    Ok(lines)
}

/// The row with a further line's tower, unless a line before has its name.
fn add_line(alloc: Global, line: Named, row: &mut Row) -> Result<(), NoMemory>
    requires fits { start_fits line ≡ true }
    requires few { length row.old.towers.items < 2 ^ 32 }
    ensures { OnOk result (row.new.towers.items ≡ with_line row.old.towers.items line) }
{
    let Named { name, tower, start } = line;
    if row.tower(name.as_str()).is_some() {
        return Ok(());
    }
    row.add(alloc, name.as_str(), &tower.kind, start)
}

/// The row of these lines.
fn with_lines(alloc: Global, lines: Vec<Named>) -> Result<Row, NoMemory>
    requires fit { list_all start_fits lines.items ≡ true }
    requires few { length lines.items < 2 ^ 32 }
    ensures { IfOk result (λ row. row.towers.items ≡ with_lines [] lines.items) }
{
    let mut row = Row::new(alloc);
    for line in lines {
        add_line(alloc, line, &mut row)?;
    }
    Ok(row)
}

/// The reducers of a legal program, in the order of their first `@reduce` lines, each with the kind and the start value of that
/// line. Refused only for want of memory.
pub fn row_of(alloc: Global, legal: &LegalProgram) -> Result<Row, NoMemory>
    ensures { IfOk result (λ row. row.towers.items ≡ row_of legal.now) }
{
    // A legal program's start values fit, and its lines are few.
    legal_reducers_have_one_tower();
    let lines = lines_of(alloc, legal.program().tree())?;
    with_lines(alloc, lines)
}
