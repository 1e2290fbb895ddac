//! The lines of a program.

ghost use Rattle.std.specs.Prelude.{◌≡◌, [], ◌∷◌, ◌++◌, map, flat_map, true, false, IfOk, OnOk};
ghost use Rattle.loop_grammar.specs.declared.line.Line.TheVariants as l;
ghost use Rattle.loop_grammar.specs.declared.line.Line.{Line};
ghost use Rattle.loop_writer.specs.Programs.{condition, statement_lines, branch_lines, branches_lines, block_lines, else_lines};
ghost use Rattle.loop_writer.specs.Programs.{skip_lines, var_line, init_line, print_line, for_line, placed, canonical_text};
ghost use Rattle.loop_writer.specs.Writing.{Wrote, WroteLine, IsWord};

use crate::lines::{
    write_condition, write_for, write_init, write_keep, write_let, write_on_fault_skip,
    write_print, write_reduce, write_set, write_var,
};
use crate::marks::write_keyword;
use crate::rows::{Indent, Rows};
use loop_data::{
    Binding, Branch, Expr, HeadLine, PrintLine, Statement, TextValue, TowerExpr, Value,
};
use loop_grammar::ProgramTree;
use loop_tokens::Keyword;
use no_memory::NoMemory;
use std::alloc::Global;

/// A line of one word.
fn word_line(rows: &mut Rows, line: u32, depth: &Indent, word: Keyword) -> Result<(), NoMemory>
    ensures { OnOk result (
        (form : Line) → IsWord form word → WroteLine rows.old rows.new depth.now line form) }
{
    rows.begin(line, depth)?;
    write_keyword(&mut rows.text, word, false)?;
    rows.end()
}

fn let_line(
    rows: &mut Rows,
    line: u32,
    depth: &Indent,
    names: &[TextValue],
    expr: &Expr,
) -> Result<(), NoMemory>
    ensures { OnOk result (WroteLine rows.old rows.new depth.now line (l.Let names.now expr.now)) }
{
    rows.begin(line, depth)?;
    write_let(&mut rows.text, names, expr)?;
    rows.end()
}

fn set_line(
    rows: &mut Rows,
    line: u32,
    depth: &Indent,
    name: &TextValue,
    expr: &Expr,
) -> Result<(), NoMemory>
    ensures { OnOk result (WroteLine rows.old rows.new depth.now line (l.Set name.now expr.now)) }
{
    rows.begin(line, depth)?;
    write_set(&mut rows.text, name, expr)?;
    rows.end()
}

fn keep_line(
    rows: &mut Rows,
    line: u32,
    depth: &Indent,
    name: &TextValue,
    expr: &Expr,
) -> Result<(), NoMemory>
    ensures { OnOk result (WroteLine rows.old rows.new depth.now line (l.Keep name.now expr.now)) }
{
    rows.begin(line, depth)?;
    write_keep(&mut rows.text, name, expr)?;
    rows.end()
}

fn reduce_line(
    rows: &mut Rows,
    line: u32,
    depth: &Indent,
    name: &TextValue,
    tower: &TowerExpr,
    start: &Option<Value>,
) -> Result<(), NoMemory>
    ensures { OnOk result (
        WroteLine rows.old rows.new depth.now line (l.Reduce name.now tower.now start.now)) }
{
    rows.begin(line, depth)?;
    write_reduce(&mut rows.text, name, tower, start)?;
    rows.end()
}

/// The line of a condition.
fn condition_line(
    rows: &mut Rows,
    line: u32,
    depth: &Indent,
    test: &Expr,
    first: bool,
) -> Result<(), NoMemory>
    ensures { OnOk result (WroteLine rows.old rows.new depth.now line (condition first test.now)) }
{
    rows.begin(line, depth)?;
    write_condition(&mut rows.text, test, first)?;
    rows.end()
}

#[cycle(statements)]
fn write_statement(rows: &mut Rows, statement: &Statement, depth: &Indent) -> Result<(), NoMemory>
    ensures { OnOk result (Wrote rows.old rows.new (statement_lines statement.now depth.now)) }
{
    match statement {
        Statement::Let { line, names, expr } => {
            let_line(rows, *line, depth, names.as_slice(), expr)
        }
        Statement::Set { line, name, expr } => set_line(rows, *line, depth, name, expr),
        Statement::If {
            line: _,
            branches,
            else_line,
            other,
            end_line,
        } => {
            write_branches(rows, branches.as_slice(), depth)?;
            write_else(rows, *else_line, other.as_slice(), depth)?;
            word_line(rows, *end_line, depth, Keyword::End)
        }
        Statement::Keep { line, name, expr } => keep_line(rows, *line, depth, name, expr),
        Statement::Reduce {
            line,
            name,
            tower,
            start,
        } => reduce_line(rows, *line, depth, name, tower, start),
        Statement::Continue { line } => word_line(rows, *line, depth, Keyword::Continue),
        Statement::Break { line } => word_line(rows, *line, depth, Keyword::Break),
    }
}

#[cycle(statements)]
fn write_block(rows: &mut Rows, block: &[Statement], depth: &Indent) -> Result<(), NoMemory>
    ensures { OnOk result (Wrote rows.old rows.new (block_lines block.now depth.now)) }
{
    for statement in block {
        write_statement(rows, statement, depth)?;
    }
    Ok(())
}

/// A condition with its block, the first of its `if` or a further one.
#[cycle(statements)]
fn write_branch(
    rows: &mut Rows,
    branch: &Branch,
    depth: &Indent,
    first: bool,
) -> Result<(), NoMemory>
    ensures { OnOk result (Wrote rows.old rows.new (branch_lines branch.now first depth.now)) }
{
    condition_line(rows, branch.line, depth, &branch.test, first)?;
    let inside = depth.deeper()?;
    write_block(rows, branch.block.as_slice(), &inside)?;
    Ok(())
}

#[cycle(statements)]
fn write_branches(rows: &mut Rows, branches: &[Branch], depth: &Indent) -> Result<(), NoMemory>
    ensures { OnOk result (
        Wrote rows.old rows.new (branches_lines (map branch_lines branches.now) depth.now)) }
{
    for (i, branch) in branches.iter().enumerate() {
        write_branch(rows, branch, depth, i == 0)?;
    }
    Ok(())
}

/// The `else` line with its block; where its line is 0 there is none.
#[cycle(statements)]
fn write_else(
    rows: &mut Rows,
    line: u32,
    block: &[Statement],
    depth: &Indent,
) -> Result<(), NoMemory>
    ensures { OnOk result (
        Wrote rows.old rows.new (else_lines line (map statement_lines block.now) depth.now)) }
{
    if line == 0 {
        return Ok(());
    }
    word_line(rows, line, depth, Keyword::Else)?;
    let inside = depth.deeper()?;
    write_block(rows, block, &inside)?;
    Ok(())
}

/// The line `on fault skip`.
fn skip_line(rows: &mut Rows, line: u32) -> Result<(), NoMemory>
    ensures { OnOk result (WroteLine rows.old rows.new 0 line l.SkipFaults) }
{
    rows.begin_outside(line)?;
    write_on_fault_skip(&mut rows.text)?;
    rows.end()
}

/// The line `on fault skip`, where it stands.
fn write_skip(rows: &mut Rows, line: Option<u32>) -> Result<(), NoMemory>
    ensures { OnOk result (Wrote rows.old rows.new (skip_lines line)) }
{
    match line {
        Some(line) => skip_line(rows, line),
        None => Ok(()),
    }
}

fn one_var(rows: &mut Rows, var: &Binding) -> Result<(), NoMemory>
    ensures { OnOk result (Wrote rows.old rows.new (var_line var.now ∷ [])) }
{
    rows.begin_outside(var.line)?;
    write_var(&mut rows.text, &var.name, &var.value)?;
    rows.end()
}

fn write_vars(rows: &mut Rows, vars: &[Binding]) -> Result<(), NoMemory>
    ensures { OnOk result (Wrote rows.old rows.new (map var_line vars.now)) }
{
    for var in vars {
        one_var(rows, var)?;
    }
    Ok(())
}

fn one_init(rows: &mut Rows, init: &Binding) -> Result<(), NoMemory>
    ensures { OnOk result (Wrote rows.old rows.new (init_line init.now ∷ [])) }
{
    rows.begin_in_loop(init.line)?;
    write_init(&mut rows.text, &init.name, &init.value)?;
    rows.end()
}

fn write_scratch(rows: &mut Rows, scratch: &[Binding]) -> Result<(), NoMemory>
    ensures { OnOk result (Wrote rows.old rows.new (map init_line scratch.now)) }
{
    for init in scratch {
        one_init(rows, init)?;
    }
    Ok(())
}

fn write_head(rows: &mut Rows, head: &HeadLine) -> Result<(), NoMemory>
    ensures { OnOk result (Wrote rows.old rows.new (for_line head.now ∷ [])) }
{
    rows.begin_outside(head.line)?;
    write_for(&mut rows.text, head)?;
    rows.end()
}

fn one_print(rows: &mut Rows, print: &PrintLine) -> Result<(), NoMemory>
    ensures { OnOk result (Wrote rows.old rows.new (print_line print.now ∷ [])) }
{
    rows.begin_outside(print.line)?;
    write_print(&mut rows.text, &print.name)?;
    rows.end()
}

fn write_prints(rows: &mut Rows, prints: &[PrintLine]) -> Result<(), NoMemory>
    ensures { OnOk result (Wrote rows.old rows.new (map print_line prints.now)) }
{
    for print in prints {
        one_print(rows, print)?;
    }
    Ok(())
}

/// The canonical text of a program: each line on its own number, the lines that the program doesn't use empty, two spaces
/// before a line for each block that is open round it, one space between tokens but where the language's rules say none.
/// It is the text of one `Vec`; the only error is want of memory.
pub fn write_tree(alloc: Global, program: &ProgramTree) -> Result<Vec<u8>, NoMemory>
    ensures { IfOk result (λ v. v.items ≡ canonical_text program.now) }
{
    let mut rows = Rows::new(alloc);
    let outside = Indent::new(alloc);
    let inside = outside.deeper()?;
    write_skip(&mut rows, program.skip_line)?;
    write_vars(&mut rows, program.vars.as_slice())?;
    write_head(&mut rows, &program.head)?;
    write_scratch(&mut rows, program.scratch.as_slice())?;
    write_block(&mut rows, program.body.as_slice(), &inside)?;
    word_line(&mut rows, program.head.end_line, &outside, Keyword::End)?;
    write_prints(&mut rows, program.prints.as_slice())?;
    Ok(rows.text)
}
