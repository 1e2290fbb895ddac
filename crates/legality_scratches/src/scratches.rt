//! The pass that looks for carried scratches, rule 4. The scratches that may be carried are numbered; with each number goes
//! whether some path of a body run reaches the place without an assignment of that scratch.

ghost use Rattle.std.specs.Prelude.{◌≡◌, ◌≢◌, ◌&&◌, not, Err, IfOk, filter, map, replicate};
ghost use Rattle.std.specs.Option.{option_copied};
ghost use Rattle.loop_data.specs.declared.head.Binding.{Binding};
ghost use Rattle.loop_values.specs.NamesIn.{names_read};
ghost use Rattle.legality_rules.specs.Scopes.{is_in};
ghost use Rattle.legality_names.specs.Answers.{leftmost};
ghost use Rattle.legality_scratches.specs.Scans.{block_scanned, branch_scanned, branches_scanned, close, is_open, outer_names};
ghost use Rattle.legality_scratches.specs.Scans.{program_scanned, reads_scanned, statement_scanned, where_either};

use legality_names::{Deed, head_names, is_in, names_done, reads_of, refuse, tower_reads};
use legality_rules::LegalRefusal;
use loop_data::{Binding, Branch, Expr, Many, Statement, TextValue};
use loop_grammar::ProgramTree;
use no_memory::NoMemory;
use std::alloc::Global;

/// Whether the name is one of these scratches, and open.
fn is_open(names: &[TextValue], marks: &[bool], name: &TextValue) -> bool
    ensures { result ≡ is_open names.now marks.now name.now }
{
    for (other, mark) in names.iter().zip(marks.iter()) {
        if name == other {
            return *mark;
        }
    }
    false
}

/// The leftmost of the names that is an open scratch.
fn first_open<'a>(
    names: &[TextValue],
    marks: &[bool],
    used: &'a [TextValue],
) -> Option<&'a TextValue>
    ensures { option_copied result ≡ leftmost (filter (is_open names.now marks.now) used.now) }
{
    for name in used {
        if is_open(names, marks, name) {
            return Some(name);
        }
    }
    None
}

/// Refuses a line that reads an open scratch.
fn scan_reads(
    alloc: Global,
    names: &[TextValue],
    marks: &[bool],
    line: u32,
    used: &[TextValue],
) -> Result<(), LegalRefusal>
    ensures { result ≢ Err LegalRefusal.NoMemory → result ≡ reads_scanned names.now line used.now marks.now }
{
    refuse(alloc, 4, line, first_open(names, marks, used))
}

fn scan_expr(
    alloc: Global,
    names: &[TextValue],
    marks: &[bool],
    line: u32,
    expr: &Expr,
) -> Result<(), LegalRefusal>
    ensures { result ≢ Err LegalRefusal.NoMemory → result ≡ reads_scanned names.now line (names_read expr.now) marks.now }
{
    let used = reads_of(alloc, expr)?;
    scan_reads(alloc, names, marks, line, used.as_slice())
}

/// After an assignment.
fn close(
    alloc: Global,
    names: &[TextValue],
    marks: &[bool],
    name: &TextValue,
) -> Result<Many<bool>, NoMemory>
    ensures { IfOk result (λ o. o ≡ close names.now marks.now name.now) }
{
    let mut closed = Many::new(alloc);
    for (other, mark) in names.iter().zip(marks.iter()) {
        closed.push(alloc, *mark && *other != *name)?;
    }
    Ok(closed)
}

/// So many marks, all of them this.
fn filled(alloc: Global, count: usize, mark: bool) -> Result<Many<bool>, NoMemory>
    ensures { IfOk result (λ o. o ≡ replicate count mark) }
{
    let mut marks = Many::new(alloc);
    for _ in 0..count {
        marks.push(alloc, mark)?;
    }
    Ok(marks)
}

fn copy_open(alloc: Global, marks: &[bool]) -> Result<Many<bool>, NoMemory>
    ensures { IfOk result (λ o. o ≡ marks.now) }
{
    let mut copies = Many::new(alloc);
    for mark in marks {
        copies.push(alloc, *mark)?;
    }
    Ok(copies)
}

/// Where two branches meet.
fn where_either(alloc: Global, left: &[bool], right: &[bool]) -> Result<Many<bool>, NoMemory>
    ensures { IfOk result (λ o. o ≡ where_either left.now right.now) }
{
    let mut met = Many::new(alloc);
    for (mark, other) in left.iter().zip(right.iter()) {
        met.push(alloc, *mark || *other)?;
    }
    Ok(met)
}

/// What is open after a statement, told what is before it; or the first read of an open scratch.
#[cycle(scan)]
fn scan_statement(
    alloc: Global,
    names: &[TextValue],
    marks: Many<bool>,
    statement: &Statement,
) -> Result<Many<bool>, LegalRefusal>
    ensures { result ≢ Err LegalRefusal.NoMemory → result ≡ statement_scanned names.now statement.now marks }
{
    match statement {
        Statement::Let {
            line,
            names: _,
            expr,
        } => {
            scan_expr(alloc, names, marks.as_slice(), *line, expr)?;
            Ok(marks)
        }
        Statement::Set { line, name, expr } => {
            scan_expr(alloc, names, marks.as_slice(), *line, expr)?;
            Ok(close(alloc, names, marks.as_slice(), name)?)
        }
        Statement::If {
            line: _,
            branches,
            else_line: _,
            other,
            end_line: _,
        } => {
            let none = filled(alloc, marks.len(), false)?;
            let out = scan_branches(alloc, names, marks.as_slice(), branches.as_slice(), none)?;
            let after = scan_block(alloc, names, marks, other.as_slice())?;
            Ok(where_either(alloc, out.as_slice(), after.as_slice())?)
        }
        Statement::Keep {
            line,
            name: _,
            expr,
        } => {
            scan_expr(alloc, names, marks.as_slice(), *line, expr)?;
            Ok(marks)
        }
        Statement::Reduce {
            line,
            name: _,
            tower,
            start: _,
        } => {
            let used = tower_reads(alloc, tower)?;
            scan_reads(alloc, names, marks.as_slice(), *line, used.as_slice())?;
            Ok(marks)
        }
        Statement::Continue { line: _ } => Ok(filled(alloc, marks.len(), false)?),
        Statement::Break { line: _ } => Ok(filled(alloc, marks.len(), false)?),
    }
}

/// What is open after these branches of an `if`, told what is before it and what is after the branches left of them.
#[cycle(scan)]
fn scan_branches(
    alloc: Global,
    names: &[TextValue],
    marks: &[bool],
    branches: &[Branch],
    out: Many<bool>,
) -> Result<Many<bool>, LegalRefusal>
    ensures { result ≢ Err LegalRefusal.NoMemory →
        result ≡ branches_scanned (map (branch_scanned names.now) branches.now) marks.now out }
{
    let mut out = out;
    for branch in branches {
        let after = scan_branch(alloc, names, marks, branch)?;
        out = where_either(alloc, out.as_slice(), after.as_slice())?;
    }
    Ok(out)
}

#[cycle(scan)]
fn scan_branch(
    alloc: Global,
    names: &[TextValue],
    marks: &[bool],
    branch: &Branch,
) -> Result<Many<bool>, LegalRefusal>
    ensures { result ≢ Err LegalRefusal.NoMemory → result ≡ branch_scanned names.now branch.now marks.now }
{
    scan_expr(alloc, names, marks, branch.line, &branch.test)?;
    let inside = copy_open(alloc, marks)?;
    scan_block(alloc, names, inside, branch.block.as_slice())
}

#[cycle(scan)]
fn scan_block(
    alloc: Global,
    names: &[TextValue],
    marks: Many<bool>,
    block: &[Statement],
) -> Result<Many<bool>, LegalRefusal>
    ensures { result ≢ Err LegalRefusal.NoMemory → result ≡ block_scanned (map (statement_scanned names.now) block.now) marks }
{
    let mut marks = marks;
    for statement in block {
        marks = scan_statement(alloc, names, marks, statement)?;
    }
    Ok(marks)
}

/// The names that the lines before the `@init` lines bind.
fn outer_names(alloc: Global, program: &ProgramTree) -> Result<Many<TextValue>, NoMemory>
    ensures { IfOk result (λ names. names ≡ outer_names program.now) }
{
    let mut names = head_names(alloc, &program.head)?;
    for binding in program.vars.as_slice() {
        names.push(alloc, binding.name.copy(alloc)?)?;
    }
    Ok(names)
}

/// The scratches that may be carried: those that some line assigns.
fn carriable(
    alloc: Global,
    scratch: &[Binding],
    assigned: &[TextValue],
    outer: &[TextValue],
) -> Result<Many<TextValue>, NoMemory>
    ensures { IfOk result (λ names. names ≡
        filter (λ n. is_in assigned.now n && not (is_in outer.now n)) (map (λ (b : Binding). b.name) scratch.now)) }
{
    let mut names = Many::new(alloc);
    for binding in scratch {
        if is_in(assigned, &binding.name) && !is_in(outer, &binding.name) {
            names.push(alloc, binding.name.copy(alloc)?)?;
        }
    }
    Ok(names)
}

/// Tries the fourth rule on the lines of a program.
pub fn check_scratches(alloc: Global, program: &ProgramTree) -> Result<(), LegalRefusal>
    ensures { result ≢ Err LegalRefusal.NoMemory → result ≡ program_scanned program.now }
{
    let body = program.body.as_slice();
    let assigned = names_done(alloc, Deed::Assigns, body)?;
    let outer = outer_names(alloc, program)?;
    let names = carriable(
        alloc,
        program.scratch.as_slice(),
        assigned.as_slice(),
        outer.as_slice(),
    )?;
    let marks = filled(alloc, names.len(), true)?;
    scan_block(alloc, names.as_slice(), marks, body)?;
    Ok(())
}
