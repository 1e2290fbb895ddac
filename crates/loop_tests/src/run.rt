//! Reads a loop and its data, runs the plain loop, and says its end as a text.

use column_input::Table;
use loop_data::Value;
use loop_meaning::{ItemList, PlainEnd, PlainStop, items_of, run_plain};
use loop_syntax::{Program, read_program};
use std::alloc::{AllocError, Global};
use std::process::Abort;
use std::test::Fail;

/// A loop, its data file (empty where it reads none), and its end.
pub type Row = (&'static str, &'static str, &'static str);

/// The program that a text spells.
pub fn read(alloc: Global, text: &str) -> Result<Program, Fail> {
    if text.len() > 65536 {
        return Err(Fail::from("too long"));
    }
    Ok(read_program(alloc, text.as_bytes()).map_err(|_| "no program")?)
}

/// The table of one file, or the table without columns where there is no file.
pub fn table_of(alloc: Global, data: &str) -> Result<Table, Fail> {
    if data.is_empty() {
        return Ok(Table::empty(alloc));
    }
    Ok(Table::read(alloc, data.as_bytes()).map_err(|_| "no table")?)
}

/// Values, a space between two.
pub fn values(alloc: Global, list: &[Value]) -> Result<String, AllocError> {
    let mut out = String::new(alloc);
    for (i, value) in list.iter().enumerate() {
        if i > 0 {
            out.push_str(" ")?;
        }
        write!(out, "{value}")?;
    }
    Ok(out)
}

fn push_stop(out: &mut String, stop: PlainStop) -> Result<(), AllocError> {
    match stop {
        PlainStop::Ran => out.push_str("ran"),
        PlainStop::Break { at, line } => write!(out, "break {at} {line}"),
        PlainStop::Fault { at, line, kind } => write!(out, "fault {at} {line} {kind}"),
    }
}

/// `ran`, `break PLACE LINE` or `fault PLACE LINE KIND`; then `; NAME: INPUTS` for each reducer; then `; skipped N`, where faults
/// were skipped.
fn shown(alloc: Global, end: &PlainEnd) -> Result<String, AllocError> {
    let mut out = String::new(alloc);
    push_stop(&mut out, end.stop)?;
    for named in end.inputs.as_slice() {
        let name = named.name.as_str();
        let inputs = values(alloc, named.list.as_slice())?;
        write!(out, "; {name}: {inputs}")?;
    }
    if end.skipped > 0 {
        let skipped = end.skipped;
        write!(out, "; skipped {skipped}")?;
    }
    Ok(out)
}

/// The end of a program's plain loop over these items.
pub fn end_of(alloc: Global, program: &Program, items: &ItemList) -> Result<String, Fail> {
    let end = run_plain(alloc, program, items)?;
    Ok(shown(alloc, &end)?)
}

/// The end of a program's plain loop over a table.
pub fn run_over(alloc: Global, program: &Program, table: &Table) -> Result<String, Fail> {
    let items = items_of(alloc, program, table)?;
    end_of(alloc, program, &items)
}

/// The end of a loop.
fn run(alloc: Global, text: &str, data: &str) -> Result<String, Fail> {
    let program = read(alloc, text)?;
    let table = table_of(alloc, data)?;
    run_over(alloc, &program, &table)
}

/// Checks that each loop has the wanted end.
pub fn check(rt: &impl Abort, alloc: Global, rows: &[Row]) -> Result<(), Fail> {
    for (text, data, wanted) in rows {
        let got = run(alloc, text, data)?;
        assert_eq!(rt; got.as_str(), *wanted, "{text}");
    }
    Ok(())
}
