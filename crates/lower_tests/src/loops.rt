//! Legal programs and tables of texts.

use column_input::Table;
use legality_check::{LegalProgram, check_program};
use loop_syntax::read_program;
use std::alloc::Global;
use std::test::Fail;

/// The legal program that a text spells.
pub fn legal(alloc: Global, text: &str) -> Result<LegalProgram, Fail> {
    if text.len() > 65536 {
        return Err(Fail::from("too long"));
    }
    let program = read_program(alloc, text.as_bytes()).map_err(|_| "no program")?;
    Ok(check_program(alloc, program).map_err(|_| "not legal")?)
}

/// The table of one file, or the table without columns where there is no file.
pub fn table_of(alloc: Global, data: &str) -> Result<Table, Fail> {
    if data.is_empty() {
        return Ok(Table::empty(alloc));
    }
    Ok(Table::read(alloc, data.as_bytes()).map_err(|_| "no table")?)
}
