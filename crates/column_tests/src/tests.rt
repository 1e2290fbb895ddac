//! What no clause says: that ample memory is enough, that the records are those that RFC 4180 and its readers mean, and the
//! texts of refusals as they are read.

mod files;
mod long;
mod one_file;

use column_input::{Table, TableRefusal};
use std::alloc::{AllocError, Global};

/// The table of these files, in order.
fn read_files(alloc: Global, files: &[&[u8]]) -> Result<Table, TableRefusal> {
    let mut table = Table::empty(alloc);
    for file in files {
        table.append(alloc, *file)?;
    }
    Ok(table)
}

/// The texts of a column, a bar before each, or `none`.
fn shown(alloc: Global, table: &Table, name: &str) -> Result<String, AllocError> {
    let mut out = String::new(alloc);
    match table.column(name) {
        Some(column) => {
            for k in 0..table.rows() {
                out.push_str("|")?;
                out.push_str(column.text(k + 1))?;
            }
        }
        None => out.push_str("none")?,
    }
    Ok(out)
}

/// So many lines of so many fields.
fn lines(alloc: Global, count: u64, fields: u64) -> Result<Vec<u8>, AllocError> {
    let mut bytes = Vec::new(alloc);
    for _ in 0..count {
        bytes.extend_from_slice(b"x")?;
        for _ in 1..fields {
            bytes.extend_from_slice(b",x")?;
        }
        bytes.extend_from_slice(b"\n")?;
    }
    Ok(bytes)
}
