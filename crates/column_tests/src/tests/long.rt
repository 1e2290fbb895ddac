//! Long fields, many rows, and what lies across a full buffer of the reader.

use super::shown;
use column_input::Table;
use std::alloc::{AllocError, Global};
use std::test::Fail;

/// How many bytes of the file `csv`'s reader has in its buffer at a time.
const BUFFER: usize = 8192;

/// Some bytes, so many times an `x`, and further bytes.
fn around(alloc: Global, before: &[u8], count: usize, after: &[u8]) -> Result<Vec<u8>, AllocError> {
    let mut bytes = Vec::new(alloc);
    bytes.extend_from_slice(before)?;
    for _ in 0..count {
        bytes.extend_from_slice(b"x")?;
    }
    bytes.extend_from_slice(after)?;
    Ok(bytes)
}

/// What stands before the `x`s of a file, what after them, and what after the `x`s of the column `a`. The first of the bytes
/// after them is the last of the reader's buffer.
static ACROSS: [(&[u8], &[u8], &str); 5] = [
    (b"a\n", b"\r\ny\r\n", "|y"),
    (b"a\n\"", b"\"\"z\"\n", "\"z"),
    (b"a\n\"", b"\"\r\ny\n", "|y"),
    (b"a\n", b"\xC3\xA9\n", "\u{E9}"),
    (b"a\n", b"\xF0\x9F\x98\x80", "\u{1F600}"),
];

#[test]
fn reads_across_a_full_buffer(rt: HostRuntime) -> Result<(), Fail> {
    for case in &ACROSS {
        let (before, after, rest) = *case;
        let count = (BUFFER - 1).saturating_sub(before.len());
        let bytes = around(rt.alloc(), before, count, after)?;
        let table = Table::read(rt.alloc(), bytes.as_slice())
            .ok()
            .expect(&rt, "a table");
        let want = around(rt.alloc(), b"|", count, rest.as_bytes())?;
        let got = shown(rt.alloc(), &table, "a")?;
        assert_eq!(rt; got.as_bytes(), want.as_slice(), "{after:?}");
    }
    Ok(())
}

#[test]
fn reads_a_quoted_field_that_is_longer_than_a_buffer(rt: HostRuntime) -> Result<(), Fail> {
    let bytes = around(rt.alloc(), b"a,b\n\"1,\n", 3 * BUFFER, b"\",2\n")?;
    let table = Table::read(rt.alloc(), bytes.as_slice())
        .ok()
        .expect(&rt, "a table");
    let want = around(rt.alloc(), b"|1,\n", 3 * BUFFER, b"")?;
    assert_eq!(rt; shown(rt.alloc(), &table, "a")?.as_bytes(), want.as_slice());
    assert_eq!(rt; shown(rt.alloc(), &table, "b")?.as_str(), "|2");
    Ok(())
}

/// A file of so many rows: a letter with the row's place, and its place.
fn numbered(alloc: Global, rows: u64) -> Result<Vec<u8>, AllocError> {
    let mut bytes = Vec::new(alloc);
    bytes.extend_from_slice(b"name,place\n")?;
    for k in 0..rows {
        let line = format!(in alloc; "r{k},{k}\n")?;
        bytes.extend_from_slice(line.as_bytes())?;
    }
    Ok(bytes)
}

#[test]
fn holds_each_cell_of_many_rows(rt: HostRuntime) -> Result<(), Fail> {
    let bytes = numbered(rt.alloc(), 100_000)?;
    let table = Table::read(rt.alloc(), bytes.as_slice())
        .ok()
        .expect(&rt, "a table");
    assert_eq!(rt; table.rows(), 100_000);
    for k in 0..table.rows() {
        let want = format!(in rt.alloc(); "r{k},{k}")?;
        let mut got = String::new(rt.alloc());
        if let Some(column) = table.column("name") {
            got.push_str(column.text(k + 1))?;
        }
        got.push_str(",")?;
        if let Some(column) = table.column("place") {
            got.push_str(column.text(k + 1))?;
        }
        assert_eq!(rt; got.as_str(), want.as_str());
    }
    Ok(())
}
