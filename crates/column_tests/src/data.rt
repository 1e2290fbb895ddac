//! Files in memory read into one table: one, several, and files that fail.

use data_files::{DataStop, read_data};
use edge_io::{Files, MemoryFiles};
use std::alloc::{AllocError, Global};
use std::process::Abort;
use std::test::Fail;

/// The names of the data files.
static NAMES: [&str; 3] = ["1", "2", "3"];

/// Files that hold these data files, parted by `|`, as `1`, `2` and so on.
fn files_of(alloc: Global, data: &str) -> Result<MemoryFiles, Fail> {
    let mut files = MemoryFiles::new(alloc);
    for (name, bytes) in NAMES.iter().zip(data.split('|')) {
        files.add(alloc, name, bytes.as_bytes())?;
    }
    Ok(files)
}

/// How many rows and files the table has, or why there is none.
fn shown<F: Files>(alloc: Global, names: &[&str], files: &mut F) -> Result<String, AllocError> {
    match read_data(alloc, names, files) {
        Ok(table) => {
            let (rows, files) = (table.rows(), table.files());
            format!(in alloc; "{rows} rows, {files} files")
        }
        Err(DataStop::Refused(why)) => format!(in alloc; "{why}"),
        Err(DataStop::NotHeld) => String::from_str(alloc, "not held"),
        Err(DataStop::Failed) => String::from_str(alloc, "failed"),
        Err(DataStop::NoMemory) => String::from_str(alloc, "out of memory"),
    }
}

/// Data files, parted by `|`, which are held as `1`, `2` and so on; and what reading them says.
type Row = (&'static str, &'static str);

/// Each row's files, as many of them as these names say, are what the row says.
fn check(rt: &impl Abort, alloc: Global, names: &[&str], rows: &[Row]) -> Result<(), Fail> {
    for (data, wanted) in rows {
        let mut files = files_of(alloc, data)?;
        let given = shown(alloc, names, &mut files)?;
        assert_eq!(rt; given.as_str(), *wanted);
    }
    Ok(())
}

static ONE: [Row; 6] = [
    ("v\n1\n2\n", "2 rows, 1 files"),
    ("v", "0 rows, 1 files"),
    ("", "data: no header"),
    ("a,b\n1,2\n3\n", "data: record 3: 1 fields, header has 2"),
    // only the files that are named are read
    ("v\n1\n|w\n2\n", "1 rows, 1 files"),
    ("\u{feff}v\r\n1\r\n", "1 rows, 1 files"),
];

#[test]
fn one_file(rt: HostRuntime) -> Result<(), Fail> {
    check(&rt, rt.alloc(), &["1"], &ONE)
}

static TWO: [Row; 7] = [
    ("v\n1\n2\n|v\r\n3\r\n", "3 rows, 2 files"),
    ("v\n|v\n", "0 rows, 2 files"),
    (
        "v\n1\n|v,w\n2,3\n",
        "data file 2: header differs at field 2",
    ),
    ("v\n1\n|", "data file 2: no header"),
    // a file is looked at only where all before it were taken
    ("|v\n1\n", "data file 1: no header"),
    (
        "v\n1,2\n|w\n",
        "data file 1: record 2: 2 fields, header has 1",
    ),
    ("v\n1\n", "not held"),
];

#[test]
fn two_files(rt: HostRuntime) -> Result<(), Fail> {
    check(&rt, rt.alloc(), &["1", "2"], &TWO)
}

#[test]
fn no_files_and_one_twice(rt: HostRuntime) -> Result<(), Fail> {
    check(&rt, rt.alloc(), &[], &[("v\n1\n", "0 rows, 0 files")])?;
    check(
        &rt,
        rt.alloc(),
        &["1", "2", "1"],
        &[("v\n1\n|v\n2\n3\n", "4 rows, 3 files")],
    )
}

/// The read that fails, and what is told.
static FAILED: [(u64, &str); 3] = [(1, "failed"), (2, "failed"), (3, "2 rows, 2 files")];

#[test]
fn reads_that_fail(rt: HostRuntime) -> Result<(), Fail> {
    let alloc = rt.alloc();
    for (read, wanted) in &FAILED {
        let mut files = files_of(alloc, "v\n1\n|v\n2\n")?;
        files.fail_at(alloc, *read)?;
        let given = shown(alloc, &["1", "2"], &mut files)?;
        assert_eq!(rt; given.as_str(), *wanted);
    }
    Ok(())
}
