//! Data files read into a table.

ghost use Rattle.std.specs.Prelude.{◌≡◌, ◌≢◌, ◌<◌, ◌≤◌, ◌+◌, Ok, Err, OnOk, IfErr, IfSome, length};
ghost use Rattle.std.specs.FinMap.{get};
ghost use Rattle.edge_io.specs.Counts.{counted, counted_times, RoseByOne};
ghost use Rattle.data_files.specs.declared.stop.DataStop.TheVariants as stop;
ghost use Rattle.data_files.specs.Tables.{names_seen, of_table, file_taken, file_at, data_table};

use crate::{DataFile, DataRefusal, DataStop};
use column_input::{Table, TableRefusal};
use edge_io::{Files, ReadStop};
use std::alloc::Global;

/// The most bytes of a data file.
pub(crate) const DATA_FILE_LIMIT: u64 = 67108864;

/// What is told of the table's refusal, if there is one.
fn refusal_of(which: DataFile, why: TableRefusal) -> DataStop
    ensures { result ≡ of_table which why }
{
    match why {
        TableRefusal::NoMemory => DataStop::NoMemory,
        _ => DataStop::Refused(DataRefusal::NoTable(which, why)),
    }
}

/// Reads one file and takes it into the table of the files before it.
fn read_file<F: Files>(
    alloc: Global,
    which: DataFile,
    name: &str,
    files: &mut F,
    table: &mut Table,
) -> Result<(), DataStop>
    ensures table { IfSome (F.held files.old) (λ held.
        OnOk result (file_taken which table.old (get held name.now) ≡ Ok table.new)) }
    ensures refused { IfSome (F.held files.old) (λ held.
        IfErr result (λ why. why ≢ stop.Failed → why ≢ stop.NoMemory →
        file_taken which table.old (get held name.now) ≡ Err why)) }
    ensures reads { F.reads files.new ≡ counted (F.reads files.old) }
    ensures failed { result ≡ Err stop.Failed → RoseByOne (F.faults files.old) (F.faults files.new) }
    ensures kept { result ≢ Err stop.Failed → F.faults files.new ≡ F.faults files.old }
    ensures held { F.held files.new ≡ F.held files.old }
{
    let mut bytes = Vec::new(alloc);
    match files.read_named(alloc, name, DATA_FILE_LIMIT, &mut bytes) {
        Ok(()) => match table.append(alloc, &bytes) {
            Ok(()) => Ok(()),
            Err(why) => Err(refusal_of(which, why)),
        },
        Err(ReadStop::TooLong) => Err(DataStop::Refused(DataRefusal::TooLong(which))),
        Err(ReadStop::NotHeld) => Err(DataStop::NotHeld),
        Err(ReadStop::Failed) => Err(DataStop::Failed),
        Err(ReadStop::NoMemory) => Err(DataStop::NoMemory),
    }
}

/// Which file of so many it is that so many stand before.
fn file_at(count: usize, before: usize) -> DataFile
    requires { before < count }
    ensures { result ≡ file_at count before }
{
    if count == 1 {
        DataFile::Only
    } else {
        DataFile::OneOf(before as u64 + 1)
    }
}

/// The table of the data files of these names, which may be none: one read for each name, in order, and what it gives is taken in
/// before the next, up to the first that can't be taken.
///
/// # Errors
///
/// - `Failed` only where the count of faults rose in this call, by one; nothing is read after it.
/// - Else, of the first file that can't be taken: `NotHeld` where it isn't held; `Refused` where it has over 67,108,864 bytes, or
///   where its records are no table or don't go on with the table of the files before. Where what is held isn't told, that a file
///   isn't held is the implementation's word.
/// - `NoMemory` for want of memory.
pub fn read_data<F: Files>(alloc: Global, names: &[&str], files: &mut F) -> Result<Table, DataStop>
    // Where what is held is told, it decides the table or why there is none.
    ensures table { IfSome (F.held files.old) (λ held. result ≢ Err stop.Failed → result ≢ Err stop.NoMemory →
        result ≡ data_table (names_seen names.now) held) }

    // There is one read for each name where there is a table, and else no more.
    ensures each_read { OnOk result (F.reads files.new ≡ counted_times (length names.now) (F.reads files.old)) }
    ensures reads { F.reads files.new ≤ F.reads files.old + length names.now }

    // A failed read is told by the count of faults, which no other answer moves; none is tried again.
    ensures failed { result ≡ Err stop.Failed → RoseByOne (F.faults files.old) (F.faults files.new) }
    ensures kept { result ≢ Err stop.Failed → F.faults files.new ≡ F.faults files.old }

    // No read changes what is held, or whether it is told.
    ensures held { F.held files.new ≡ F.held files.old }
{
    let mut table = Table::empty(alloc);
    for (before, name) in names.iter().enumerate() {
        read_file(alloc, file_at(names.len(), before), name, files, &mut table)?;
    }
    Ok(table)
}
