//! Why data files are no table.

use crate::read::DATA_FILE_LIMIT;
use column_input::TableRefusal;
use std::fmt;

/// Which of a call's data files it is.
#[derive(Clone, Copy, Debug, PartialEq, Eq)]
pub enum DataFile {
    /// The only one.
    Only,
    /// One of several, by its number, from 1.
    OneOf(u64),
}

/// Why a data file is refused.
#[derive(Clone, Copy, Debug, PartialEq, Eq)]
pub enum DataRefusal {
    /// It has over 67,108,864 bytes.
    TooLong(DataFile),
    /// Its records are no table, or don't go on with the table of the files before.
    NoTable(DataFile, TableRefusal),
}

/// Why there is no table.
#[derive(Clone, Copy, Debug, PartialEq, Eq)]
pub enum DataStop {
    /// A read failed, and the count of faults rose.
    Failed,
    /// A file isn't held.
    NotHeld,
    /// A file is refused.
    Refused(DataRefusal),
    /// Memory ran out.
    NoMemory,
}

/// The refusal as the program is to write it, as `data: no header`, and of one of several files `data file 2: no header`.
impl fmt::Display for DataRefusal {
    ghost use Rattle.std.specs.Prelude.{Some};
    ghost use Rattle.data_files.specs.Texts.{data_text};

    ghost output = { λ refusal. Some (data_text refusal) };

    fn fmt<W: fmt::Write>(&self, f: &mut fmt::Formatter<W>) -> fmt::Result {
        match *self {
            DataRefusal::TooLong(DataFile::Only) => {
                write!(f, "data file: over {DATA_FILE_LIMIT} bytes")
            }
            DataRefusal::TooLong(DataFile::OneOf(file)) => {
                write!(f, "data file {file}: over {DATA_FILE_LIMIT} bytes")
            }
            DataRefusal::NoTable(DataFile::Only, why) => write!(f, "data: {why}"),
            DataRefusal::NoTable(DataFile::OneOf(file), why) => {
                write!(f, "data file {file}: {why}")
            }
        }
    }
}
