//! Why bytes are no table.

ghost use Rattle.std.specs.Prelude.{◌≡◌};
ghost use Rattle.column_input.specs.declared.refusal.TableRefusal.TheVariants as refused;

use no_memory::NoMemory;
use std::alloc::{AllocError, AllocFailed};
use std::fmt;

/// Why a file is no table, or no further file of one. Records are counted from 1 within the file, its header being 1.
///
/// Of `NotUtf8` to `TooManyFields` the one of the least record comes, and within a record the one that stands first here.
#[derive(Clone, Copy, Debug, PartialEq, Eq)]
pub enum TableRefusal {
    /// There is no record at all.
    NoHeader,
    /// A field of the record isn't UTF-8.
    NotUtf8 {
        /// The record.
        number: u64,
    },
    /// The first record of a further file isn't the table's header.
    HeaderDiffers {
        /// The first place, from 1, where the two differ: a field that is another, or the one after the end of the shorter.
        field: u64,
    },
    /// The record has another number of fields than the header.
    Ragged {
        /// The record.
        number: u64,
        /// How many fields it has.
        fields: u64,
        /// How many fields the header has.
        header: u64,
    },
    /// The header has over 1,024 fields.
    TooManyColumns {
        /// How many fields it has.
        columns: u64,
    },
    /// The records up to and with this one, those of the files before among them, have more fields together than the limit:
    /// 16,777,216, or the one that the call was given.
    TooManyFields {
        /// The record.
        number: u64,
        /// The limit.
        limit: u64,
    },
    /// Memory ran out.
    NoMemory,
}

/// The refusal as a text, as `record 2: not UTF-8`. It doesn't say which file it is of.
impl fmt::Display for TableRefusal {
    ghost use Rattle.std.specs.Prelude.{Some};
    ghost use Rattle.column_input.specs.Text.{refusal_text};

    ghost output = { λ refusal. Some (refusal_text refusal) };

    fn fmt<W: fmt::Write>(&self, f: &mut fmt::Formatter<W>) -> fmt::Result {
        match *self {
            TableRefusal::NoHeader => f.write_str("no header"),
            TableRefusal::NotUtf8 { number } => write!(f, "record {number}: not UTF-8"),
            TableRefusal::HeaderDiffers { field } => write!(f, "header differs at field {field}"),
            TableRefusal::Ragged {
                number,
                fields,
                header,
            } => write!(f, "record {number}: {fields} fields, header has {header}"),
            TableRefusal::TooManyColumns { columns } => {
                write!(f, "{columns} columns, at most 1024")
            }
            TableRefusal::TooManyFields { number: _, limit } => write!(f, "over {limit} fields"),
            TableRefusal::NoMemory => f.write_str("out of memory"),
        }
    }
}

impl From<NoMemory> for TableRefusal {
    ghost from_gives = { λ _ refusal. refusal ≡ refused.NoMemory };

    fn from(_error: NoMemory) -> TableRefusal {
        TableRefusal::NoMemory
    }
}

impl From<AllocError> for TableRefusal {
    ghost from_gives = { λ _ refusal. refusal ≡ refused.NoMemory };

    fn from(_error: AllocError) -> TableRefusal {
        TableRefusal::NoMemory
    }
}

impl<T: Drop> From<AllocFailed<T>> for TableRefusal {
    ghost from_gives = { λ _ refusal. refusal ≡ refused.NoMemory };

    fn from(_error: AllocFailed<T>) -> TableRefusal {
        TableRefusal::NoMemory
    }
}
