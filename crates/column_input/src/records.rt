//! The records of a text, one after another.

ghost use Rattle.std.specs.Prelude.{◌≡◌, ◌<◌, ◌∷◌, [], IfOk, Ok, length};
ghost use Rattle.csv.specs.Records.{AllText, fields_of};
ghost use Rattle.column_input.specs.Records.{StartsNotUtf8, records_of};

use csv::{ErrorKind, Reader, ReaderBuilder, StringRecord};
use no_memory::NoMemory;
use std::alloc::Global;
use std::marker::Model;

/// What the next read gave.
#[derive(Clone, Copy, Debug, PartialEq, Eq)]
pub(crate) enum Next {
    /// A record, each field of which is UTF-8.
    Record,
    /// A record with a field that isn't UTF-8.
    NotUtf8,
    /// The end of the text.
    End,
}

/// The records of a text that are still to be read.
#[derive(Drop)]
pub(crate) struct Records<'a> {
    reader: Reader<&'a [u8]>,
    /// Whether the text has ended or a read was refused, so that no record is left.
    ended: bool,
}

impl<'a> Model for Records<'a> {
    ghost use Rattle.std.specs.Prelude.{◌≡◌, ℕ, List, [], false, if◌then◌else◌};

    ghost Value = { List (List (List ℕ)) };

    ghost use Rattle.column_input.specs.RecordsInside.{left_of, IsPlain};

    ghost view = { λ a. if a.ended then [] else left_of a.reader };

    ghost invariant = { λ a. a.ended ≡ false → IsPlain a.reader };
}

impl<'a> Records<'a> {
    /// All records of these bytes.
    pub(crate) fn new(alloc: Global, bytes: &'a [u8]) -> Result<Records<'a>, NoMemory>
        ensures { IfOk result (λ records. records ≡ records_of bytes.now) }
    {
        let mut reader = ReaderBuilder::new()
            .flexible(true)
            .from_reader(alloc, bytes);
        // A reader that was given a header row takes the first record as it comes, and keeps no copy of it.
        match reader.set_headers(StringRecord::new(alloc)) {
            Ok(()) => Ok(Records {
                reader,
                ended: false,
            }),
            Err(_) => Err(NoMemory),
        }
    }

    /// Reads the next record into `into`. After the end and after a refusal no record is left.
    // A slice has no reads that fail, but `csv` doesn't promise so: such a failure counts as want of memory.
    pub(crate) fn next(&mut self, into: &mut StringRecord) -> Result<Next, NoMemory>
        ensures first { result ≡ Ok Next.Record → self.old ≡ fields_of into.new ∷ self.new }
        ensures text { result ≡ Ok Next.Record → AllText (fields_of into.new) }
        ensures some { result ≡ Ok Next.Record → 0 < length (fields_of into.new) }
        ensures not_utf8 { result ≡ Ok Next.NotUtf8 → StartsNotUtf8 self.old }
        ensures end { result ≡ Ok Next.End → self.old ≡ [] }
    {
        if self.ended {
            return Ok(Next::End);
        }
        match self.reader.read_record(into) {
            Ok(true) => Ok(Next::Record),
            Ok(false) => {
                self.ended = true;
                Ok(Next::End)
            }
            Err(error) => {
                self.ended = true;
                match error.kind() {
                    ErrorKind::Utf8 { .. } => Ok(Next::NotUtf8),
                    _ => Err(NoMemory),
                }
            }
        }
    }
}
