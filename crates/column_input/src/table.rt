//! A table.

ghost use Rattle.std.specs.Prelude.{◌≡◌, ◌≢◌, ◌+◌, ◌-◌, ◌<◌, ◌≤◌, ◌∷◌, [], Ok, Err, Some, IfOk, OnOk, IfErr, OnErr, IfSome};
ghost use Rattle.std.specs.Prelude.{IsSome, Contains, ◌↔◌, length, slice_get};
ghost use Rattle.column_input.specs.Chunk.{cell_at};
ghost use Rattle.column_input.specs.Limits.{max_fields};
ghost use Rattle.column_input.specs.Table.{appended, appended_within, column_of, contents, further_table_within, table_of};
ghost use Rattle.column_input.specs.Table.{table_within};
ghost use Rattle.column_input.specs.declared.refusal.TableRefusal.TheVariants as refused;

use crate::MAX_FIELDS;
use crate::chunk::Chunk;
use crate::column::Column;
use crate::header::{pass_header, read_header};
use crate::limit::FieldLimit;
use crate::records::Records;
use crate::refusal::TableRefusal;
use csv::StringRecord;
use std::alloc::Global;
use std::marker::Model;

/// The header and the rows of CSV files: texts, each row with one for each column.
#[derive(Drop)]
pub struct Table {
    header: StringRecord,
    /// The rows of each file.
    chunks: Vec<Chunk>,
    /// How many rows all files have.
    rows: u64,
}

impl Model for Table {
    ghost use Rattle.std.specs.Prelude.{length};
    ghost use Rattle.csv.specs.Records.{fields_of};
    ghost use Rattle.column_input.specs.Chunk.{joined};
    ghost use Rattle.column_input.specs.Kept.{IsKept};
    ghost use Rattle.column_input.specs.Table.{Contents, contents};

    ghost Value = { Contents };

    ghost view = { λ a. contents (fields_of a.header) (joined a.chunks.items) (length a.chunks.items) };

    ghost invariant = { λ a. IsKept (fields_of a.header) a.chunks.items a.rows };
}

impl Table {
    /// A table with no column and no row, of no file.
    pub fn empty(alloc: Global) -> Table
        ensures { result ≡ contents [] [] 0 }
    {
        Table {
            header: StringRecord::new(alloc),
            chunks: Vec::new(alloc),
            rows: 0,
        }
    }

    /// The table of a file with these bytes: their records by RFC 4180, the first of which is the header. Lines end in CR, LF or
    /// both; one byte-order mark is dropped at the very start.
    ///
    /// # Errors
    ///
    /// The first refusal of the records, or [`TableRefusal::NoMemory`].
    pub fn read(alloc: Global, bytes: &[u8]) -> Result<Table, TableRefusal>
        ensures table { result ≢ Err refused.NoMemory → result ≡ table_of (bytes.now ∷ []) }
        ensures files { IfOk result (λ table. table.files ≡ 1) }
    {
        Table::read_within(alloc, bytes, MAX_FIELDS)
    }

    /// The same, where all files together may have `limit` fields, headers included.
    ///
    /// # Errors
    ///
    /// Those of [`Table::read`], by this limit.
    pub fn read_within(alloc: Global, bytes: &[u8], limit: u64) -> Result<Table, TableRefusal>
        requires limit { limit ≤ max_fields }
        ensures table { result ≢ Err refused.NoMemory → result ≡ table_within limit (bytes.now ∷ []) }
        ensures files { IfOk result (λ table. table.files ≡ 1) }
    {
        let mut records = Records::new(alloc, bytes)?;
        let header = read_header(alloc, &mut records, limit)?;
        let limit = FieldLimit {
            before: 0,
            most: limit,
        };
        let chunk = Chunk::read(alloc, header.len(), bytes.len(), &mut records, limit)?;
        let rows = chunk.rows();
        let mut chunks = Vec::new(alloc);
        chunks.push(chunk)?;
        Ok(Table {
            header,
            chunks,
            rows,
        })
    }

    /// Reads one more file into the table. The first makes the table, as [`Table::read`] does. Of a further one the rows are
    /// those before, followed by the file's records after its header, which has to be the table's. One byte-order mark is
    /// dropped at the file's very start.
    ///
    /// # Errors
    ///
    /// The first refusal of the file's records, or [`TableRefusal::NoMemory`]. The table is as before then.
    pub fn append(&mut self, alloc: Global, bytes: &[u8]) -> Result<(), TableRefusal>
        ensures rows { OnOk result (appended self.old bytes.now ≡ Ok self.new) }
        ensures refused { IfErr result (λ refusal. refusal ≢ refused.NoMemory
            → appended self.old bytes.now ≡ Err refusal) }
        ensures kept { OnErr result (self.new ≡ self.old) }
        ensures files { OnOk result (self.new.files ≡ self.old.files + 1) }
    {
        self.append_within(alloc, bytes, MAX_FIELDS)
    }

    /// The same, where all files together may have `limit` fields, headers included.
    ///
    /// # Errors
    ///
    /// Those of [`Table::append`], by this limit.
    pub fn append_within(
        &mut self,
        alloc: Global,
        bytes: &[u8],
        limit: u64,
    ) -> Result<(), TableRefusal>
        requires limit { limit ≤ max_fields }
        ensures rows { OnOk result (appended_within limit self.old bytes.now ≡ Ok self.new) }
        ensures refused { IfErr result (λ refusal. refusal ≢ refused.NoMemory
            → appended_within limit self.old bytes.now ≡ Err refusal) }
        ensures kept { OnErr result (self.new ≡ self.old) }
        ensures files { OnOk result (self.new.files ≡ self.old.files + 1) }
    {
        if self.files() == 0 {
            *self = Table::read_within(alloc, bytes, limit)?;
            return Ok(());
        }
        self.append_further(alloc, bytes, limit)
    }

    /// Reads a further file into the table of some files.
    fn append_further(
        &mut self,
        alloc: Global,
        bytes: &[u8],
        limit: u64,
    ) -> Result<(), TableRefusal>
        requires read { 0 < self.old.files }
        requires limit { limit ≤ max_fields }
        ensures rows { OnOk result (further_table_within limit self.old bytes.now ≡ Ok self.new) }
        ensures refused { IfErr result (λ refusal. refusal ≢ refused.NoMemory
            → further_table_within limit self.old bytes.now ≡ Err refusal) }
        ensures kept { OnErr result (self.new ≡ self.old) }
        ensures files { OnOk result (self.new.files ≡ self.old.files + 1) }
    {
        let width = self.header.len();
        let limit = FieldLimit {
            before: (self.chunks.len() as u64 + self.rows) * width as u64,
            most: limit,
        };
        let mut records = Records::new(alloc, bytes)?;
        pass_header(alloc, &self.header, &mut records, limit)?;
        let chunk = Chunk::read(alloc, width, bytes.len(), &mut records, limit)?;
        let rows = chunk.rows();
        self.chunks.push(chunk)?;
        self.rows += rows;
        Ok(())
    }

    /// How many files the table was read from.
    pub fn files(&self) -> u64
        ensures { result ≡ self.now.files }
    {
        self.chunks.len() as u64
    }

    /// How many rows there are: the records after each file's header, fewer than 16,777,216.
    pub fn rows(&self) -> u64
        ensures count { result ≡ length self.now.rows }
        ensures bound { result < max_fields }
    {
        self.rows
    }

    /// The first column of this name, if there is one.
    pub fn column(&self, name: &str) -> Option<Column<'_>>
        ensures first { result ≡ column_of self.now name.now }
        ensures found { IsSome result ↔ Contains self.now.header name.now }
        ensures rows { IfSome result (λ column. length column ≡ length self.now.rows) }
    {
        for place in 0..self.header.len() {
            if self.header.get(place) == Some(name) {
                return Some(Column::new(self, place));
            }
        }
        None
    }

    /// The text of a field, by its row and its column from 0.
    pub(crate) fn text(&self, row: u64, column: usize) -> &str
        requires row { row < length self.now.rows }
        requires column { column < length self.now.header }
        ensures { cell_at self.now.rows row column ≡ Some result.now }
    {
        let mut file = 0;
        let mut row = row;
        while row >= self.chunks[file].rows() {
            row -= self.chunks[file].rows();
            file += 1;
        }
        self.chunks[file].text(row, column)
    }
}
