//! The rows of one file.

ghost use Rattle.std.specs.Prelude.{◌≡◌, ◌≢◌, ◌+◌, ◌*◌, ◌<◌, ◌≤◌, ◌++◌, ◌∷◌, [], IfOk, OnOk, MatchResult, Some, Err, length};
ghost use Rattle.std.specs.Prelude.{slice_get, sum_by};
ghost use Rattle.csv.specs.Records.{fields_of};
ghost use Rattle.column_input.specs.Chunk.{cell_at, grid};
ghost use Rattle.column_input.specs.Limits.{max_columns, max_fields};
ghost use Rattle.column_input.specs.Records.{Fields};
ghost use Rattle.column_input.specs.Refusals.{row_refusals};
ghost use Rattle.column_input.specs.declared.refusal.TableRefusal.TheVariants as refused;

use crate::limit::FieldLimit;
use crate::records::{Next, Records};
use crate::refusal::TableRefusal;
use crate::texts::Texts;
use csv::StringRecord;
use no_memory::NoMemory;
use std::alloc::Global;
use std::marker::Model;

/// The rows of one file, each with as many fields as the file has columns.
#[derive(Drop)]
pub(crate) struct Chunk {
    /// The fields of all rows, row after row.
    fields: Texts,
    width: usize,
    count: u64,
}

impl Model for Chunk {
    ghost use Rattle.std.specs.Prelude.{◌≡◌, ◌*◌, ◌≤◌, length};
    ghost use Rattle.column_input.specs.Chunk.{Grid, rows_of};
    ghost use Rattle.column_input.specs.Limits.{max_fields};

    ghost Value = { Grid };

    ghost view = { λ a. record { width = a.width; rows = rows_of a.width a.count a.fields } };

    ghost invariant = { λ a. (length a.fields ≡ a.count * a.width) × (a.count * a.width ≤ max_fields) };
}

impl Chunk {
    /// A chunk with no rows, with room for so many bytes of text.
    fn with_room(alloc: Global, width: usize, bytes: usize) -> Result<Chunk, NoMemory>
        ensures { IfOk result (λ chunk. chunk ≡ grid width []) }
    {
        Ok(Chunk {
            fields: Texts::with_room(alloc, bytes)?,
            width,
            count: 0,
        })
    }

    /// How many rows there are.
    pub(crate) fn rows(&self) -> u64
        ensures { result ≡ length self.now.rows }
    {
        self.count
    }

    /// The text of a field, by its row and its column from 0.
    pub(crate) fn text(&self, row: u64, column: usize) -> &str
        requires row { row < length self.now.rows }
        requires column { column < self.now.width }
        ensures { cell_at self.now.rows row column ≡ Some result.now }
    {
        self.fields.get(row as usize * self.width + column)
    }

    /// Reads the rows after a header of `width` fields, which is record 1. The file has so many bytes.
    pub(crate) fn read(
        alloc: Global,
        width: usize,
        bytes: usize,
        records: &mut Records<'_>,
        limit: FieldLimit,
    ) -> Result<Chunk, TableRefusal>
        requires width { (0 < width) × (width ≤ max_columns) }
        requires limit { (limit.before + width ≤ limit.most) × (limit.most ≤ max_fields) }
        ensures rows { result ≢ Err refused.NoMemory → (header : Fields) → length header ≡ width
            → MatchResult result (λ chunk. (chunk ≡ grid width records.old)
            × (row_refusals limit.most limit.before header records.old ≡ []))
            (λ refusal. slice_get (row_refusals limit.most limit.before header records.old) 0 ≡ Some refusal) }
        ensures even { IfOk result (λ chunk. sum_by length chunk.rows ≡ length chunk.rows * width) }
        ensures bound { IfOk result (λ chunk. limit.before + (length chunk.rows + 1) * width ≤ limit.most) }
    {
        let mut chunk = Chunk::with_room(alloc, width, bytes)?;
        let mut row = StringRecord::new(alloc);
        loop {
            let number = chunk.rows() + 2;
            match records.next(&mut row)? {
                Next::End => {
                    chunk.give_back_room();
                    return Ok(chunk);
                }
                Next::NotUtf8 => return Err(TableRefusal::NotUtf8 { number }),
                Next::Record => {}
            }
            if row.len() != width {
                return Err(TableRefusal::Ragged {
                    number,
                    fields: row.len() as u64,
                    header: width as u64,
                });
            }
            if limit.is_over(number * width as u64) {
                return Err(TableRefusal::TooManyFields {
                    number,
                    limit: limit.most,
                });
            }
            chunk.push(&row)?;
        }
    }

    /// Appends a row. Where memory runs out the rows are given up.
    fn push(&mut self, row: &StringRecord) -> Result<(), NoMemory>
        requires width { length (fields_of row.now) ≡ self.old.width }
        requires limit { (length self.old.rows + 1) * self.old.width ≤ max_fields }
        requires some { 0 < self.old.width }
        ensures { OnOk result (self.new ≡ grid self.old.width (self.old.rows ++ fields_of row.now ∷ [])) }
    {
        if append(&mut self.fields, row).is_err() {
            self.fields.clear();
            self.count = 0;
            return Err(NoMemory);
        }
        self.count += 1;
        Ok(())
    }

    /// Gives back the room that the rows don't take.
    fn give_back_room(&mut self)
        ensures { self.new ≡ self.old }
    {
        self.fields.give_back_room();
    }
}

/// Appends the fields of a row.
fn append(fields: &mut Texts, row: &StringRecord) -> Result<(), NoMemory>
    ensures { OnOk result (fields.new ≡ fields.old ++ fields_of row.now) }
{
    for field in row.iter() {
        fields.push(field)?;
    }
    Ok(())
}
