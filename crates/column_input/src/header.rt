//! The first record of a file.

ghost use Rattle.std.specs.Prelude.{◌≡◌, ◌≢◌, ◌+◌, ◌<◌, ◌≤◌, ◌∷◌, ℕ, Some, IfOk, OnOk, IfErr, length};
ghost use Rattle.csv.specs.Records.{AllText, fields_of};
ghost use Rattle.column_input.specs.Limits.{max_columns, max_fields};
ghost use Rattle.column_input.specs.Records.{Fields};
ghost use Rattle.column_input.specs.Refusals as spec;
ghost use Rattle.column_input.specs.Refusals.{first_file_refusal, further_file_refusal};
ghost use Rattle.column_input.specs.declared.refusal.TableRefusal.TheVariants as refused;

use crate::MAX_COLUMNS;
use crate::limit::FieldLimit;
use crate::records::{Next, Records};
use crate::refusal::TableRefusal;
use csv::StringRecord;
use std::alloc::Global;

/// Reads the header of a first file, where all files may have `limit` fields.
pub(crate) fn read_header(
    alloc: Global,
    records: &mut Records<'_>,
    limit: u64,
) -> Result<StringRecord, TableRefusal>
    ensures header { IfOk result (λ header. (records.old ≡ fields_of header ∷ records.new)
        × AllText (fields_of header)) }
    ensures some { IfOk result (λ header. 0 < length (fields_of header)) }
    ensures width { IfOk result (λ header. length (fields_of header) ≤ max_columns) }
    ensures fits { IfOk result (λ header. length (fields_of header) ≤ limit) }
    ensures refused { IfErr result (λ refusal. refusal ≢ refused.NoMemory
        → first_file_refusal limit records.old ≡ Some refusal) }
{
    let header = first_record(alloc, records)?;
    let columns = header.len() as u64;
    if columns > MAX_COLUMNS {
        return Err(TableRefusal::TooManyColumns { columns });
    }
    if columns > limit {
        return Err(TableRefusal::TooManyFields { number: 1, limit });
    }
    Ok(header)
}

/// Reads past the header of a further file, which has to be the table's.
pub(crate) fn pass_header(
    alloc: Global,
    header: &StringRecord,
    records: &mut Records<'_>,
    limit: FieldLimit,
) -> Result<(), TableRefusal>
    requires columns { length (fields_of header.now) ≤ max_columns }
    requires limit { limit.before ≤ max_fields }
    ensures same { OnOk result (records.old ≡ fields_of header.now ∷ records.new) }
    ensures text { OnOk result (AllText (fields_of header.now)) }
    ensures fits { OnOk result (limit.before + length (fields_of header.now) ≤ limit.most) }
    ensures refused { IfErr result (λ refusal. refusal ≢ refused.NoMemory
        → further_file_refusal limit.most limit.before (fields_of header.now) records.old ≡ Some refusal) }
{
    let fields = first_record(alloc, records)?;
    if let Some(field) = first_difference(header, &fields) {
        return Err(TableRefusal::HeaderDiffers { field });
    }
    if limit.is_over(header.len() as u64) {
        return Err(TableRefusal::TooManyFields {
            number: 1,
            limit: limit.most,
        });
    }
    Ok(())
}

/// Reads the first record of a file.
fn first_record(alloc: Global, records: &mut Records<'_>) -> Result<StringRecord, TableRefusal>
    ensures first { IfOk result (λ header. (records.old ≡ fields_of header ∷ records.new)
        × AllText (fields_of header)) }
    ensures some { IfOk result (λ header. 0 < length (fields_of header)) }
    ensures refused { IfErr result (λ refusal. refusal ≢ refused.NoMemory
        → (limit before : ℕ) (names : Fields) → (first_file_refusal limit records.old ≡ Some refusal)
        × (further_file_refusal limit before names records.old ≡ Some refusal)) }
{
    let mut header = StringRecord::new(alloc);
    match records.next(&mut header)? {
        Next::End => Err(TableRefusal::NoHeader),
        Next::NotUtf8 => Err(TableRefusal::NotUtf8 { number: 1 }),
        Next::Record => Ok(header),
    }
}

/// The first place, from 1, where two lists of fields differ, if they do.
fn first_difference(names: &StringRecord, fields: &StringRecord) -> Option<u64>
    ensures { result ≡ spec.first_difference (fields_of names.now) (fields_of fields.now) }
{
    for place in 0..names.len().max(fields.len()) {
        if names.get(place) != fields.get(place) {
            return Some(place as u64 + 1);
        }
    }
    None
}
