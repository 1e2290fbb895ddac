//! Whole lines.

ghost use Rattle.std.specs.Prelude.{◌≡◌, ◌++◌, ◌∷◌, [], IfOk, OnOk};
ghost use Rattle.scan_lines.specs.Fields.{field_text, next_field, line_text, fields_in};

use super::fields::push_field;
use no_memory::NoMemory;
use std::alloc::Global;

/// A line with its first field. Refused only for want of memory, as all calls here.
pub fn begin_line(alloc: Global, field: &[u8]) -> Result<Vec<u8>, NoMemory>
    ensures { IfOk result (λ line. line.items ≡ field_text field.now) }
{
    let mut line = Vec::new(alloc);
    push_field(&mut line, field)?;
    Ok(line)
}

/// Puts a comma and one field more last. Refused, the line may have some of it.
pub fn add_field(line: &mut Vec<u8>, field: &[u8]) -> Result<(), NoMemory>
    ensures { OnOk result (line.new.items ≡ line.old.items ++ next_field field.now) }
{
    line.push(b',')?;
    push_field(line, field)
}

/// Ends a line with its LF.
pub fn end_line(line: &mut Vec<u8>) -> Result<(), NoMemory>
    ensures { OnOk result (line.new.items ≡ line.old.items ++ 10 ∷ []) }
{
    line.push(b'\n')?;
    Ok(())
}

/// The line of a field and those after it, with its LF.
pub fn line_of(alloc: Global, first: &[u8], more: &[Vec<u8>]) -> Result<Vec<u8>, NoMemory>
    ensures { IfOk result (λ line. line.items ≡ line_text first.now (fields_in more.now)) }
{
    let mut line = begin_line(alloc, first)?;
    for field in more {
        add_field(&mut line, field.as_slice())?;
    }
    end_line(&mut line)?;
    Ok(line)
}
