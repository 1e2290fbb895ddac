//! One field of a line.

ghost use Rattle.std.specs.Prelude.{◌≡◌, ◌++◌, OnOk};
ghost use Rattle.scan_lines.specs.Fields.{asks_quotes, needs_quotes, quoted_byte, quoted_bytes, field_text};

use no_memory::NoMemory;

/// Whether a byte makes its field stand between quotes.
fn asks_quotes(byte: u8) -> bool
    ensures { result ≡ asks_quotes byte }
{
    byte == b',' || byte == b'"' || byte == b'\r' || byte == b'\n'
}

/// Whether a field stands between quotes.
fn needs_quotes(field: &[u8]) -> bool
    ensures { result ≡ needs_quotes field.now }
{
    for byte in field {
        if asks_quotes(*byte) {
            return true;
        }
    }
    false
}

/// Puts a byte of a field between quotes last: a double quote twice.
fn push_quoted(line: &mut Vec<u8>, byte: u8) -> Result<(), NoMemory>
    ensures { OnOk result (line.new.items ≡ line.old.items ++ quoted_byte byte) }
{
    if byte == b'"' {
        line.push(b'"')?;
    }
    line.push(byte)?;
    Ok(())
}

/// Puts the bytes of a field between quotes last.
fn push_all_quoted(line: &mut Vec<u8>, field: &[u8]) -> Result<(), NoMemory>
    ensures { OnOk result (line.new.items ≡ line.old.items ++ quoted_bytes field.now) }
{
    for byte in field {
        push_quoted(line, *byte)?;
    }
    Ok(())
}

/// Puts a field last, between quotes where it must be. Refused only for want of memory; the line may then have some of it.
pub fn push_field(line: &mut Vec<u8>, field: &[u8]) -> Result<(), NoMemory>
    ensures { OnOk result (line.new.items ≡ line.old.items ++ field_text field.now) }
{
    if !needs_quotes(field) {
        line.extend_from_slice(field)?;
        return Ok(());
    }
    line.push(b'"')?;
    push_all_quoted(line, field)?;
    line.push(b'"')?;
    Ok(())
}
