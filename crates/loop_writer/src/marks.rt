//! Tokens, with a space before them where one is asked for.

ghost use Rattle.std.specs.Prelude.{◌≡◌, [], ◌∷◌, ◌++◌, OnOk, if◌then◌else◌};
ghost use Rattle.loop_tokens.specs.declared.token.Token.TheVariants as tok;
ghost use Rattle.loop_tokens.specs.Literals.{escaped, escaped_byte};
ghost use Rattle.loop_layout.specs.Canonical.{first, bool_word, int_marks, value_marks};
ghost use Rattle.loop_writer.specs.Writing.{Writes};

use itoa::Buffer;
use loop_data::Value;
use loop_tokens::{AtWord, Keyword, Sign};
use no_memory::NoMemory;

fn write_space(out: &mut Vec<u8>, apart: bool) -> Result<(), NoMemory>
    ensures { OnOk result (out.new.items ≡ out.old.items ++ (if apart then 32 ∷ [] else [])) }
{
    if apart {
        out.push(b' ')?;
    }
    Ok(())
}

/// The characters of a token.
pub(crate) fn write_token(out: &mut Vec<u8>, text: &str, apart: bool) -> Result<(), NoMemory>
    ensures { OnOk result (
        out.new.items ≡ out.old.items ++ (if apart then 32 ∷ text.now else text.now)) }
{
    write_space(out, apart)?;
    out.extend_from_slice(text.as_bytes())?;
    Ok(())
}

pub(crate) fn write_keyword(out: &mut Vec<u8>, word: Keyword, apart: bool) -> Result<(), NoMemory>
    ensures { OnOk result (Writes out.old out.new (first apart (tok.Keyword word) ∷ [])) }
{
    write_token(out, word.text(), apart)
}

pub(crate) fn write_at_word(out: &mut Vec<u8>, word: AtWord, apart: bool) -> Result<(), NoMemory>
    ensures { OnOk result (Writes out.old out.new (first apart (tok.At word) ∷ [])) }
{
    write_token(out, word.text(), apart)
}

pub(crate) fn write_sign(out: &mut Vec<u8>, sign: Sign, apart: bool) -> Result<(), NoMemory>
    ensures { OnOk result (Writes out.old out.new (first apart (tok.Sign sign) ∷ [])) }
{
    write_token(out, sign.text(), apart)
}

pub(crate) fn write_name(out: &mut Vec<u8>, name: &str, apart: bool) -> Result<(), NoMemory>
    ensures { OnOk result (Writes out.old out.new (first apart (tok.Name name.now) ∷ [])) }
{
    write_token(out, name, apart)
}

fn write_escaped_byte(out: &mut Vec<u8>, b: u8) -> Result<(), NoMemory>
    ensures { OnOk result (out.new.items ≡ out.old.items ++ escaped_byte b) }
{
    match b {
        b'"' => out.extend_from_slice(b"\\\"")?,
        b'\\' => out.extend_from_slice(b"\\\\")?,
        b'\n' => out.extend_from_slice(b"\\n")?,
        b'\t' => out.extend_from_slice(b"\\t")?,
        _ => out.extend_from_slice(&[b])?,
    }
    Ok(())
}

fn write_escaped(out: &mut Vec<u8>, text: &[u8]) -> Result<(), NoMemory>
    ensures { OnOk result (out.new.items ≡ out.old.items ++ escaped text.now) }
{
    for b in text {
        write_escaped_byte(out, *b)?;
    }
    Ok(())
}

/// A text literal, with its quotes and escapes.
pub(crate) fn write_text(out: &mut Vec<u8>, text: &str, apart: bool) -> Result<(), NoMemory>
    ensures { OnOk result (
        Writes out.old out.new (first apart (tok.Text (escaped text.now)) ∷ [])) }
{
    write_token(out, "\"", apart)?;
    write_escaped(out, text.as_bytes())?;
    out.push(b'"')?;
    Ok(())
}

fn write_int(out: &mut Vec<u8>, n: i64, apart: bool) -> Result<(), NoMemory>
    ensures { OnOk result (Writes out.old out.new (int_marks n apart)) }
{
    write_token(out, Buffer::new().format(n), apart)
}

fn write_bool(out: &mut Vec<u8>, b: bool, apart: bool) -> Result<(), NoMemory>
    ensures { OnOk result (Writes out.old out.new (first apart (tok.Keyword (bool_word b)) ∷ [])) }
{
    if b {
        write_keyword(out, Keyword::True, apart)
    } else {
        write_keyword(out, Keyword::False, apart)
    }
}

/// A literal. Nothing is written of a value that is none.
pub(crate) fn write_value(out: &mut Vec<u8>, value: &Value, apart: bool) -> Result<(), NoMemory>
    ensures { OnOk result (Writes out.old out.new (value_marks value.now apart)) }
{
    match value {
        Value::Int(n) => write_int(out, *n, apart),
        Value::Bool(b) => write_bool(out, *b, apart),
        Value::Text(text) => write_text(out, text.as_str(), apart),
        Value::Nothing | Value::Tuple(_) => Ok(()),
    }
}
