//! What numbers and texts stand for.

ghost use Rattle.std.specs.Prelude.{◌≡◌, ◌≤◌, ◌^◌, ℕ, IfOk, SomeIff, string_bytes};
ghost use Rattle.loop_tokens.specs.Literals.{number_of, text_of, unescaped};

use crate::bytes::escape;
use no_memory::NoMemory;
use std::alloc::Global;

/// The number that digits spell, None where it is over 9223372036854775808, the largest that any literal takes.
pub fn number_of(digits: &str) -> Option<u64>
    ensures { SomeIff result (number_of digits.now ≤ 2 ^ 63) (number_of digits.now) }
{
    let mut value: u64 = 0;
    for b in digits.as_bytes() {
        let next = 10 * u128::from(value) + u128::from(b.saturating_sub(b'0'));
        if next > 1 << 63 {
            return None;
        }
        value = next as u64;
    }
    Some(value)
}

/// What a character stands for behind a backslash, itself where it is no escape.
fn unescaped(c: char) -> char
    ensures { result ≡ unescaped c }
{
    match c {
        'n' => '\n',
        't' => '\t',
        _ => c,
    }
}

/// The text that stands between two quotes, each escape replaced by what it stands for. The only error is want of memory.
pub fn text_of(alloc: Global, raw: &str) -> Result<String, NoMemory>
    ensures { IfOk result (λ s. string_bytes s ≡ text_of raw.now) }
{
    let mut text = String::new(alloc);
    let mut escaped = false;
    for c in raw.chars() {
        if escaped {
            text.push(unescaped(c))?;
            escaped = false;
        } else if c == '\\' {
            escaped = true;
        } else {
            text.push(c)?;
        }
    }
    Ok(text)
}
