//! Texts that are UTF-8.

ghost use Rattle.std.specs.Prelude.{◌≡◌, ◌↔◌, IsOk, IfOk, IfErr, IsUtf8};
ghost use Rattle.loop_tokens.specs.Lines.{IsBadByte};

/// Bytes that aren't UTF-8.
#[derive(Clone, Copy, Debug, PartialEq, Eq)]
pub struct BadUtf8 {
    /// The first byte that belongs to no UTF-8, counted from 1: one more than the longest front that is UTF-8 has bytes.
    pub byte: u64,
}

/// The text that the bytes are, or where they stop being UTF-8. It takes no memory.
pub fn utf8_text(bytes: &[u8]) -> Result<&str, BadUtf8>
    ensures same { IfOk result (λ s. s.now ≡ bytes.now) }
    ensures utf8 { IsOk result ↔ IsUtf8 bytes.now }
    ensures byte { IfErr result (λ e. IsBadByte bytes.now e.byte) }
{
    match str::from_utf8(bytes) {
        Ok(text) => Ok(text),
        Err(error) => Err(BadUtf8 {
            byte: error.valid_up_to() as u64 + 1,
        }),
    }
}
