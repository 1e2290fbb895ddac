//! A part of a line.

ghost use Rattle.std.specs.Prelude.{◌≡◌};

use std::marker::Model;

/// A part of a line, which contracts see as its bytes. They are UTF-8.
#[derive(Drop)]
pub struct Piece<'a> {
    text: &'a str,
}

impl<'a> Model for Piece<'a> {
    ghost use Rattle.std.specs.Prelude.{List, ℕ};

    ghost Value = { List ℕ };

    ghost view = { λ p. p.text.now };
}

impl<'a> Piece<'a> {
    /// The whole of the text.
    pub fn new(text: &'a str) -> Piece<'a>
        ensures { result ≡ text.now }
    {
        Piece { text }
    }

    /// The text of the piece.
    pub fn as_str(&self) -> &'a str
        ensures { result.now ≡ self.now }
    {
        self.text
    }
}
