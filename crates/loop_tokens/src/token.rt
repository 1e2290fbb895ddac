//! Tokens.

use crate::keyword::{AtWord, Keyword};
use crate::piece::Piece;
use crate::sign::Sign;

/// A token of a line.
#[derive(Drop)]
pub enum Token<'a> {
    /// A name, as it is written.
    Name(Piece<'a>),
    /// The digits of a number, as they are written.
    Number(Piece<'a>),
    /// What stands between the quotes of a text, with its escapes as they are written.
    Text(Piece<'a>),
    /// A reserved word.
    Keyword(Keyword),
    /// A word that begins with `@`.
    At(AtWord),
    /// A sign.
    Sign(Sign),
}

/// The tokens of a line, up to its end, to a comment or to the first character that begins no token.
#[derive(Drop)]
pub struct LineTokens<'a> {
    /// The tokens in order.
    pub tokens: Vec<Token<'a>>,
    /// Whether the tokens go on to the line's end or to a comment.
    pub whole: bool,
}
