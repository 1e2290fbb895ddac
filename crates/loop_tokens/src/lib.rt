//! The lines of a loop file, and the tokens of a line.
//!
//! A text is UTF-8 and is cut into lines. A line is cut into tokens, the longest first, up to its end, to a comment
//! or to the first character that begins no token. Tokens borrow the line: no byte is copied.
#![tactic(auto)]

mod bytes;
mod keyword;
mod laws;
mod lex;
mod limits;
mod literal;
mod piece;
mod sign;
mod text;
mod token;

pub use keyword::{AtWord, Keyword};
pub use laws::{escapes_read_back, one_lexing, words_read_back};
pub use lex::tokens;
pub use limits::{LIMIT, is_too_deep};
pub use literal::{number_of, text_of};
pub use piece::Piece;
pub use sign::Sign;
pub use text::{BadUtf8, utf8_text};
pub use token::{LineTokens, Token};
