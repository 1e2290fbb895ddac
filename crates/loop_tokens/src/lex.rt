//! Cuts a line into tokens.

ghost use Rattle.std.specs.Prelude.{◌≡◌, ◌^◌, [], ◌∷◌, ◌<◌, ◌≤◌, ◌+◌, ℕ, ◌≢◌, ◌++◌, length, take, drop};
ghost use Rattle.std.specs.Prelude.{List, Some, true, false, IfOk, MatchOption, MatchBool};
ghost use Rattle.std.specs.List.{prefix_len};
ghost use Rattle.loop_tokens.specs.Bytes.{is_digit, is_word_byte, is_blank};
ghost use Rattle.loop_tokens.specs.Signs.{is_sign, is_long_sign, sign_of};
ghost use Rattle.loop_tokens.specs.Keywords.{is_at_word, at_word_of, keyword_of};
ghost use Rattle.loop_tokens.specs.Tokens.{closes, named, token_of, is_token, IsLongestFront, NoFront};
ghost use Rattle.loop_tokens.specs.Tokens.{Longest, NoToken, ends, Holds};

use crate::bytes::{escape, is_blank, is_digit, is_letter, is_word_byte};
use crate::keyword::{AtWord, keyword_of};
use crate::piece::Piece;
use crate::sign::{Sign, long_sign, short_sign};
use crate::token::{LineTokens, Token};
use no_memory::NoMemory;
use std::alloc::Global;

/// How many bytes at the front go on with a name.
fn word_len(bytes: &[u8]) -> usize
    ensures run { result ≡ prefix_len is_word_byte bytes.now }
    ensures within { result ≤ length bytes.now }
{
    bytes.iter().take_while(|b| is_word_byte(**b)).count()
}

/// How many bytes at the front go on with a number.
fn digits_len(bytes: &[u8]) -> usize
    ensures run { result ≡ prefix_len is_digit bytes.now }
    ensures within { result ≤ length bytes.now }
{
    bytes.iter().take_while(|b| is_digit(**b)).count()
}

/// How many bytes at the front are blanks.
fn blanks_len(bytes: &[u8]) -> usize
    ensures run { result ≡ prefix_len is_blank bytes.now }
    ensures within { result ≤ length bytes.now }
{
    bytes.iter().take_while(|b| is_blank(**b)).count()
}

/// How many bytes there are up to and with the quote that closes a text, if there is one.
fn text_len(bytes: &[u8]) -> Option<usize>
    ensures { MatchOption result (NoFront (closes false) bytes.now) (IsLongestFront (closes false) bytes.now) }
{
    let mut escaped = false;
    for (i, b) in bytes.iter().enumerate() {
        if escaped {
            if escape(*b).is_none() {
                return None;
            }
            escaped = false;
        } else if *b == b'"' {
            return Some(i + 1);
        } else if *b == b'\n' {
            return None;
        } else {
            escaped = *b == b'\\';
        }
    }
    None
}

/// Whether the bytes begin with the word.
fn begins(word: &[u8], bytes: &[u8]) -> bool
    ensures { MatchBool result
        (bytes.now ≡ word.now ++ drop (length word.now) bytes.now)
        ((rest : List ℕ) → bytes.now ≢ word.now ++ rest) }
{
    bytes.starts_with(word)
}

/// How many bytes at the front make an at-word behind an `@`, if there is one.
fn at_len(bytes: &[u8]) -> Option<usize>
    ensures { MatchOption result (NoFront is_at_word bytes.now) (IsLongestFront is_at_word bytes.now) }
{
    if begins(b"init", bytes) {
        Some(4)
    } else if begins(b"keep", bytes) {
        Some(4)
    } else if begins(b"reduce", bytes) {
        Some(6)
    } else {
        None
    }
}

/// Whether this byte is a sign of two characters together with the next.
fn is_long_sign(first: u8, rest: &[u8]) -> bool
    ensures { result ≡ is_long_sign first rest.now }
{
    match rest.first() {
        Some(b'=') => long_sign(first).is_some(),
        _ => false,
    }
}

/// How many bytes the longest sign at the front has, if there is one.
fn sign_len(first: u8, rest: &[u8]) -> Option<usize>
    ensures { MatchOption result (NoFront is_sign (first ∷ rest.now)) (IsLongestFront is_sign (first ∷ rest.now)) }
{
    if is_long_sign(first, rest) {
        Some(2)
    } else if short_sign(first).is_some() {
        Some(1)
    } else {
        None
    }
}

/// The first byte and those behind it.
fn split(bytes: &[u8]) -> Option<(u8, &[u8])>
    ensures { MatchOption result (bytes.now ≡ []) (λ p. bytes.now ≡ p.0 ∷ p.1.now) }
{
    let (first, rest) = bytes.split_first()?;
    Some((*first, rest))
}

/// How many bytes the longest token has that begins with this byte, if there is one.
fn token_len(first: u8, rest: &[u8]) -> Option<usize>
    requires { length rest.now + 1 < 2 ^ 64 }
    ensures { MatchOption result (NoToken (first ∷ rest.now)) (IsLongestFront is_token (first ∷ rest.now)) }
{
    if is_letter(first) {
        Some(1 + word_len(rest))
    } else if is_digit(first) {
        Some(1 + digits_len(rest))
    } else if first == b'"' {
        Some(1 + text_len(rest)?)
    } else if first == b'@' {
        Some(1 + at_len(rest)?)
    } else {
        sign_len(first, rest)
    }
}

/// A name, or the reserved word that it is.
fn named<'a>(word: &'a str) -> Token<'a>
    ensures { result ≡ named (keyword_of word.now) word.now }
{
    match keyword_of(word) {
        Some(keyword) => Token::Keyword(keyword),
        None => Token::Name(Piece::new(word)),
    }
}

/// The at-word that these bytes make behind an `@`.
fn at_word_of(bytes: &[u8]) -> Option<AtWord>
    ensures { result ≡ at_word_of bytes.now }
{
    if bytes == b"init".as_slice() {
        Some(AtWord::Init)
    } else if bytes == b"keep".as_slice() {
        Some(AtWord::Keep)
    } else if bytes == b"reduce".as_slice() {
        Some(AtWord::Reduce)
    } else {
        None
    }
}

/// The sign that these bytes are.
fn sign_of(bytes: &[u8]) -> Option<Sign>
    ensures { result ≡ sign_of bytes.now }
{
    match bytes {
        [b] => short_sign(*b),
        [b, b'='] => long_sign(*b),
        _ => None,
    }
}

/// The token that these bytes are, all of them together.
fn token_of<'a>(front: &'a str) -> Option<Token<'a>>
    requires { is_token front.now ≡ true }
    ensures { result ≡ token_of front.now }
{
    let (first, rest) = split(front.as_bytes())?;
    if is_letter(first) {
        Some(named(front))
    } else if is_digit(first) {
        Some(Token::Number(Piece::new(front)))
    } else if first == b'"' {
        Some(Token::Text(Piece::new(&front[1..front.len() - 1])))
    } else if first == b'@' {
        Some(Token::At(at_word_of(rest)?))
    } else {
        Some(Token::Sign(sign_of(front.as_bytes())?))
    }
}

/// The longest token that begins there, and what follows it.
fn token<'a>(text: &'a str) -> Option<(Token<'a>, &'a str)>
    ensures { MatchOption result (NoToken text.now) (λ p. Longest p.0 text.now p.1.now) }
{
    let (first, rest) = split(text.as_bytes())?;
    let (front, behind) = text.split_at(token_len(first, rest)?);
    Some((token_of(front)?, behind))
}

/// What follows the blanks at the front.
fn skip_blanks(text: &str) -> &str
    ensures { result.now ≡ drop (prefix_len is_blank text.now) text.now }
{
    &text[blanks_len(text.as_bytes())..]
}

/// Whether the line ends there or a comment begins.
fn ends(text: &str) -> bool
    ensures { result ≡ ends text.now }
{
    match text.as_bytes().first() {
        None => true,
        Some(b) => *b == b'#',
    }
}

/// The tokens that the line holds. They borrow the line. The only error is want of memory.
pub fn tokens<'a>(alloc: Global, line: &'a str) -> Result<LineTokens<'a>, NoMemory>
    ensures { IfOk result (λ l. Holds line.now l.tokens.items l.whole) }
{
    let mut tokens = Vec::new(alloc);
    let mut rest = skip_blanks(line);
    while !ends(rest) {
        let Some((token, behind)) = token(rest) else {
            return Ok(LineTokens {
                tokens,
                whole: false,
            });
        };
        tokens.push(token)?;
        rest = skip_blanks(behind);
    }
    Ok(LineTokens {
        tokens,
        whole: true,
    })
}
