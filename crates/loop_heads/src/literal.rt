//! Reads a literal.

ghost use Rattle.std.specs.Prelude.{◌≡◌, ◌<◌, IfOk, length};
ghost use Rattle.loop_tokens.specs.Literals.{number_of, text_of};
ghost use Rattle.loop_exprs.specs.Operations.{is_wide, positive_value, is_wide_negative, negative_value};
ghost use Rattle.loop_grammar.specs.LineForms.{SpellsLiteral};
ghost use Rattle.loop_heads.specs.Tokens.{truth_of};
ghost use Rattle.loop_heads.specs.Claims.{GaveEach, LiteralAt, OneLiteral};

use crate::tokens::{eat, eat_number, split};
use loop_data::{TextValue, Value};
use loop_exprs::ReadError;
use loop_tokens::{Keyword, Piece, Sign, Token, number_of, text_of};
use no_memory::NoMemory;
use std::alloc::Global;

/// A number without `-`, and whether it is too wide.
fn positive_value(digits: &Piece<'_>) -> (i64, bool)
    ensures value { result.0 ≡ positive_value (number_of digits.now) }
    ensures wide { result.1 ≡ is_wide (number_of digits.now) }
{
    match number_of(digits.as_str()) {
        Some(n) if n < 1 << 63 => (n as i64, false),
        _ => (0, true),
    }
}

/// A number behind `-`, and whether it is too wide.
fn negative_value(digits: &Piece<'_>) -> (i64, bool)
    ensures value { result.0 ≡ negative_value (number_of digits.now) }
    ensures wide { result.1 ≡ is_wide_negative (number_of digits.now) }
{
    match number_of(digits.as_str()) {
        None => (0, true),
        Some(n) => {
            if n < 1 << 63 {
                (-(n as i64), false)
            } else {
                (i64::MIN, false)
            }
        }
    }
}

/// What the text between two quotes stands for.
pub(crate) fn text(alloc: Global, raw: &Piece<'_>) -> Result<TextValue, NoMemory>
    ensures { IfOk result (λ t. t ≡ text_of raw.now) }
{
    let text = text_of(alloc, raw.as_str())?;
    TextValue::new(alloc, text.as_str())
}

/// The truth that a word stands for.
fn truth_of(word: Keyword) -> Option<bool>
    ensures { result ≡ truth_of word }
{
    match word {
        Keyword::True => Some(true),
        Keyword::False => Some(false),
        _ => None,
    }
}

/// Reads the literal at the front of the tokens: its value, whether its number is too wide (it then has 0 in its place), and
/// the tokens that follow. `NotSpelled` exactly where no literal is spelled there; otherwise the only error is want of memory.
pub fn read_literal<'t, 'a>(
    alloc: Global,
    tokens: &'t [Token<'a>],
) -> Result<(Value, bool, &'t [Token<'a>]), ReadError>
    ensures spelled { IfOk result (λ p. SpellsLiteral p.0 p.1 tokens.now p.2.now) }
    ensures only { GaveEach (LiteralAt tokens.now) (λ p. (p.0, p.1, p.2.now)) result }
    ensures shorter { IfOk result (λ p. length p.2.now < length tokens.now) }
{
    let Some((first, rest)) = split(tokens) else {
        return Err(ReadError::NotSpelled);
    };
    match first {
        Token::Number(digits) => {
            let (n, wide) = positive_value(digits);
            Ok((Value::Int(n), wide, rest))
        }
        Token::Text(raw) => Ok((Value::Text(text(alloc, raw)?), false, rest)),
        Token::Keyword(word) => {
            let Some(truth) = truth_of(*word) else {
                return Err(ReadError::NotSpelled);
            };
            Ok((Value::Bool(truth), false, rest))
        }
        Token::Sign(_) => {
            let Some(rest) = eat(Sign::Minus, tokens) else {
                return Err(ReadError::NotSpelled);
            };
            let Some((digits, rest)) = eat_number(rest) else {
                return Err(ReadError::NotSpelled);
            };
            let (n, wide) = negative_value(digits);
            Ok((Value::Int(n), wide, rest))
        }
        Token::Name(_) | Token::At(_) => Err(ReadError::NotSpelled),
    }
}

/// What is spelled as a literal at the front of the tokens is determined by them: the value, the flag and the rest.
pub fn one_literal()
    ensures { OneLiteral }
{}
