//! Reads a pattern.

ghost use Rattle.std.specs.Prelude.{◌≡◌, ◌<◌, ◌∷◌, MatchOption, IfOk, length};
ghost use Rattle.loop_tokens.specs.declared.token.Token.TheVariants as t;
ghost use Rattle.loop_grammar.specs.LineForms.{SpellsPattern};
ghost use Rattle.loop_heads.specs.Claims.{GaveEach, NotSeveral, IsSeveral, NamesBehind, NamesEnd, PatternAt, OnePattern};

use crate::tokens::{eat, eat_name};
use loop_data::{Many, TextValue};
use loop_exprs::ReadError;
use loop_tokens::{Piece, Sign, Token};
use no_memory::NoMemory;
use std::alloc::Global;

/// The items, if there are two to four of them.
pub(crate) fn several<T: Drop>(found: Vec<T>) -> Option<Many<T>>
    ensures { MatchOption result (NotSeveral found.items) (IsSeveral found.items) }
{
    match found.len() {
        2..=4 => Some(Many::from_vec(found)),
        _ => None,
    }
}

pub(crate) fn name(alloc: Global, piece: &Piece<'_>) -> Result<TextValue, NoMemory>
    ensures { IfOk result (λ n. n ≡ piece.now) }
{
    TextValue::new(alloc, piece.as_str())
}

/// Reads one name more, and those behind its comma.
fn names<'t, 'a>(
    alloc: Global,
    mut found: Vec<TextValue>,
    tokens: &'t [Token<'a>],
) -> Result<(Vec<TextValue>, &'t [Token<'a>]), ReadError>
    ensures spelled { IfOk result (λ p. NamesBehind found.items tokens.now p.0.items p.1.now) }
    ensures only { GaveEach (NamesEnd found.items tokens.now) (λ p. (p.0.items, p.1.now)) result }
    ensures shorter { IfOk result (λ p. length p.1.now < length tokens.now) }
{
    let Some((first, rest)) = eat_name(tokens) else {
        return Err(ReadError::NotSpelled);
    };
    found.push(name(alloc, first)?)?;
    match eat(Sign::Comma, rest) {
        Some(rest) => names(alloc, found, rest),
        None => Ok((found, rest)),
    }
}

/// Reads the names of a pattern behind its parenthesis.
fn tuple<'t, 'a>(
    alloc: Global,
    tokens: &'t [Token<'a>],
) -> Result<(Many<TextValue>, &'t [Token<'a>]), ReadError>
    ensures spelled { IfOk result (λ p. SpellsPattern p.0 (t.Sign Sign.Open ∷ tokens.now) p.1.now) }
    ensures only { GaveEach (PatternAt (t.Sign Sign.Open ∷ tokens.now)) (λ p. (p.0, p.1.now)) result }
    ensures shorter { IfOk result (λ p. length p.1.now < length tokens.now) }
{
    let (found, rest) = names(alloc, Vec::new(alloc), tokens)?;
    let Some(rest) = eat(Sign::Close, rest) else {
        return Err(ReadError::NotSpelled);
    };
    match several(found) {
        Some(names) => Ok((names, rest)),
        None => Err(ReadError::NotSpelled),
    }
}

/// Reads the pattern at the front of the tokens, one name, or two to four between parentheses: the names and the tokens that
/// follow. `NotSpelled` exactly where no pattern is spelled there; otherwise the only error is want of memory.
pub fn read_pattern<'t, 'a>(
    alloc: Global,
    tokens: &'t [Token<'a>],
) -> Result<(Many<TextValue>, &'t [Token<'a>]), ReadError>
    ensures spelled { IfOk result (λ p. SpellsPattern p.0 tokens.now p.1.now) }
    ensures only { GaveEach (PatternAt tokens.now) (λ p. (p.0, p.1.now)) result }
    ensures shorter { IfOk result (λ p. length p.1.now < length tokens.now) }
{
    if let Some(rest) = eat(Sign::Open, tokens) {
        return tuple(alloc, rest);
    }
    let Some((first, rest)) = eat_name(tokens) else {
        return Err(ReadError::NotSpelled);
    };
    let mut names = Many::new(alloc);
    names.push(alloc, name(alloc, first)?)?;
    Ok((names, rest))
}

/// What is spelled as a pattern at the front of the tokens is determined by them: the names and the rest.
pub fn one_pattern()
    ensures { OnePattern }
{}
