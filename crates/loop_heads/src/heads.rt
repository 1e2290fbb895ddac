//! Reads the heads of a `for` line.

ghost use Rattle.std.specs.Prelude.{◌≡◌, ◌<◌, IfOk, length};
ghost use Rattle.loop_heads.specs.Claims.{GaveEach};
ghost use Rattle.loop_heads.specs.Heads.{Ended, SpellsFurther, InnerBehind, SpellsHeads, HeadsAt, OneHeads};

use crate::axis::first_head;
use crate::pattern::{name, read_pattern};
use crate::range::{either, range};
use crate::tokens::{eat, eat_name, eat_word};
use loop_data::{Inner, Many};
use loop_exprs::ReadError;
use loop_grammar::Heads;
use loop_tokens::{Keyword, Sign, Token};
use std::alloc::Global;

/// The most further heads of a `for` line.
const FURTHER: usize = 3;

/// Reads a further head with the comma before it, as far as one goes.
fn further<'t, 'a>(
    alloc: Global,
    tokens: &'t [Token<'a>],
) -> Result<(Inner, bool, &'t [Token<'a>]), ReadError>
    ensures spelled { IfOk result (λ p. SpellsFurther p.0 p.1 tokens.now p.2.now) }
    ensures only { GaveEach (Ended SpellsFurther tokens.now) (λ p. (p.0, p.1, p.2.now)) result }
    ensures shorter { IfOk result (λ p. length p.2.now < length tokens.now) }
{
    let Some(rest) = eat(Sign::Comma, tokens) else {
        return Err(ReadError::NotSpelled);
    };
    let Some((piece, rest)) = eat_name(rest) else {
        return Err(ReadError::NotSpelled);
    };
    let Some(rest) = eat_word(Keyword::In, rest) else {
        return Err(ReadError::NotSpelled);
    };
    let (range, wide, rest) = range(alloc, rest)?;
    let name = name(alloc, piece)?;
    Ok((Inner { name, range }, wide, rest))
}

/// Reads the further heads up to the line's end.
fn all_further(
    alloc: Global,
    mut found: Vec<Inner>,
    wide: bool,
    tokens: &[Token<'_>],
) -> Result<(Vec<Inner>, bool), ReadError>
    ensures spelled { IfOk result (λ p. InnerBehind found.items wide tokens.now (p.0.items, p.1)) }
    ensures only { GaveEach (InnerBehind found.items wide tokens.now) (λ p. (p.0.items, p.1)) result }
{
    if tokens.is_empty() {
        return Ok((found, wide));
    }
    let (next, also, rest) = further(alloc, tokens)?;
    found.push(next)?;
    let both = either(wide, also);
    all_further(alloc, found, both, rest)
}

/// Reads what stands behind the word `for`, all of it up to the line's end: the heads, and whether some number in them is too
/// wide (it then has 0 in its place). `NotSpelled` exactly where the tokens spell no heads; otherwise the only error is want
/// of memory. The recursion is bounded by the line's limits.
pub fn read_heads(alloc: Global, tokens: &[Token<'_>]) -> Result<(Heads, bool), ReadError>
    ensures spelled { IfOk result (λ p. SpellsHeads p.0 p.1 tokens.now) }
    ensures only { GaveEach (HeadsAt tokens.now) (λ p. (p.0, p.1)) result }
{
    let (names, rest) = read_pattern(alloc, tokens)?;
    let Some(rest) = eat_word(Keyword::In, rest) else {
        return Err(ReadError::NotSpelled);
    };
    let (first, wide, rest) = first_head(alloc, rest)?;
    let (inner, also) = all_further(alloc, Vec::new(alloc), false, rest)?;
    if inner.len() > FURTHER {
        return Err(ReadError::NotSpelled);
    }
    let heads = Heads {
        names,
        axes: first.axes,
        product: first.product,
        inner: Many::from_vec(inner),
    };
    Ok((heads, either(wide, also)))
}

/// The heads that tokens spell are determined by them, and so is whether some number in them is too wide.
pub fn one_heads()
    ensures { OneHeads }
{}
