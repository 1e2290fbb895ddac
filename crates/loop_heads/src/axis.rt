//! Reads the first head of a `for` line.

ghost use Rattle.std.specs.Prelude.{◌≡◌, ◌<◌, ◌∷◌, IfOk, length};
ghost use Rattle.loop_tokens.specs.declared.token.Token.TheVariants as t;
ghost use Rattle.loop_grammar.specs.LineForms.{SpellsAxis, SpellsFactor};
ghost use Rattle.loop_heads.specs.Claims.{GaveEach};
ghost use Rattle.loop_heads.specs.Heads.{Ended, Behind, BehindEnd, Between, SpellsFirst};

use crate::literal::text;
use crate::pattern::several;
use crate::range::{either, range};
use crate::tokens::{eat, eat_text, eat_word};
use loop_data::{Axis, Many};
use loop_exprs::ReadError;
use loop_tokens::{Keyword, Sign, Token};
use std::alloc::Global;

/// The first head: one axis, or the two to four of a product.
#[derive(Drop)]
pub(crate) struct FirstHead {
    pub(crate) axes: Many<Axis>,
    pub(crate) product: bool,
}

/// Reads the column behind the word `col`.
fn column<'t, 'a>(
    alloc: Global,
    tokens: &'t [Token<'a>],
) -> Result<(Axis, bool, &'t [Token<'a>]), ReadError>
    ensures spelled { IfOk result (λ p. SpellsAxis p.0 p.1 (t.Keyword Keyword.Col ∷ tokens.now) p.2.now) }
    ensures only { GaveEach (Ended SpellsAxis (t.Keyword Keyword.Col ∷ tokens.now)) (λ p. (p.0, p.1, p.2.now)) result }
    ensures shorter { IfOk result (λ p. length p.2.now < length tokens.now) }
{
    let Some(rest) = eat(Sign::Open, tokens) else {
        return Err(ReadError::NotSpelled);
    };
    let Some((raw, rest)) = eat_text(rest) else {
        return Err(ReadError::NotSpelled);
    };
    let Some(rest) = eat(Sign::Close, rest) else {
        return Err(ReadError::NotSpelled);
    };
    Ok((Axis::Col(text(alloc, raw)?), false, rest))
}

/// Reads a range or a column, as far as one goes.
fn axis<'t, 'a>(
    alloc: Global,
    tokens: &'t [Token<'a>],
) -> Result<(Axis, bool, &'t [Token<'a>]), ReadError>
    ensures spelled { IfOk result (λ p. SpellsAxis p.0 p.1 tokens.now p.2.now) }
    ensures only { GaveEach (Ended SpellsAxis tokens.now) (λ p. (p.0, p.1, p.2.now)) result }
    ensures shorter { IfOk result (λ p. length p.2.now < length tokens.now) }
{
    match eat_word(Keyword::Col, tokens) {
        Some(rest) => column(alloc, rest),
        None => {
            let (steps, wide, rest) = range(alloc, tokens)?;
            Ok((Axis::Steps(steps), wide, rest))
        }
    }
}

/// Reads one axis more, and those behind its comma.
fn axes<'t, 'a>(
    alloc: Global,
    mut found: Vec<Axis>,
    wide: bool,
    tokens: &'t [Token<'a>],
) -> Result<(Vec<Axis>, bool, &'t [Token<'a>]), ReadError>
    ensures spelled { IfOk result (λ p. Behind SpellsAxis found.items wide tokens.now (p.0.items, p.1, p.2.now)) }
    ensures only { GaveEach (BehindEnd SpellsAxis found.items wide tokens.now) (λ p. (p.0.items, p.1, p.2.now)) result }
    ensures shorter { IfOk result (λ p. length p.2.now < length tokens.now) }
{
    let (next, also, rest) = axis(alloc, tokens)?;
    found.push(next)?;
    let both = either(wide, also);
    match eat(Sign::Comma, rest) {
        Some(rest) => axes(alloc, found, both, rest),
        None => Ok((found, both, rest)),
    }
}

/// Reads two to four axes between parentheses.
fn axes_between<'t, 'a>(
    alloc: Global,
    tokens: &'t [Token<'a>],
) -> Result<(Many<Axis>, bool, &'t [Token<'a>]), ReadError>
    ensures spelled { IfOk result (λ p. Between SpellsAxis tokens.now (p.0, p.1, p.2.now)) }
    ensures only { GaveEach (Between SpellsAxis tokens.now) (λ p. (p.0, p.1, p.2.now)) result }
    ensures shorter { IfOk result (λ p. length p.2.now < length tokens.now) }
{
    let Some(rest) = eat(Sign::Open, tokens) else {
        return Err(ReadError::NotSpelled);
    };
    let (found, wide, rest) = axes(alloc, Vec::new(alloc), false, rest)?;
    let Some(rest) = eat(Sign::Close, rest) else {
        return Err(ReadError::NotSpelled);
    };
    match several(found) {
        Some(axes) => Ok((axes, wide, rest)),
        None => Err(ReadError::NotSpelled),
    }
}

/// Reads an axis or a zip, as far as one goes.
fn factor<'t, 'a>(
    alloc: Global,
    tokens: &'t [Token<'a>],
) -> Result<(Axis, bool, &'t [Token<'a>]), ReadError>
    ensures spelled { IfOk result (λ p. SpellsFactor p.0 p.1 tokens.now p.2.now) }
    ensures only { GaveEach (Ended SpellsFactor tokens.now) (λ p. (p.0, p.1, p.2.now)) result }
    ensures shorter { IfOk result (λ p. length p.2.now < length tokens.now) }
{
    match eat_word(Keyword::Zip, tokens) {
        Some(rest) => {
            let (axes, wide, rest) = axes_between(alloc, rest)?;
            Ok((Axis::Zip(axes), wide, rest))
        }
        None => axis(alloc, tokens),
    }
}

/// Reads one part of a product more, and those behind its comma.
fn factors<'t, 'a>(
    alloc: Global,
    mut found: Vec<Axis>,
    wide: bool,
    tokens: &'t [Token<'a>],
) -> Result<(Vec<Axis>, bool, &'t [Token<'a>]), ReadError>
    ensures spelled { IfOk result (λ p. Behind SpellsFactor found.items wide tokens.now (p.0.items, p.1, p.2.now)) }
    ensures only { GaveEach (BehindEnd SpellsFactor found.items wide tokens.now) (λ p. (p.0.items, p.1, p.2.now)) result }
    ensures shorter { IfOk result (λ p. length p.2.now < length tokens.now) }
{
    let (next, also, rest) = factor(alloc, tokens)?;
    found.push(next)?;
    let both = either(wide, also);
    match eat(Sign::Comma, rest) {
        Some(rest) => factors(alloc, found, both, rest),
        None => Ok((found, both, rest)),
    }
}

/// Reads two to four parts of a product between parentheses.
fn factors_between<'t, 'a>(
    alloc: Global,
    tokens: &'t [Token<'a>],
) -> Result<(Many<Axis>, bool, &'t [Token<'a>]), ReadError>
    ensures spelled { IfOk result (λ p. Between SpellsFactor tokens.now (p.0, p.1, p.2.now)) }
    ensures only { GaveEach (Between SpellsFactor tokens.now) (λ p. (p.0, p.1, p.2.now)) result }
    ensures shorter { IfOk result (λ p. length p.2.now < length tokens.now) }
{
    let Some(rest) = eat(Sign::Open, tokens) else {
        return Err(ReadError::NotSpelled);
    };
    let (found, wide, rest) = factors(alloc, Vec::new(alloc), false, rest)?;
    let Some(rest) = eat(Sign::Close, rest) else {
        return Err(ReadError::NotSpelled);
    };
    match several(found) {
        Some(axes) => Ok((axes, wide, rest)),
        None => Err(ReadError::NotSpelled),
    }
}

/// Reads the first head, as far as one goes: an axis, a zip, or a product of these.
pub(crate) fn first_head<'t, 'a>(
    alloc: Global,
    tokens: &'t [Token<'a>],
) -> Result<(FirstHead, bool, &'t [Token<'a>]), ReadError>
    ensures spelled { IfOk result (λ p. SpellsFirst p.0 p.1 tokens.now p.2.now) }
    ensures only { GaveEach (Ended SpellsFirst tokens.now) (λ p. (p.0, p.1, p.2.now)) result }
    ensures shorter { IfOk result (λ p. length p.2.now < length tokens.now) }
{
    match eat_word(Keyword::Product, tokens) {
        Some(rest) => {
            let (axes, wide, rest) = factors_between(alloc, rest)?;
            let product = true;
            Ok((FirstHead { axes, product }, wide, rest))
        }
        None => {
            let (axis, wide, rest) = factor(alloc, tokens)?;
            let mut axes = Many::new(alloc);
            axes.push(alloc, axis)?;
            let product = false;
            Ok((FirstHead { axes, product }, wide, rest))
        }
    }
}
