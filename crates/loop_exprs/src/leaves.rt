//! Makes the trees of the parts that were read.

ghost use Rattle.std.specs.Prelude.{◌≡◌, Some, None, IfOk};
ghost use Rattle.loop_tokens.specs.Literals.{number_of, text_of};
ghost use Rattle.loop_exprs.specs.Operations.{constant_of, is_wide, positive_value, is_wide_negative, negative_value};
ghost use Rattle.loop_exprs.specs.Reading.{closed, applied, called, paired};

use crate::operations::{constant_of, extreme_of, word_of};
use loop_data::{Boxed, Expr, Many, Op, TextValue, Value, Word};
use loop_tokens::{Keyword, Piece, number_of, text_of};
use no_memory::NoMemory;
use std::alloc::Global;

/// A number without `-`, and whether it is too wide.
pub(crate) fn positive_value(digits: &Piece<'_>) -> (i64, bool)
    ensures value { result.0 ≡ positive_value (number_of digits.now) }
    ensures wide { result.1 ≡ is_wide (number_of digits.now) }
{
    match number_of(digits.as_str()) {
        Some(n) if n < 1 << 63 => (n as i64, false),
        _ => (0, true),
    }
}

/// The number of a negative literal, and whether it is too wide.
pub(crate) fn negative_value(digits: &Piece<'_>) -> (i64, bool)
    ensures value { result.0 ≡ negative_value (number_of digits.now) }
    ensures wide { result.1 ≡ is_wide_negative (number_of digits.now) }
{
    match number_of(digits.as_str()) {
        None => (0, true),
        Some(n) => {
            if n < 1 << 63 {
                (-(n as i64), false)
            } else {
                (i64::MIN, false)
            }
        }
    }
}

/// A literal that is a number.
#[inline(never)]
pub(crate) fn int(alloc: Global, n: i64) -> Result<Boxed<Expr>, NoMemory>
    ensures { IfOk result (λ x. x ≡ Expr.Lit (Value.Int n)) }
{
    Boxed::new(alloc, Expr::Lit(Value::Int(n)))
}

#[inline(never)]
pub(crate) fn text(alloc: Global, raw: &Piece<'_>) -> Result<Boxed<Expr>, NoMemory>
    ensures { IfOk result (λ x. x ≡ Expr.Lit (Value.Text (text_of raw.now))) }
{
    let text = text_of(alloc, raw.as_str())?;
    let text = TextValue::new(alloc, text.as_str())?;
    Boxed::new(alloc, Expr::Lit(Value::Text(text)))
}

#[inline(never)]
pub(crate) fn name(alloc: Global, piece: &Piece<'_>) -> Result<Boxed<Expr>, NoMemory>
    ensures { IfOk result (λ x. x ≡ Expr.Name piece.now) }
{
    let name = TextValue::new(alloc, piece.as_str())?;
    Boxed::new(alloc, Expr::Name(name))
}

/// The expression that a word is by itself, if it is one.
#[inline(never)]
pub(crate) fn constant(alloc: Global, word: Keyword) -> Result<Option<Boxed<Expr>>, NoMemory>
    ensures { IfOk result (λ o. o ≡ constant_of word) }
{
    match constant_of(word) {
        Some(constant) => Ok(Some(Boxed::new(alloc, constant)?)),
        None => Ok(None),
    }
}

#[inline(never)]
pub(crate) fn two(
    alloc: Global,
    op: Op,
    left: Boxed<Expr>,
    right: Boxed<Expr>,
) -> Result<Boxed<Expr>, NoMemory>
    ensures { IfOk result (λ x. x ≡ Expr.Two op left right) }
{
    Boxed::new(alloc, Expr::Two { op, left, right })
}

#[inline(never)]
pub(crate) fn not(alloc: Global, inner: Boxed<Expr>) -> Result<Boxed<Expr>, NoMemory>
    ensures { IfOk result (λ x. x ≡ Expr.Not inner) }
{
    Boxed::new(alloc, Expr::Not(inner))
}

#[inline(never)]
pub(crate) fn negate(alloc: Global, inner: Boxed<Expr>) -> Result<Boxed<Expr>, NoMemory>
    ensures { IfOk result (λ x. x ≡ Expr.Neg inner) }
{
    Boxed::new(alloc, Expr::Neg(inner))
}

#[inline(never)]
pub(crate) fn chosen(
    alloc: Global,
    test: Boxed<Expr>,
    yes: Boxed<Expr>,
    no: Option<Boxed<Expr>>,
) -> Result<Boxed<Expr>, NoMemory>
    ensures { IfOk result (λ x. x ≡ Expr.If test yes no) }
{
    Boxed::new(alloc, Expr::If { test, yes, no })
}

/// The parts of a tuple, each taken out of its box.
fn parts(alloc: Global, found: Vec<Boxed<Expr>>) -> Result<Many<Expr>, NoMemory>
    ensures { IfOk result (λ xs. xs ≡ found.items) }
{
    let mut parts = Many::new(alloc);
    for part in found {
        parts.push(alloc, part.into_inner())?;
    }
    Ok(parts)
}

/// What the parts between parentheses make: one stands for itself, two to four are a tuple.
#[inline(never)]
pub(crate) fn closed(
    alloc: Global,
    mut found: Vec<Boxed<Expr>>,
) -> Result<Option<Boxed<Expr>>, NoMemory>
    ensures { IfOk result (λ o. o ≡ closed found.items) }
{
    match found.len() {
        1 => Ok(found.pop()),
        2..=4 => {
            let parts = parts(alloc, found)?;
            Ok(Some(Boxed::new(alloc, Expr::Tuple(parts))?))
        }
        _ => Ok(None),
    }
}

/// A word called with one part.
fn called(
    alloc: Global,
    word: Option<Word>,
    part: Option<Boxed<Expr>>,
) -> Result<Option<Boxed<Expr>>, NoMemory>
    ensures { IfOk result (λ o. o ≡ called word part) }
{
    match (word, part) {
        (Some(word), Some(part)) => Ok(Some(Boxed::new(alloc, Expr::Call { word, part })?)),
        _ => Ok(None),
    }
}

/// An operation called with two parts.
fn paired(
    alloc: Global,
    op: Option<Op>,
    left: Option<Boxed<Expr>>,
    right: Option<Boxed<Expr>>,
) -> Result<Option<Boxed<Expr>>, NoMemory>
    ensures { IfOk result (λ o. o ≡ paired op left right) }
{
    let Some(op) = op else {
        return Ok(None);
    };
    let Some(left) = left else {
        return Ok(None);
    };
    let Some(right) = right else {
        return Ok(None);
    };
    Ok(Some(two(alloc, op, left, right)?))
}

/// What a word makes of the parts between its parentheses.
#[inline(never)]
pub(crate) fn applied(
    alloc: Global,
    word: Keyword,
    mut found: Vec<Boxed<Expr>>,
) -> Result<Option<Boxed<Expr>>, NoMemory>
    ensures { IfOk result (λ o. o ≡ applied word found.items) }
{
    match found.len() {
        1 => called(alloc, word_of(word), found.pop()),
        2 => {
            let right = found.pop();
            paired(alloc, extreme_of(word), found.pop(), right)
        }
        _ => Ok(None),
    }
}
