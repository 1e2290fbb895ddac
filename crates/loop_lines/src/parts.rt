//! Parts of a line whose end is known.

ghost use Rattle.std.specs.Prelude.{◌≡◌, ◌<◌, ◌∷◌, None, IfOk, length};
ghost use Rattle.loop_exprs.specs.Operations.{sign_operation};
ghost use Rattle.loop_exprs.specs.Reading.{Gives};
ghost use Rattle.loop_lines.specs.Claims.{Tells, ExprUpTo, WholeExpr, WholeLiteral, PatternUpTo};

use crate::front::is_end;
use loop_data::{Expr, Many, TextValue, Value};
use loop_exprs::{ReadError, read_front};
use loop_heads::{eat, read_literal, read_pattern};
use loop_tokens::{Piece, Sign, Token};
use no_memory::NoMemory;
use std::alloc::Global;

/// Reads the expression in front of the sign, which is no operation.
pub(crate) fn expr_up_to<'t, 'a>(
    alloc: Global,
    sign: Sign,
    tokens: &'t [Token<'a>],
) -> Result<(Expr, bool, &'t [Token<'a>]), ReadError>
    requires { sign_operation sign ≡ None }
    ensures reads { Gives (Tells (ExprUpTo sign tokens.now)) (λ p. (p.0, p.1, p.2.now)) result }
    ensures shorter { IfOk result (λ p. length p.2.now < length tokens.now) }
{
    let (expr, wide, rest) = read_front(alloc, tokens)?;
    match eat(sign, rest) {
        Some(rest) => Ok((expr, wide, rest)),
        None => Err(ReadError::NotSpelled),
    }
}

/// Reads the expression that all the tokens spell.
pub(crate) fn whole_expr(alloc: Global, tokens: &[Token<'_>]) -> Result<(Expr, bool), ReadError>
    ensures { Gives (Tells (WholeExpr tokens.now)) (λ p. p) result }
{
    let (expr, wide, rest) = read_front(alloc, tokens)?;
    if is_end(rest) {
        Ok((expr, wide))
    } else {
        Err(ReadError::NotSpelled)
    }
}

/// Reads the literal that all the tokens spell.
pub(crate) fn whole_literal(alloc: Global, tokens: &[Token<'_>]) -> Result<(Value, bool), ReadError>
    ensures { Gives (Tells (WholeLiteral tokens.now)) (λ p. p) result }
{
    let (value, wide, rest) = read_literal(alloc, tokens)?;
    if is_end(rest) {
        Ok((value, wide))
    } else {
        Err(ReadError::NotSpelled)
    }
}

/// Reads the names in front of the sign.
pub(crate) fn names_up_to<'t, 'a>(
    alloc: Global,
    sign: Sign,
    tokens: &'t [Token<'a>],
) -> Result<(Many<TextValue>, &'t [Token<'a>]), ReadError>
    ensures { Gives (Tells (PatternUpTo sign tokens.now)) (λ p. (p.0, p.1.now)) result }
{
    let (names, rest) = read_pattern(alloc, tokens)?;
    match eat(sign, rest) {
        Some(rest) => Ok((names, rest)),
        None => Err(ReadError::NotSpelled),
    }
}

/// The text of a name.
pub(crate) fn text(alloc: Global, word: &Piece<'_>) -> Result<TextValue, NoMemory>
    ensures { IfOk result (λ x. x ≡ word.now) }
{
    TextValue::new(alloc, word.as_str())
}
