//! Reads a range.

ghost use Rattle.std.specs.Prelude.{◌≡◌, ◌<◌, ◌||◌, IfOk, length};
ghost use Rattle.loop_grammar.specs.LineForms.{SpellsRange};
ghost use Rattle.loop_heads.specs.Claims.{GaveEach};
ghost use Rattle.loop_heads.specs.Heads.{Ended};

use crate::tokens::eat;
use loop_data::RangeExpr;
use loop_exprs::{ReadError, read_front};
use loop_tokens::{Sign, Token};
use std::alloc::Global;

/// Whether some number is too wide on one side or the other.
pub(crate) fn either(wide: bool, also: bool) -> bool
    ensures { result ≡ (wide || also) }
{
    wide || also
}

/// Reads a range as far as one goes: `first:last` or `first:step:last`.
pub(crate) fn range<'t, 'a>(
    alloc: Global,
    tokens: &'t [Token<'a>],
) -> Result<(RangeExpr, bool, &'t [Token<'a>]), ReadError>
    ensures spelled { IfOk result (λ p. SpellsRange p.0 p.1 tokens.now p.2.now) }
    ensures only { GaveEach (Ended SpellsRange tokens.now) (λ p. (p.0, p.1, p.2.now)) result }
    ensures shorter { IfOk result (λ p. length p.2.now < length tokens.now) }
{
    let (first, wide, rest) = read_front(alloc, tokens)?;
    let Some(rest) = eat(Sign::Colon, rest) else {
        return Err(ReadError::NotSpelled);
    };
    let (second, also, rest) = read_front(alloc, rest)?;
    let both = either(wide, also);
    match eat(Sign::Colon, rest) {
        None => {
            let range = RangeExpr {
                first,
                step: None,
                last: second,
            };
            Ok((range, both, rest))
        }
        Some(rest) => {
            let (last, third, rest) = read_front(alloc, rest)?;
            let range = RangeExpr {
                first,
                step: Some(second),
                last,
            };
            Ok((range, either(both, third), rest))
        }
    }
}
