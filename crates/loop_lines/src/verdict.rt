//! What the tokens of a line say, or why the line is refused.

ghost use Rattle.std.specs.Prelude.{◌≡◌, ◌≢◌, ◌<◌, ◌≤◌, true, false, IfOk, IfErr, MatchBool};
ghost use Rattle.loop_tokens.specs.Limits.{is_too_deep};
ghost use Rattle.loop_grammar.specs.LineForms.{groups_in, line_groups};
ghost use Rattle.loop_grammar.specs.Texts.{TokensSay, most_groups};
ghost use Rattle.loop_lines.specs.Verdicts.{said, refusal_of, IsLineRefusal, IsVerdict, IsOwnRefusal};
ghost use Rattle.loop_lines.specs.Verdicts.{unless, OneVerdict, OneSaying};

use crate::forms::form;
use crate::front::is_end;
use loop_data::TowerExpr;
use loop_exprs::ReadError;
use loop_grammar::{Line, SyntaxRefusal};
use loop_tokens::{LineTokens, Token, is_too_deep};
use std::alloc::Global;

/// The most groups that may be nested in a tower.
const MOST_GROUPS: u32 = 4;

/// Whether at most so many groups are nested in the tower, along each way down.
fn nests_at_most(tower: &TowerExpr, left: u32) -> bool
    ensures { MatchBool result (groups_in tower.now ≤ left) (left < groups_in tower.now) }
{
    match tower {
        TowerExpr::Leaf { .. } | TowerExpr::Count => true,
        TowerExpr::Grouped { inner, .. } => {
            if left == 0 {
                return false;
            }
            nests_at_most(inner.get(), left - 1)
        }
        TowerExpr::Both(one, other) => {
            if !nests_at_most(one.get(), left) {
                return false;
            }
            nests_at_most(other.get(), left)
        }
    }
}

/// Whether the line nests no more groups than it may.
fn groups_fit(line: &Line) -> bool
    ensures { let n = line_groups line.now in MatchBool result (n ≤ most_groups) (most_groups < n) }
{
    match line {
        Line::Reduce { tower, .. } => nests_at_most(tower, MOST_GROUPS),
        _ => true,
    }
}

/// Why the line is refused that the tokens spell, `wide` telling whether some number in it is too wide.
fn own_refusal(number: u32, line: &Line, wide: bool) -> Option<SyntaxRefusal>
    ensures { IsOwnRefusal number line.now wide result }
{
    if groups_fit(line) {
        if wide {
            Some(SyntaxRefusal::NumberTooWide { line: number })
        } else {
            None
        }
    } else {
        Some(SyntaxRefusal::TooDeep { line: number })
    }
}

/// The value, unless there is a refusal.
fn unless<T: Drop>(refusal: Option<SyntaxRefusal>, value: T) -> Result<T, SyntaxRefusal>
    ensures { result ≡ unless refusal value }
{
    match refusal {
        Some(refusal) => Err(refusal),
        None => Ok(value),
    }
}

/// The refusal of a line whose tokens couldn't be read.
fn refusal_of(error: ReadError, number: u32) -> SyntaxRefusal
    ensures { result ≡ refusal_of error number }
{
    match error {
        ReadError::NoMemory => SyntaxRefusal::NoMemory,
        ReadError::NotSpelled => SyntaxRefusal::NotALine { line: number },
    }
}

/// What tokens say that are within the limits and go on to the line's end.
fn whole_line(
    alloc: Global,
    number: u32,
    tokens: &[Token<'_>],
) -> Result<Option<Line>, SyntaxRefusal>
    requires { is_too_deep tokens.now ≡ false }
    ensures { IsVerdict tokens.now true number result }
{
    if is_end(tokens) {
        return Ok(None);
    }
    match form(alloc, tokens) {
        Ok((found, wide)) => {
            let refusal = own_refusal(number, &found, wide);
            unless(refusal, Some(found))
        }
        Err(error) => Err(refusal_of(error, number)),
    }
}

/// What tokens say, `whole` telling whether they go on to the line's end.
fn verdict(
    alloc: Global,
    number: u32,
    tokens: &[Token<'_>],
    whole: bool,
) -> Result<Option<Line>, SyntaxRefusal>
    ensures { IsVerdict tokens.now whole number result }
{
    if is_too_deep(tokens) {
        Err(SyntaxRefusal::TooDeep { line: number })
    } else if whole {
        whole_line(alloc, number, tokens)
    } else {
        Err(SyntaxRefusal::NotALine { line: number })
    }
}

/// What the tokens of a line say: nothing where it is blank, or the line. `number` is the line's place in the text, from 1;
/// the refusals carry it. The first that applies decides: `TooDeep` where the tokens pass the line's limits, `NotALine` where
/// they don't go on to the line's end or spell no line, `TooDeep` where over 4 groups are nested in its tower,
/// `NumberTooWide` where one of its numbers is; `NoMemory` for want of memory. Each token is read once; the recursion is bounded
/// by the line's limits.
pub fn read_line(
    alloc: Global,
    number: u32,
    line: &LineTokens<'_>,
) -> Result<Option<Line>, SyntaxRefusal>
    ensures says { IfOk result (λ x. TokensSay line.now.tokens.items line.now.whole (said x)) }
    ensures refuses { IfErr result (λ e.
        e ≢ SyntaxRefusal.NoMemory → IsLineRefusal line.now number e) }
{
    verdict(alloc, number, line.tokens.as_slice(), line.whole)
}

/// The tokens of a line say one thing at most.
pub fn one_verdict()
    ensures { OneVerdict }
{}

/// The bytes of a line say one thing at most.
pub fn one_saying()
    ensures { OneSaying }
{}
