//! Reads a tower.

ghost use Rattle.std.specs.Prelude.{◌≡◌, ◌<◌, ◌∷◌, Some, IfOk, length};
ghost use Rattle.loop_tokens.specs.declared.token.Token.TheVariants as t;
ghost use Rattle.loop_tokens.specs.declared.sign.Sign.TheVariants as sg;
ghost use Rattle.loop_exprs.specs.Reading.{Gives};
ghost use Rattle.loop_grammar.specs.LineForms.{leaf_kind};
ghost use Rattle.loop_lines.specs.Claims.{Tells, ExprUpTo, TowerUpTo, GivesTower, OneTower};

use crate::front::call;
use crate::parts::expr_up_to;
use loop_data::{Boxed, Expr, Kind, TowerExpr};
use loop_exprs::ReadError;
use loop_heads::eat;
use loop_tokens::{Keyword, Sign, Token};
use no_memory::NoMemory;
use std::alloc::Global;

/// The kind of tower of one expression that a word is.
fn leaf_kind(word: Keyword) -> Option<Kind>
    ensures { result ≡ leaf_kind word }
{
    match word {
        Keyword::Sum => Some(Kind::Sum),
        Keyword::Prod => Some(Kind::Prod),
        Keyword::Min => Some(Kind::Least),
        Keyword::Max => Some(Kind::Greatest),
        Keyword::ArgMin => Some(Kind::LeastAt),
        Keyword::ArgMax => Some(Kind::GreatestAt),
        Keyword::First => Some(Kind::First),
        Keyword::Last => Some(Kind::Last),
        Keyword::Any => Some(Kind::Any),
        Keyword::All => Some(Kind::All),
        Keyword::List => Some(Kind::Listed),
        _ => None,
    }
}

/// Reads what stands between the parentheses of a tower of one expression.
#[inline(never)]
fn leaf<'t, 'a>(
    alloc: Global,
    word: Keyword,
    kind: Kind,
    tokens: &'t [Token<'a>],
) -> Result<(Boxed<TowerExpr>, bool, &'t [Token<'a>]), ReadError>
    requires { leaf_kind word ≡ Some kind }
    ensures reads { GivesTower (t.Keyword word ∷ t.Sign sg.Open ∷ tokens.now) result }
    ensures shorter { IfOk result (λ p. length p.2.now < length tokens.now) }
{
    let (expr, wide, rest) = expr_up_to(alloc, Sign::Close, tokens)?;
    let leaf = Boxed::new(alloc, TowerExpr::Leaf { kind, expr })?;
    Ok((leaf, wide, rest))
}

/// Reads what follows `count(`.
fn count<'t, 'a>(
    alloc: Global,
    tokens: &'t [Token<'a>],
) -> Result<(Boxed<TowerExpr>, bool, &'t [Token<'a>]), ReadError>
    ensures reads { GivesTower (t.Keyword Keyword.Count ∷ t.Sign sg.Open ∷ tokens.now) result }
    ensures shorter { IfOk result (λ p. length p.2.now < length tokens.now) }
{
    match eat(Sign::Close, tokens) {
        Some(rest) => {
            let count = Boxed::new(alloc, TowerExpr::Count)?;
            Ok((count, false, rest))
        }
        None => Err(ReadError::NotSpelled),
    }
}

/// A group on the heap. What makes towers stands apart from what reads them, so that no tree is among the locals of the
/// functions that call themselves.
#[inline(never)]
fn group_of(
    alloc: Global,
    key: Boxed<Expr>,
    inner: Boxed<TowerExpr>,
) -> Result<Boxed<TowerExpr>, NoMemory>
    ensures { IfOk result (λ x. x ≡ TowerExpr.Grouped key inner) }
{
    let key = key.into_inner();
    Boxed::new(alloc, TowerExpr::Grouped { key, inner })
}

#[inline(never)]
fn both_of(
    alloc: Global,
    left: Boxed<TowerExpr>,
    right: Boxed<TowerExpr>,
) -> Result<Boxed<TowerExpr>, NoMemory>
    ensures { IfOk result (λ x. x ≡ TowerExpr.Both left right) }
{
    Boxed::new(alloc, TowerExpr::Both(left, right))
}

/// Reads the tower at the front of the tokens.
#[cycle(towers)]
fn tower<'t, 'a>(
    alloc: Global,
    tokens: &'t [Token<'a>],
) -> Result<(Boxed<TowerExpr>, bool, &'t [Token<'a>]), ReadError>
    ensures reads { GivesTower tokens.now result }
    ensures shorter { IfOk result (λ p. length p.2.now < length tokens.now) }
{
    let Some((word, rest)) = call(tokens) else {
        return Err(ReadError::NotSpelled);
    };
    match leaf_kind(word) {
        Some(kind) => leaf(alloc, word, kind, rest),
        None => match word {
            Keyword::Count => count(alloc, rest),
            Keyword::Group => group(alloc, rest),
            Keyword::Both => both(alloc, rest),
            _ => Err(ReadError::NotSpelled),
        },
    }
}

/// Reads the tower in front of the sign.
#[cycle(towers)]
fn tower_up_to<'t, 'a>(
    alloc: Global,
    sign: Sign,
    tokens: &'t [Token<'a>],
) -> Result<(Boxed<TowerExpr>, bool, &'t [Token<'a>]), ReadError>
    ensures reads { Gives (Tells (TowerUpTo sign tokens.now)) (λ p. (p.0, p.1, p.2.now)) result }
    ensures shorter { IfOk result (λ p. length p.2.now < length tokens.now) }
{
    let (found, wide, rest) = tower(alloc, tokens)?;
    match eat(sign, rest) {
        Some(rest) => Ok((found, wide, rest)),
        None => Err(ReadError::NotSpelled),
    }
}

/// Reads the key of a group, with its comma.
#[inline(never)]
fn key<'t, 'a>(
    alloc: Global,
    tokens: &'t [Token<'a>],
) -> Result<(Boxed<Expr>, bool, &'t [Token<'a>]), ReadError>
    ensures reads { Gives (Tells (ExprUpTo sg.Comma tokens.now)) (λ p. (p.0, p.1, p.2.now)) result }
    ensures shorter { IfOk result (λ p. length p.2.now < length tokens.now) }
{
    let (expr, wide, rest) = expr_up_to(alloc, Sign::Comma, tokens)?;
    let key = Boxed::new(alloc, expr)?;
    Ok((key, wide, rest))
}

/// Reads what follows `group(`.
#[cycle(towers)]
fn group<'t, 'a>(
    alloc: Global,
    tokens: &'t [Token<'a>],
) -> Result<(Boxed<TowerExpr>, bool, &'t [Token<'a>]), ReadError>
    ensures reads { GivesTower (t.Keyword Keyword.Group ∷ t.Sign sg.Open ∷ tokens.now) result }
    ensures shorter { IfOk result (λ p. length p.2.now < length tokens.now) }
{
    let (key, wide, rest) = key(alloc, tokens)?;
    let (inner, also, rest) = tower_up_to(alloc, Sign::Close, rest)?;
    let whole = group_of(alloc, key, inner)?;
    Ok((whole, wide | also, rest))
}

/// Reads what follows `both(`.
#[cycle(towers)]
fn both<'t, 'a>(
    alloc: Global,
    tokens: &'t [Token<'a>],
) -> Result<(Boxed<TowerExpr>, bool, &'t [Token<'a>]), ReadError>
    ensures reads { GivesTower (t.Keyword Keyword.Both ∷ t.Sign sg.Open ∷ tokens.now) result }
    ensures shorter { IfOk result (λ p. length p.2.now < length tokens.now) }
{
    let (left, wide, rest) = tower_up_to(alloc, Sign::Comma, tokens)?;
    let (right, also, rest) = tower_up_to(alloc, Sign::Close, rest)?;
    let whole = both_of(alloc, left, right)?;
    Ok((whole, wide | also, rest))
}

/// Reads the tower at the front of the tokens: the tower, whether some number in it is too wide (it then has 0 in its place),
/// and the tokens that follow. `NotSpelled` exactly where no tower is spelled there; otherwise the only error is want of
/// memory. The recursion is bounded by the line's limits.
pub(crate) fn read_tower<'t, 'a>(
    alloc: Global,
    tokens: &'t [Token<'a>],
) -> Result<(TowerExpr, bool, &'t [Token<'a>]), ReadError>
    ensures { GivesTower tokens.now result }
{
    let (found, wide, rest) = tower(alloc, tokens)?;
    Ok((found.into_inner(), wide, rest))
}

/// Tokens spell one tower at most at their front.
pub fn one_tower()
    ensures { OneTower }
{}
