//! Reads an expression.

ghost use Rattle.std.specs.Prelude.{◌≡◌, ◌<◌, ◌≤◌, ◌∷◌, ◌||◌, IfOk, length};
ghost use Rattle.loop_tokens.specs.declared.token.Token.TheVariants as t;
ghost use Rattle.loop_exprs.specs.Grammar.{Spells};
ghost use Rattle.loop_exprs.specs.Reading.{GivesBranches, GivesFirst, GivesOnward, Gives, Reads, GoesOn, ReadsAll, beside};
ghost use Rattle.loop_exprs.specs.Claims.{GaveEachFront, MayEnd, OneReading};

use crate::front::{eat, eat_word, may_end, number, opened, operator, split};
use crate::leaves::{
    applied, chosen, closed, constant, int, name, negate, negative_value, not, positive_value,
    text, two,
};
use crate::level::Level;
use crate::operations::{is_tighter, looser, tighter};
use loop_data::{Boxed, Expr};
use loop_tokens::{Keyword, Sign, Token};
use std::alloc::{AllocError, AllocFailed, Global};

/// Why no expression was read.
#[derive(Clone, Copy, Debug, PartialEq, Eq)]
pub enum ReadError {
    /// Memory ran out.
    NoMemory,
    /// The tokens spell no expression.
    NotSpelled,
}

impl From<no_memory::NoMemory> for ReadError {
    ghost use Rattle.loop_exprs.specs.declared.read.ReadError.TheVariants.{NoMemory};

    ghost from_gives = { λ _ e. e ≡ NoMemory };

    fn from(_e: no_memory::NoMemory) -> ReadError {
        ReadError::NoMemory
    }
}

impl From<AllocError> for ReadError {
    ghost use Rattle.loop_exprs.specs.declared.read.ReadError.TheVariants.{NoMemory};

    ghost from_gives = { λ _ e. e ≡ NoMemory };

    fn from(_e: AllocError) -> ReadError {
        ReadError::NoMemory
    }
}

impl<T: Drop> From<AllocFailed<T>> for ReadError {
    ghost use Rattle.loop_exprs.specs.declared.read.ReadError.TheVariants.{NoMemory};

    ghost from_gives = { λ _ e. e ≡ NoMemory };

    fn from(_e: AllocFailed<T>) -> ReadError {
        ReadError::NoMemory
    }
}

/// An expression beside what was read with it.
fn beside<'t, 'a>(
    found: Option<Boxed<Expr>>,
    wide: bool,
    rest: &'t [Token<'a>],
) -> Result<(Boxed<Expr>, bool, &'t [Token<'a>]), ReadError>
    ensures value { Gives (λ r. r ≡ beside wide rest.now found) (λ p. (p.0, p.1, p.2.now)) result }
    ensures rest { IfOk result (λ p. p.2.now ≡ rest.now) }
{
    match found {
        Some(expr) => Ok((expr, wide, rest)),
        None => Err(ReadError::NotSpelled),
    }
}

/// Whether some number is too wide on one side or the other.
fn either(wide: bool, also: bool) -> bool
    ensures { result ≡ (wide || also) }
{
    wide || also
}

/// Reads an expression of a level from the front of the tokens: what stands first, and behind it the operations of each
/// looser level up to that one.
#[cycle(reader)]
fn expr<'t, 'a>(
    alloc: Global,
    level: Level,
    tokens: &'t [Token<'a>],
) -> Result<(Boxed<Expr>, bool, &'t [Token<'a>]), ReadError>
    ensures reads { Gives (Reads level tokens.now) (λ p. (p.0, p.1, p.2.now)) result }
    ensures shorter { IfOk result (λ p. length p.2.now < length tokens.now) }
{
    let (from, first, also, behind) = first(alloc, level, tokens)?;
    let mut at = from;
    let mut left = first;
    let mut wide = also;
    let mut rest = behind;
    'levels: while is_tighter(at, level) {
        at = looser(at);
        let (both, also, behind) = onward(alloc, at, left, wide, rest)?;
        left = both;
        wide = also;
        rest = behind;
    }
    Ok((left, wide, rest))
}

/// Goes on behind an expression of the next tighter level with the operations of a level.
#[cycle(reader)]
fn onward<'t, 'a>(
    alloc: Global,
    level: Level,
    left: Boxed<Expr>,
    wide: bool,
    tokens: &'t [Token<'a>],
) -> Result<(Boxed<Expr>, bool, &'t [Token<'a>]), ReadError>
    ensures reads { GivesOnward level left wide tokens.now (λ p. (p.0, p.1, p.2.now)) result }
    ensures no_longer { IfOk result (λ p. length p.2.now ≤ length tokens.now) }
{
    match level {
        Level::Compare => comparison(alloc, left, wide, tokens),
        Level::Expr
        | Level::Or
        | Level::And
        | Level::Not
        | Level::Join
        | Level::Add
        | Level::Multiply
        | Level::Negate
        | Level::Atom => operations(alloc, level, left, wide, tokens),
    }
}

/// Goes on with one comparison, which does not repeat.
#[cycle(reader)]
fn comparison<'t, 'a>(
    alloc: Global,
    left: Boxed<Expr>,
    wide: bool,
    tokens: &'t [Token<'a>],
) -> Result<(Boxed<Expr>, bool, &'t [Token<'a>]), ReadError>
    ensures reads { GivesOnward Level.Compare left wide tokens.now (λ p. (p.0, p.1, p.2.now)) result }
    ensures no_longer { IfOk result (λ p. length p.2.now ≤ length tokens.now) }
{
    match operator(Level::Compare, tokens) {
        Some((op, rest)) => {
            let (right, also, rest) = expr(alloc, Level::Join, rest)?;
            let both = either(wide, also);
            Ok((two(alloc, op, left, right)?, both, rest))
        }
        None => Ok((left, wide, tokens)),
    }
}

/// Goes on with the operations of a level, which group to the left.
#[cycle(reader)]
fn operations<'t, 'a>(
    alloc: Global,
    level: Level,
    left: Boxed<Expr>,
    wide: bool,
    tokens: &'t [Token<'a>],
) -> Result<(Boxed<Expr>, bool, &'t [Token<'a>]), ReadError>
    ensures reads { Gives (GoesOn level left wide tokens.now) (λ p. (p.0, p.1, p.2.now)) result }
    ensures no_longer { IfOk result (λ p. length p.2.now ≤ length tokens.now) }
{
    match operator(level, tokens) {
        Some((op, rest)) => {
            let (right, also, rest) = expr(alloc, tighter(level), rest)?;
            let both = either(wide, also);
            operations(alloc, level, two(alloc, op, left, right)?, both, rest)
        }
        None => Ok((left, wide, tokens)),
    }
}

/// Reads what stands first in an expression of a level: the level that it is of, and it.
#[cycle(reader)]
fn first<'t, 'a>(
    alloc: Global,
    level: Level,
    tokens: &'t [Token<'a>],
) -> Result<(Level, Boxed<Expr>, bool, &'t [Token<'a>]), ReadError>
    ensures reads { GivesFirst level tokens.now (λ p. (p.0, p.1, p.2, p.3.now)) result }
    ensures shorter { IfOk result (λ p. length p.3.now < length tokens.now) }
{
    match opened(Level::Expr, level, tokens) {
        Some(rest) => {
            let (found, wide, rest) = choice(alloc, rest)?;
            Ok((Level::Expr, found, wide, rest))
        }
        None => match opened(Level::Not, level, tokens) {
            Some(rest) => {
                let (inner, wide, rest) = expr(alloc, Level::Not, rest)?;
                Ok((Level::Not, not(alloc, inner)?, wide, rest))
            }
            None => match opened(Level::Negate, level, tokens) {
                Some(rest) => {
                    let (found, wide, rest) = sign(alloc, rest)?;
                    Ok((Level::Negate, found, wide, rest))
                }
                None => {
                    let (found, wide, rest) = atom(alloc, tokens)?;
                    Ok((Level::Atom, found, wide, rest))
                }
            },
        },
    }
}

/// Reads what follows `-`.
#[cycle(reader)]
fn sign<'t, 'a>(
    alloc: Global,
    tokens: &'t [Token<'a>],
) -> Result<(Boxed<Expr>, bool, &'t [Token<'a>]), ReadError>
    ensures reads { Gives (Reads Level.Negate (t.Sign Sign.Minus ∷ tokens.now)) (λ p. (p.0, p.1, p.2.now)) result }
    ensures shorter { IfOk result (λ p. length p.2.now < length tokens.now) }
{
    match number(tokens) {
        Some((digits, rest)) => {
            let (n, wide) = negative_value(digits);
            Ok((int(alloc, n)?, wide, rest))
        }
        None => {
            let (inner, wide, rest) = expr(alloc, Level::Negate, tokens)?;
            Ok((negate(alloc, inner)?, wide, rest))
        }
    }
}

#[cycle(reader)]
fn atom<'t, 'a>(
    alloc: Global,
    tokens: &'t [Token<'a>],
) -> Result<(Boxed<Expr>, bool, &'t [Token<'a>]), ReadError>
    ensures reads { Gives (Reads Level.Atom tokens.now) (λ p. (p.0, p.1, p.2.now)) result }
    ensures shorter { IfOk result (λ p. length p.2.now < length tokens.now) }
{
    let Some((first, rest)) = split(tokens) else {
        return Err(ReadError::NotSpelled);
    };
    match first {
        Token::Number(digits) => {
            let (n, wide) = positive_value(digits);
            Ok((int(alloc, n)?, wide, rest))
        }
        Token::Text(raw) => Ok((text(alloc, raw)?, false, rest)),
        Token::Name(piece) => Ok((name(alloc, piece)?, false, rest)),
        Token::Keyword(keyword) => word(alloc, *keyword, rest),
        Token::Sign(_) => {
            let Some(rest) = eat(Sign::Open, tokens) else {
                return Err(ReadError::NotSpelled);
            };
            let (found, wide, rest) = arguments(alloc, rest)?;
            beside(closed(alloc, found)?, wide, rest)
        }
        Token::At(_) => Err(ReadError::NotSpelled),
    }
}

/// Reads what follows a reserved word.
#[cycle(reader)]
fn word<'t, 'a>(
    alloc: Global,
    word: Keyword,
    tokens: &'t [Token<'a>],
) -> Result<(Boxed<Expr>, bool, &'t [Token<'a>]), ReadError>
    ensures reads { Gives (Reads Level.Atom (t.Keyword word ∷ tokens.now)) (λ p. (p.0, p.1, p.2.now)) result }
    ensures no_longer { IfOk result (λ p. length p.2.now ≤ length tokens.now) }
{
    if let Some(constant) = constant(alloc, word)? {
        return Ok((constant, false, tokens));
    }
    let Some(rest) = eat(Sign::Open, tokens) else {
        return Err(ReadError::NotSpelled);
    };
    let (found, wide, rest) = arguments(alloc, rest)?;
    beside(applied(alloc, word, found)?, wide, rest)
}

/// Reads the parts up to the parenthesis that closes them.
#[cycle(reader)]
fn arguments<'t, 'a>(
    alloc: Global,
    tokens: &'t [Token<'a>],
) -> Result<(Vec<Boxed<Expr>>, bool, &'t [Token<'a>]), ReadError>
    ensures reads { Gives (ReadsAll tokens.now) (λ p. (p.0.items, p.1, p.2.now)) result }
    ensures shorter { IfOk result (λ p. length p.2.now < length tokens.now) }
{
    let (first, also, behind) = expr(alloc, Level::Expr, tokens)?;
    let mut found = Vec::new(alloc);
    found.push(first)?;
    let mut wide = also;
    let mut rest = behind;
    'parts: while let Some(behind) = eat(Sign::Comma, rest) {
        let (part, also, behind) = expr(alloc, Level::Expr, behind)?;
        found.push(part)?;
        wide = either(wide, also);
        rest = behind;
    }
    match eat(Sign::Close, rest) {
        Some(rest) => Ok((found, wide, rest)),
        None => Err(ReadError::NotSpelled),
    }
}

/// Reads what follows `if`.
#[cycle(reader)]
fn choice<'t, 'a>(
    alloc: Global,
    tokens: &'t [Token<'a>],
) -> Result<(Boxed<Expr>, bool, &'t [Token<'a>]), ReadError>
    ensures reads { Gives (Reads Level.Expr (t.Keyword Keyword.If ∷ tokens.now)) (λ p. (p.0, p.1, p.2.now)) result }
    ensures shorter { IfOk result (λ p. length p.2.now < length tokens.now) }
{
    let (test, wide, rest) = expr(alloc, Level::Expr, tokens)?;
    match eat_word(Keyword::Then, rest) {
        Some(rest) => branches(alloc, test, wide, rest),
        None => Err(ReadError::NotSpelled),
    }
}

/// Reads what follows `then`. It stands apart so that `expr` has no room for it among its locals.
#[cycle(reader)]
#[inline(never)]
fn branches<'t, 'a>(
    alloc: Global,
    test: Boxed<Expr>,
    wide: bool,
    tokens: &'t [Token<'a>],
) -> Result<(Boxed<Expr>, bool, &'t [Token<'a>]), ReadError>
    ensures reads { GivesBranches test wide tokens.now (λ p. (p.0, p.1, p.2.now)) result }
    ensures shorter { IfOk result (λ p. length p.2.now < length tokens.now) }
{
    let (yes, also, rest) = expr(alloc, Level::Expr, tokens)?;
    let Some(rest) = eat_word(Keyword::Else, rest) else {
        return Err(ReadError::NotSpelled);
    };
    let both = either(wide, also);
    match eat_word(Keyword::Nothing, rest) {
        Some(rest) => Ok((chosen(alloc, test, yes, None)?, both, rest)),
        None => {
            let (no, last, rest) = expr(alloc, Level::Expr, rest)?;
            let all = either(both, last);
            Ok((chosen(alloc, test, yes, Some(no))?, all, rest))
        }
    }
}

/// Reads the expression at the front of the tokens, as far as one goes: the expression, whether some number in it is too
/// wide (it then has 0 in its place), and the tokens that follow. `NotSpelled` exactly where none is spelled up to a place
/// where one may end; otherwise the only error is want of memory. The recursion is bounded by the line's limits.
pub fn read_front<'t, 'a>(
    alloc: Global,
    tokens: &'t [Token<'a>],
) -> Result<(Expr, bool, &'t [Token<'a>]), ReadError>
    ensures spelled { IfOk result (λ p. Spells Level.Expr p.0 p.1 tokens.now p.2.now) }
    ensures ends { IfOk result (λ p. MayEnd p.2.now) }
    ensures only { GaveEachFront (λ p. (p.0, p.1, p.2.now)) result tokens.now }
    ensures shorter { IfOk result (λ p. length p.2.now < length tokens.now) }
{
    let (found, wide, rest) = expr(alloc, Level::Expr, tokens)?;
    if may_end(rest) {
        Ok((found.into_inner(), wide, rest))
    } else {
        Err(ReadError::NotSpelled)
    }
}

/// Tokens spell one expression at most up to a place where one may end.
pub fn one_reading()
    ensures { OneReading }
{}
