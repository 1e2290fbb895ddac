//! What comes first among tokens.

ghost use Rattle.std.specs.Prelude.{◌≡◌, ◌≢◌, ◌≤◌, ◌↔◌, ◌∷◌, [], IsTrue, MatchOption, MatchBool};
ghost use Rattle.loop_tokens.specs.declared.token.Token.TheVariants as t;
ghost use Rattle.loop_exprs.specs.Grammar.{NotFirst, NoNumberFirst};
ghost use Rattle.loop_exprs.specs.Reading.{Ends, Begins, Opens, NotOpened, rank};
ghost use Rattle.loop_exprs.specs.Claims.{MayEnd};

use crate::level::Level;
use crate::operations::{level_of, operation_of, rank};
use loop_data::Op;
use loop_tokens::{Keyword, Piece, Sign, Token};

/// The first token and those behind it.
pub(crate) fn split<'t, 'a>(tokens: &'t [Token<'a>]) -> Option<(&'t Token<'a>, &'t [Token<'a>])>
    ensures { MatchOption result (tokens.now ≡ []) (λ p. tokens.now ≡ p.0.now ∷ p.1.now) }
{
    tokens.split_first()
}

fn is_sign(token: &Token<'_>, sign: Sign) -> bool
    ensures { MatchBool result (token.now ≡ t.Sign sign) (token.now ≢ t.Sign sign) }
{
    match token {
        Token::Sign(found) => *found == sign,
        _ => false,
    }
}

fn is_word(token: &Token<'_>, word: Keyword) -> bool
    ensures { MatchBool result (token.now ≡ t.Keyword word) (token.now ≢ t.Keyword word) }
{
    match token {
        Token::Keyword(found) => *found == word,
        _ => false,
    }
}

/// The tokens behind this sign, if it comes first.
pub(crate) fn eat<'t, 'a>(sign: Sign, tokens: &'t [Token<'a>]) -> Option<&'t [Token<'a>]>
    ensures { MatchOption result (NotFirst (t.Sign sign) tokens.now) (λ rest. tokens.now ≡ t.Sign sign ∷ rest.now) }
{
    let (first, rest) = split(tokens)?;
    if is_sign(first, sign) {
        Some(rest)
    } else {
        None
    }
}

/// The tokens behind this word, if it comes first.
pub(crate) fn eat_word<'t, 'a>(word: Keyword, tokens: &'t [Token<'a>]) -> Option<&'t [Token<'a>]>
    ensures { MatchOption result (NotFirst (t.Keyword word) tokens.now) (λ rest. tokens.now ≡ t.Keyword word ∷ rest.now) }
{
    let (first, rest) = split(tokens)?;
    if is_word(first, word) {
        Some(rest)
    } else {
        None
    }
}

/// The operation of the level that comes first, and the tokens behind it.
pub(crate) fn operator<'t, 'a>(
    level: Level,
    tokens: &'t [Token<'a>],
) -> Option<(Op, &'t [Token<'a>])>
    ensures { MatchOption result (Ends level tokens.now) (λ p. Begins level tokens.now p.0 p.1.now) }
{
    let (first, rest) = split(tokens)?;
    let op = operation_of(first)?;
    if level_of(op) == level {
        Some((op, rest))
    } else {
        None
    }
}

/// The tokens behind the one that begins a form of the level, if it comes first.
fn opening<'t, 'a>(level: Level, tokens: &'t [Token<'a>]) -> Option<&'t [Token<'a>]>
    ensures { MatchOption result (NotOpened level tokens.now) (λ rest. Opens level tokens.now rest.now) }
{
    match level {
        Level::Expr => eat_word(Keyword::If, tokens),
        Level::Not => eat_word(Keyword::Not, tokens),
        Level::Negate => eat(Sign::Minus, tokens),
        Level::Or
        | Level::And
        | Level::Compare
        | Level::Join
        | Level::Add
        | Level::Multiply
        | Level::Atom => None,
    }
}

/// The same, where an expression of another level may begin with that form.
pub(crate) fn opened<'t, 'a>(
    form: Level,
    level: Level,
    tokens: &'t [Token<'a>],
) -> Option<&'t [Token<'a>]>
    ensures { MatchOption result
        (rank form ≤ rank level → NotOpened form tokens.now)
        (λ rest. (rank form ≤ rank level) × Opens form tokens.now rest.now) }
{
    if rank(form) <= rank(level) {
        opening(form, tokens)
    } else {
        None
    }
}

/// Whether no operation comes first, so that an expression may end there.
pub(crate) fn may_end(tokens: &[Token<'_>]) -> bool
    ensures { IsTrue result ↔ MayEnd tokens.now }
{
    match tokens.first() {
        None => true,
        Some(token) => operation_of(token).is_none(),
    }
}

/// The digits of the number that comes first, and the tokens behind it.
pub(crate) fn number<'t, 'a>(tokens: &'t [Token<'a>]) -> Option<(&'t Piece<'a>, &'t [Token<'a>])>
    ensures { MatchOption result (NoNumberFirst tokens.now) (λ p. tokens.now ≡ t.Number p.0.now ∷ p.1.now) }
{
    match split(tokens)? {
        (Token::Number(digits), rest) => Some((digits, rest)),
        _ => None,
    }
}
