//! Takes single tokens from the front of a line.

ghost use Rattle.std.specs.Prelude.{◌≡◌, ◌≢◌, ◌∷◌, [], MatchOption, MatchBool};
ghost use Rattle.loop_tokens.specs.declared.token.Token.TheVariants as t;
ghost use Rattle.loop_exprs.specs.Grammar.{NotFirst, NoNumberFirst};
ghost use Rattle.loop_heads.specs.Tokens.{NoNameFirst, NoTextFirst};

use loop_tokens::{Keyword, Piece, Sign, Token};

/// The first token and those behind it.
pub(crate) fn split<'t, 'a>(tokens: &'t [Token<'a>]) -> Option<(&'t Token<'a>, &'t [Token<'a>])>
    ensures { MatchOption result (tokens.now ≡ []) (λ p. tokens.now ≡ p.0.now ∷ p.1.now) }
{
    tokens.split_first()
}

fn is_sign(token: &Token<'_>, sign: Sign) -> bool
    ensures { MatchBool result (token.now ≡ t.Sign sign) (token.now ≢ t.Sign sign) }
{
    match token {
        Token::Sign(found) => *found == sign,
        _ => false,
    }
}

fn is_word(token: &Token<'_>, word: Keyword) -> bool
    ensures { MatchBool result (token.now ≡ t.Keyword word) (token.now ≢ t.Keyword word) }
{
    match token {
        Token::Keyword(found) => *found == word,
        _ => false,
    }
}

/// The tokens behind this sign, if it comes first.
pub fn eat<'t, 'a>(sign: Sign, tokens: &'t [Token<'a>]) -> Option<&'t [Token<'a>]>
    ensures { MatchOption result (NotFirst (t.Sign sign) tokens.now) (λ rest. tokens.now ≡ t.Sign sign ∷ rest.now) }
{
    let (first, rest) = split(tokens)?;
    if is_sign(first, sign) {
        Some(rest)
    } else {
        None
    }
}

/// The tokens behind this reserved word, if it comes first.
pub fn eat_word<'t, 'a>(word: Keyword, tokens: &'t [Token<'a>]) -> Option<&'t [Token<'a>]>
    ensures { MatchOption result (NotFirst (t.Keyword word) tokens.now) (λ rest. tokens.now ≡ t.Keyword word ∷ rest.now) }
{
    let (first, rest) = split(tokens)?;
    if is_word(first, word) {
        Some(rest)
    } else {
        None
    }
}

/// The name that comes first, as it is written, and the tokens behind it.
pub fn eat_name<'t, 'a>(tokens: &'t [Token<'a>]) -> Option<(&'t Piece<'a>, &'t [Token<'a>])>
    ensures { MatchOption result (NoNameFirst tokens.now) (λ p. tokens.now ≡ t.Name p.0.now ∷ p.1.now) }
{
    match split(tokens)? {
        (Token::Name(name), rest) => Some((name, rest)),
        _ => None,
    }
}

/// The digits of the number that comes first, and the tokens behind it.
pub(crate) fn eat_number<'t, 'a>(
    tokens: &'t [Token<'a>],
) -> Option<(&'t Piece<'a>, &'t [Token<'a>])>
    ensures { MatchOption result (NoNumberFirst tokens.now) (λ p. tokens.now ≡ t.Number p.0.now ∷ p.1.now) }
{
    match split(tokens)? {
        (Token::Number(digits), rest) => Some((digits, rest)),
        _ => None,
    }
}

/// What stands between the quotes of the text that comes first, and the tokens behind it.
pub(crate) fn eat_text<'t, 'a>(tokens: &'t [Token<'a>]) -> Option<(&'t Piece<'a>, &'t [Token<'a>])>
    ensures { MatchOption result (NoTextFirst tokens.now) (λ p. tokens.now ≡ t.Text p.0.now ∷ p.1.now) }
{
    match split(tokens)? {
        (Token::Text(raw), rest) => Some((raw, rest)),
        _ => None,
    }
}
