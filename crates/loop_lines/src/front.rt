//! What stands at the front of a line's tokens.

ghost use Rattle.std.specs.Prelude.{◌≡◌, ◌≢◌, ◌∷◌, [], MatchOption, MatchBool, codes};
ghost use Rattle.loop_tokens.specs.declared.token.Token.TheVariants as t;
ghost use Rattle.loop_exprs.specs.Grammar.{NotFirst};
ghost use Rattle.loop_lines.specs.Skips.{IsFaultSkip, NoFaultSkip};
ghost use Rattle.loop_lines.specs.Claims.{IsCall, NoCall, IsAssigned, NotAssigned, IsSkip};

use loop_heads::{eat, eat_name};
use loop_tokens::{Keyword, Piece, Sign, Token};

/// The first token and those behind it.
pub(crate) fn split<'t, 'a>(tokens: &'t [Token<'a>]) -> Option<(&'t Token<'a>, &'t [Token<'a>])>
    ensures { MatchOption result (tokens.now ≡ []) (λ p. tokens.now ≡ p.0.now ∷ p.1.now) }
{
    tokens.split_first()
}

/// The word that comes first with a `(` behind it, and the tokens behind that.
pub(crate) fn call<'t, 'a>(tokens: &'t [Token<'a>]) -> Option<(Keyword, &'t [Token<'a>])>
    ensures { MatchOption result (NoCall tokens.now) (λ p. IsCall tokens.now p.0 p.1.now) }
{
    match split(tokens)? {
        (Token::Keyword(word), rest) => {
            let rest = eat(Sign::Open, rest)?;
            Some((*word, rest))
        }
        _ => None,
    }
}

/// The name that comes first with a `=` behind it, and the tokens behind that.
pub(crate) fn assigned<'t, 'a>(tokens: &'t [Token<'a>]) -> Option<(&'t Piece<'a>, &'t [Token<'a>])>
    ensures { MatchOption result
        (NotAssigned tokens.now) (λ p. IsAssigned tokens.now p.0.now p.1.now) }
{
    let (name, rest) = eat_name(tokens)?;
    let rest = eat(Sign::Assign, rest)?;
    Some((name, rest))
}

/// Whether the token is this name.
fn is_name(token: &Token<'_>, name: &str) -> bool
    ensures { MatchBool result (token.now ≡ t.Name name.now) (token.now ≢ t.Name name.now) }
{
    match token {
        Token::Name(found) => found.as_str() == name,
        _ => false,
    }
}

/// The tokens behind this name, if it comes first.
fn eat_this<'t, 'a>(name: &str, tokens: &'t [Token<'a>]) -> Option<&'t [Token<'a>]>
    ensures { MatchOption result
        (NotFirst (t.Name name.now) tokens.now) (λ rest. tokens.now ≡ t.Name name.now ∷ rest.now) }
{
    let (first, rest) = split(tokens)?;
    if is_name(first, name) {
        Some(rest)
    } else {
        None
    }
}

/// The tokens behind the names `fault` and `skip`, if they come first.
fn fault_skip<'t, 'a>(tokens: &'t [Token<'a>]) -> Option<&'t [Token<'a>]>
    ensures { MatchOption result
        (NoFaultSkip tokens.now) (λ rest. IsFaultSkip tokens.now rest.now) }
{
    let rest = eat_this("fault", tokens)?;
    let rest = eat_this("skip", rest)?;
    Some(rest)
}

/// Whether the tokens are the names `fault` and `skip`, and nothing more.
fn is_fault_skip(tokens: &[Token<'_>]) -> bool
    ensures { MatchBool result (IsFaultSkip tokens.now []) (IsFaultSkip tokens.now [] → ⊥) }
{
    match fault_skip(tokens) {
        Some(rest) => is_end(rest),
        None => false,
    }
}

/// Whether the word is `on`.
fn is_on(word: &Piece<'_>) -> bool
    ensures { MatchBool result (word.now ≡ codes "on") (word.now ≢ codes "on") }
{
    word.as_str() == "on"
}

/// Whether the word and the tokens behind it are `on fault skip`.
pub(crate) fn is_skip(word: &Piece<'_>, tokens: &[Token<'_>]) -> bool
    ensures { MatchBool result (IsSkip word.now tokens.now) (IsSkip word.now tokens.now → ⊥) }
{
    is_on(word) && is_fault_skip(tokens)
}

/// Whether the line ends there.
pub(crate) fn is_end(tokens: &[Token<'_>]) -> bool
    ensures { MatchBool result (tokens.now ≡ []) (tokens.now ≢ []) }
{
    tokens.is_empty()
}
