//! The limits of one line.

ghost use Rattle.std.specs.Prelude.{◌≡◌, ◌+◌, ◌<◌, ◌^◌};
ghost use Rattle.loop_tokens.specs.Limits.{is_too_deep, is_no_parenthesis, open_behind, most_open};

use crate::sign::Sign;
use crate::token::Token;

/// How many tokens of a line may be no parentheses, and how many parentheses may be open at one place.
pub const LIMIT: usize = 256;

/// Whether the token is no parenthesis.
fn is_no_parenthesis(token: &Token<'_>) -> bool
    ensures { result ≡ is_no_parenthesis token.now }
{
    match token {
        Token::Sign(Sign::Open | Sign::Close) => false,
        _ => true,
    }
}

/// How many parentheses are open behind a token.
fn open_behind(left: usize, token: &Token<'_>) -> usize
    requires { left + 1 < 2 ^ 64 }
    ensures { result ≡ open_behind left token.now }
{
    match token {
        Token::Sign(Sign::Open) => left + 1,
        Token::Sign(Sign::Close) => left.saturating_sub(1),
        _ => left,
    }
}

/// Whether over 256 of a line's tokens are no parentheses, or over 256 parentheses are open at one place. A `)` that
/// closes nothing leaves none open.
pub fn is_too_deep(tokens: &[Token<'_>]) -> bool
    ensures { result ≡ is_too_deep tokens.now }
{
    let others = tokens.iter().filter(|t| is_no_parenthesis(t)).count();
    others > LIMIT || most_open(tokens) > LIMIT
}

/// The most parentheses that are open at one place.
fn most_open(tokens: &[Token<'_>]) -> usize
    ensures { result ≡ most_open 0 tokens.now }
{
    let mut left: usize = 0;
    let mut most: usize = 0;
    for token in tokens {
        left = open_behind(left, token);
        most = most.max(left);
    }
    most
}
