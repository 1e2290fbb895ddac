//! Which tokens stand for which operations, and how tightly these hold together.

ghost use Rattle.std.specs.Prelude.{◌≡◌, ◌<◌, ◌≤◌, MatchBool};
ghost use Rattle.loop_exprs.specs.Operations.{tighter, operation_of, level_of, sign_operation, keyword_operation, word_of};
ghost use Rattle.loop_exprs.specs.Operations.{extreme_of, constant_of};
ghost use Rattle.loop_exprs.specs.Reading.{looser, rank};

use crate::level::Level;
use loop_data::{Expr, Op, Value, Word};
use loop_tokens::{Keyword, Sign, Token};

pub(crate) fn tighter(level: Level) -> Level
    ensures { result ≡ tighter level }
{
    match level {
        Level::Expr => Level::Or,
        Level::Or => Level::And,
        Level::And => Level::Not,
        Level::Not => Level::Compare,
        Level::Compare => Level::Join,
        Level::Join => Level::Add,
        Level::Add => Level::Multiply,
        Level::Multiply => Level::Negate,
        Level::Negate | Level::Atom => Level::Atom,
    }
}

pub(crate) fn looser(level: Level) -> Level
    ensures { result ≡ looser level }
{
    match level {
        Level::Atom => Level::Negate,
        Level::Negate => Level::Multiply,
        Level::Multiply => Level::Add,
        Level::Add => Level::Join,
        Level::Join => Level::Compare,
        Level::Compare => Level::Not,
        Level::Not => Level::And,
        Level::And => Level::Or,
        Level::Or | Level::Expr => Level::Expr,
    }
}

/// How loose a level is: the tightest is 0.
pub(crate) fn rank(level: Level) -> u8
    ensures { result ≡ rank level }
{
    match level {
        Level::Expr => 9,
        Level::Or => 8,
        Level::And => 7,
        Level::Not => 6,
        Level::Compare => 5,
        Level::Join => 4,
        Level::Add => 3,
        Level::Multiply => 2,
        Level::Negate => 1,
        Level::Atom => 0,
    }
}

/// Whether a level holds together more tightly than another.
pub(crate) fn is_tighter(level: Level, than: Level) -> bool
    ensures { MatchBool result (rank level < rank than) (rank than ≤ rank level) }
{
    rank(level) < rank(than)
}

fn sign_operation(sign: Sign) -> Option<Op>
    ensures { result ≡ sign_operation sign }
{
    match sign {
        Sign::Equal => Some(Op::Eq),
        Sign::NotEqual => Some(Op::Ne),
        Sign::Less => Some(Op::Lt),
        Sign::AtMost => Some(Op::Le),
        Sign::Greater => Some(Op::Gt),
        Sign::AtLeast => Some(Op::Ge),
        Sign::Join => Some(Op::Join),
        Sign::Plus => Some(Op::Add),
        Sign::Minus => Some(Op::Sub),
        Sign::Star => Some(Op::Mul),
        _ => None,
    }
}

fn keyword_operation(word: Keyword) -> Option<Op>
    ensures { result ≡ keyword_operation word }
{
    match word {
        Keyword::Or => Some(Op::Or),
        Keyword::And => Some(Op::And),
        Keyword::Div => Some(Op::Div),
        Keyword::Rem => Some(Op::Rem),
        Keyword::Mod => Some(Op::Mod),
        _ => None,
    }
}

/// The operation of two sides that a token between them stands for.
pub(crate) fn operation_of(token: &Token<'_>) -> Option<Op>
    ensures { result ≡ operation_of token.now }
{
    match token {
        Token::Sign(sign) => sign_operation(*sign),
        Token::Keyword(word) => keyword_operation(*word),
        _ => None,
    }
}

pub(crate) fn level_of(op: Op) -> Level
    ensures { result ≡ level_of op }
{
    match op {
        Op::Or => Level::Or,
        Op::And => Level::And,
        Op::Eq | Op::Ne | Op::Lt | Op::Le | Op::Gt | Op::Ge => Level::Compare,
        Op::Join => Level::Join,
        Op::Add | Op::Sub => Level::Add,
        Op::Mul | Op::Div | Op::Rem | Op::Mod => Level::Multiply,
        Op::Min | Op::Max => Level::Expr,
    }
}

pub(crate) fn word_of(word: Keyword) -> Option<Word>
    ensures { result ≡ word_of word }
{
    match word {
        Keyword::Abs => Some(Word::Abs),
        Keyword::Len => Some(Word::Len),
        Keyword::Int => Some(Word::Int),
        Keyword::TryInt => Some(Word::TryInt),
        Keyword::Text => Some(Word::Text),
        _ => None,
    }
}

pub(crate) fn extreme_of(word: Keyword) -> Option<Op>
    ensures { result ≡ extreme_of word }
{
    match word {
        Keyword::Min => Some(Op::Min),
        Keyword::Max => Some(Op::Max),
        _ => None,
    }
}

/// The expression that a word is by itself.
pub(crate) fn constant_of(word: Keyword) -> Option<Expr>
    ensures { result ≡ constant_of word }
{
    match word {
        Keyword::True => Some(Expr::Lit(Value::Bool(true))),
        Keyword::False => Some(Expr::Lit(Value::Bool(false))),
        Keyword::Place => Some(Expr::Place),
        _ => None,
    }
}
