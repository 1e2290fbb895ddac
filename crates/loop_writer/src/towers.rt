//! Towers.

ghost use Rattle.std.specs.Prelude.{◌≡◌, ◌∷◌, ◌++◌, true, OnOk, MatchOption};
ghost use Rattle.loop_tokens.specs.declared.token.Token.TheVariants as tok;
ghost use Rattle.loop_tokens.specs.declared.sign.Sign.TheVariants as sg;
ghost use Rattle.loop_layout.specs.Canonical.{kind_word, tower_marks, start_marks, added_marks, assigned_marks, folded_marks};
ghost use Rattle.loop_writer.specs.Writing.{Writes};

use crate::exprs::write_expr;
use crate::marks::{write_keyword, write_sign, write_value};
use loop_data::{Expr, Kind, TowerExpr, Value};
use loop_tokens::{Keyword, Sign};
use no_memory::NoMemory;

fn kind_word(kind: &Kind) -> Keyword
    ensures { result ≡ kind_word kind.now }
{
    match kind {
        Kind::Sum => Keyword::Sum,
        Kind::Prod => Keyword::Prod,
        Kind::Count => Keyword::Count,
        Kind::Least => Keyword::Min,
        Kind::Greatest => Keyword::Max,
        Kind::LeastAt => Keyword::ArgMin,
        Kind::GreatestAt => Keyword::ArgMax,
        Kind::First => Keyword::First,
        Kind::Last => Keyword::Last,
        Kind::Any => Keyword::Any,
        Kind::All => Keyword::All,
        Kind::Listed => Keyword::List,
        Kind::Grouped(_) => Keyword::Group,
        Kind::Both(_, _) => Keyword::Both,
    }
}

fn write_tower(out: &mut Vec<u8>, tower: &TowerExpr, apart: bool) -> Result<(), NoMemory>
    ensures { OnOk result (Writes out.old out.new (tower_marks tower.now apart)) }
{
    match tower {
        TowerExpr::Leaf { kind, expr } => {
            write_keyword(out, kind_word(kind), apart)?;
            write_sign(out, Sign::Open, false)?;
            write_expr(out, expr, false)?;
            write_sign(out, Sign::Close, false)
        }
        TowerExpr::Count => {
            write_keyword(out, Keyword::Count, apart)?;
            write_sign(out, Sign::Open, false)?;
            write_sign(out, Sign::Close, false)
        }
        TowerExpr::Grouped { key, inner } => {
            write_keyword(out, Keyword::Group, apart)?;
            write_sign(out, Sign::Open, false)?;
            write_expr(out, key, false)?;
            write_sign(out, Sign::Comma, false)?;
            write_tower(out, inner.get(), true)?;
            write_sign(out, Sign::Close, false)
        }
        TowerExpr::Both(left, right) => {
            write_keyword(out, Keyword::Both, apart)?;
            write_sign(out, Sign::Open, false)?;
            write_tower(out, left.get(), false)?;
            write_sign(out, Sign::Comma, false)?;
            write_tower(out, right.get(), true)?;
            write_sign(out, Sign::Close, false)
        }
    }
}

fn write_start(out: &mut Vec<u8>, start: &Option<Value>) -> Result<(), NoMemory>
    ensures { OnOk result (Writes out.old out.new (start_marks start.now)) }
{
    match start {
        None => Ok(()),
        Some(value) => {
            write_keyword(out, Keyword::From, true)?;
            write_value(out, value, true)
        }
    }
}

/// A tower with its sign, and its start value.
fn write_started(
    out: &mut Vec<u8>,
    tower: &TowerExpr,
    start: &Option<Value>,
) -> Result<(), NoMemory>
    ensures { OnOk result (Writes out.old out.new (assigned_marks tower.now start.now)) }
{
    write_sign(out, Sign::Assign, true)?;
    write_tower(out, tower, true)?;
    write_start(out, start)
}

/// The expression of a sum at the top without a start value, which is written with `+=`.
fn added<'a>(tower: &'a TowerExpr, start: &Option<Value>) -> Option<&'a Expr>
    ensures { MatchOption result
        (folded_marks tower.now start.now ≡ assigned_marks tower.now start.now)
        (λ x. folded_marks tower.now start.now ≡ added_marks x.now) }
{
    match (tower, start) {
        (
            TowerExpr::Leaf {
                kind: Kind::Sum,
                expr,
            },
            None,
        ) => Some(expr),
        _ => None,
    }
}

/// What follows the name of an `@reduce` line.
pub(crate) fn write_folded(
    out: &mut Vec<u8>,
    tower: &TowerExpr,
    start: &Option<Value>,
) -> Result<(), NoMemory>
    ensures { OnOk result (Writes out.old out.new (folded_marks tower.now start.now)) }
{
    match added(tower, start) {
        Some(expr) => {
            write_sign(out, Sign::PlusAssign, true)?;
            write_expr(out, expr, true)
        }
        None => write_started(out, tower, start),
    }
}
