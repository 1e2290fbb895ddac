//! Expressions.

ghost use Rattle.std.specs.Prelude.{◌≡◌, [], ◌∷◌, ◌++◌, map, true, false, OnOk, if◌then◌else◌};
ghost use Rattle.loop_layout.specs.Layout.{token_text};
ghost use Rattle.loop_layout.specs.Canonical.{first, glued, comma, op_token, is_extreme, word_token, written_expr, expr_marks};
ghost use Rattle.loop_layout.specs.Canonical.{in_parentheses, negated, parts_marks};
ghost use Rattle.loop_writer.specs.Writing.{Writes};

use crate::marks::{write_keyword, write_name, write_sign, write_token, write_value};
use loop_data::{Expr, Op, Value, Word};
use loop_tokens::{Keyword, Sign};
use no_memory::NoMemory;

/// What stands between two sides, or is called with them.
fn op_text(op: Op) -> &'static str
    ensures { result.now ≡ token_text (op_token op) }
{
    match op {
        Op::Add => Sign::Plus.text(),
        Op::Sub => Sign::Minus.text(),
        Op::Mul => Sign::Star.text(),
        Op::Div => Keyword::Div.text(),
        Op::Rem => Keyword::Rem.text(),
        Op::Mod => Keyword::Mod.text(),
        Op::Min => Keyword::Min.text(),
        Op::Max => Keyword::Max.text(),
        Op::Join => Sign::Join.text(),
        Op::Eq => Sign::Equal.text(),
        Op::Ne => Sign::NotEqual.text(),
        Op::Lt => Sign::Less.text(),
        Op::Le => Sign::AtMost.text(),
        Op::Gt => Sign::Greater.text(),
        Op::Ge => Sign::AtLeast.text(),
        Op::And => Keyword::And.text(),
        Op::Or => Keyword::Or.text(),
    }
}

fn write_op(out: &mut Vec<u8>, op: Op, apart: bool) -> Result<(), NoMemory>
    ensures { OnOk result (Writes out.old out.new (first apart (op_token op) ∷ [])) }
{
    write_token(out, op_text(op), apart)
}

fn is_extreme(op: Op) -> bool
    ensures { result ≡ is_extreme op }
{
    matches!(op, Op::Min | Op::Max)
}

fn word_text(word: Word) -> &'static str
    ensures { result.now ≡ token_text (word_token word) }
{
    match word {
        Word::Abs => Keyword::Abs.text(),
        Word::Len => Keyword::Len.text(),
        Word::Int => Keyword::Int.text(),
        Word::TryInt => Keyword::TryInt.text(),
        Word::Text => Keyword::Text.text(),
    }
}

fn write_word(out: &mut Vec<u8>, word: Word, apart: bool) -> Result<(), NoMemory>
    ensures { OnOk result (Writes out.old out.new (first apart (word_token word) ∷ [])) }
{
    write_token(out, word_text(word), apart)
}

/// A comma, but before the first of several things.
pub(crate) fn write_comma(out: &mut Vec<u8>, follows: bool) -> Result<(), NoMemory>
    ensures { OnOk result (Writes out.old out.new (if follows then glued comma ∷ [] else [])) }
{
    if follows {
        write_sign(out, Sign::Comma, false)?;
    }
    Ok(())
}

/// Whether the expression stands in parentheses where it is a part of another one.
fn is_operation(expr: &Expr) -> bool
    ensures { (written_expr expr.now).part ≡
        (if result then in_parentheses (expr_marks expr.now) else expr_marks expr.now) }
{
    match expr {
        Expr::Two { op, .. } => !is_extreme(*op),
        Expr::Not(_) | Expr::If { .. } => true,
        _ => false,
    }
}

fn is_int(expr: &Expr) -> bool
    ensures { result ≡ (written_expr expr.now).is_int }
{
    match expr {
        Expr::Lit(value) => matches!(value, Value::Int(_)),
        _ => false,
    }
}

/// An expression that is a whole place, with no parentheses round it.
#[cycle(exprs)]
pub(crate) fn write_expr(out: &mut Vec<u8>, expr: &Expr, apart: bool) -> Result<(), NoMemory>
    ensures { OnOk result (Writes out.old out.new (expr_marks expr.now apart)) }
{
    match expr {
        Expr::Lit(value) => write_value(out, value, apart),
        Expr::Name(name) => write_name(out, name.as_str(), apart),
        Expr::Place => write_keyword(out, Keyword::Place, apart),
        Expr::Neg(part) => {
            write_sign(out, Sign::Open, apart)?;
            write_sign(out, Sign::Minus, false)?;
            write_negated(out, part.get())?;
            write_sign(out, Sign::Close, false)
        }
        Expr::Not(part) => {
            write_keyword(out, Keyword::Not, apart)?;
            write_part(out, part.get(), true)
        }
        Expr::Two { op, left, right } => {
            if is_extreme(*op) {
                write_op(out, *op, apart)?;
                write_sign(out, Sign::Open, false)?;
                write_expr(out, left.get(), false)?;
                write_sign(out, Sign::Comma, false)?;
                write_expr(out, right.get(), true)?;
                write_sign(out, Sign::Close, false)
            } else {
                write_part(out, left.get(), apart)?;
                write_op(out, *op, true)?;
                write_part(out, right.get(), true)
            }
        }
        Expr::Call { word, part } => {
            write_word(out, *word, apart)?;
            write_sign(out, Sign::Open, false)?;
            write_expr(out, part.get(), false)?;
            write_sign(out, Sign::Close, false)
        }
        Expr::If { test, yes, no } => {
            write_keyword(out, Keyword::If, apart)?;
            write_part(out, test.get(), true)?;
            write_keyword(out, Keyword::Then, true)?;
            write_part(out, yes.get(), true)?;
            write_keyword(out, Keyword::Else, true)?;
            match no {
                None => write_keyword(out, Keyword::Nothing, true),
                Some(other) => write_part(out, other.get(), true),
            }
        }
        Expr::Tuple(parts) => {
            write_sign(out, Sign::Open, apart)?;
            write_parts(out, parts.as_slice())?;
            write_sign(out, Sign::Close, false)
        }
    }
}

/// An expression that is a part of another one, an operation in parentheses.
#[cycle(exprs)]
fn write_part(out: &mut Vec<u8>, expr: &Expr, apart: bool) -> Result<(), NoMemory>
    ensures { OnOk result (Writes out.old out.new ((written_expr expr.now).part apart)) }
{
    if is_operation(expr) {
        write_sign(out, Sign::Open, apart)?;
        write_expr(out, expr, false)?;
        write_sign(out, Sign::Close, false)
    } else {
        write_expr(out, expr, apart)
    }
}

/// What stands behind unary minus, a number in parentheses.
#[cycle(exprs)]
fn write_negated(out: &mut Vec<u8>, expr: &Expr) -> Result<(), NoMemory>
    ensures { OnOk result (Writes out.old out.new (negated (written_expr expr.now) false)) }
{
    if is_int(expr) {
        write_sign(out, Sign::Open, false)?;
        write_expr(out, expr, false)?;
        write_sign(out, Sign::Close, false)
    } else {
        write_part(out, expr, false)
    }
}

/// The parts of a tuple.
#[cycle(exprs)]
fn write_parts(out: &mut Vec<u8>, parts: &[Expr]) -> Result<(), NoMemory>
    ensures { OnOk result (Writes out.old out.new (parts_marks (map written_expr parts.now))) }
{
    for (i, part) in parts.iter().enumerate() {
        write_comma(out, i > 0)?;
        write_expr(out, part, i > 0)?;
    }
    Ok(())
}
