ghost use Rattle.std.specs.Prelude.{◌≡◌, ◌≢◌, Err, IfOk, ◌<◌, unsigned_abs, neg_ℤ, pos};
ghost use Rattle.std.specs.Int.{w64, int_wrap};
ghost use Rattle.loop_data.specs.ValueParts.{is_equal};
ghost use Rattle.loop_values.specs.Operations.{text_of, divided, remainder, modulo, with_sign_of, joined, is_less, compared};
ghost use Rattle.loop_values.specs.Operations.{arithmetic, is_arithmetic, is_comparison, is_counting, gives_truth};
ghost use Rattle.loop_values.specs.Operations.{int_or_fault, number_or_fault, two_of, decides, call_of};
ghost use Rattle.loop_values.specs.Spelling.{spelled};

use crate::EvalStop;
use crate::spelling::spelled;
use loop_data::{Op, TextValue, Value, Word};
use no_memory::NoMemory;
use std::alloc::Global;

/// The most bytes that `&` may make.
const TEXT_LIMIT: usize = 1048576;

/// Whether the left side of an operation decides, so that the right side is left out.
pub(crate) fn decides(op: Op, left: &Value) -> bool
    ensures { result ≡ decides op left.now }
{
    match op {
        Op::And => !left.as_bool(),
        Op::Or => left.as_bool(),
        _ => false,
    }
}

/// Whether an operation takes numbers and gives one.
pub(crate) fn is_arithmetic(op: Op) -> bool
    ensures { result ≡ is_arithmetic op }
{
    match op {
        Op::Add | Op::Sub | Op::Mul | Op::Div | Op::Rem | Op::Mod | Op::Min | Op::Max => true,
        _ => false,
    }
}

/// Whether an operation compares its sides.
pub(crate) fn is_comparison(op: Op) -> bool
    ensures { result ≡ is_comparison op }
{
    match op {
        Op::Eq | Op::Ne | Op::Lt | Op::Le | Op::Gt | Op::Ge => true,
        _ => false,
    }
}

/// Whether an operation gives a truth value.
pub(crate) fn gives_truth(op: Op) -> bool
    ensures { result ≡ gives_truth op }
{
    match op {
        Op::And | Op::Or => true,
        _ => is_comparison(op),
    }
}

/// Whether a word gives a number or a fault.
pub(crate) fn is_counting(word: Word) -> bool
    ensures { result ≡ is_counting word }
{
    match word {
        Word::Abs | Word::Len | Word::Int => true,
        _ => false,
    }
}

/// An operation on the values of both sides.
pub(crate) fn two(alloc: Global, op: Op, x: &Value, y: &Value) -> Result<Value, EvalStop>
    ensures { result ≢ Err EvalStop.NoMemory → result ≡ two_of op x.now y.now }
{
    if is_arithmetic(op) {
        return Ok(Value::Int(arithmetic(op, x.as_int(), y.as_int())?));
    }
    if is_comparison(op) {
        return Ok(Value::Bool(compared(op, x, y)));
    }
    match op {
        Op::Join => joined(alloc, x, y),
        // It is `and` or `or`.
        _ => Ok(Value::Bool(y.as_bool())),
    }
}

/// An operation on two numbers that gives a number; 0 for any other operation.
#[inline]
pub(crate) fn arithmetic(op: Op, a: i64, b: i64) -> Result<i64, EvalStop>
    ensures { result ≡ arithmetic op a b }
{
    match op {
        Op::Add => Ok(a.wrapping_add(b)),
        Op::Sub => Ok(a.wrapping_sub(b)),
        Op::Mul => Ok(a.wrapping_mul(b)),
        Op::Div => divided(a, b),
        Op::Rem => remainder(a, b),
        Op::Mod => modulo(a, b),
        Op::Min => Ok(a.min(b)),
        Op::Max => Ok(a.max(b)),
        _ => Ok(0),
    }
}

/// A comparison of two values; false for any other operation.
pub(crate) fn compared(op: Op, x: &Value, y: &Value) -> bool
    ensures { result ≡ compared op x.now y.now }
{
    match op {
        Op::Eq => is_equal(x, y),
        Op::Ne => !is_equal(x, y),
        Op::Lt => is_less(x, y),
        Op::Le => !is_less(y, x),
        Op::Gt => is_less(y, x),
        Op::Ge => !is_less(x, y),
        _ => false,
    }
}

/// A comparison of two numbers; false for any other operation.
pub(crate) fn compared_numbers(op: Op, a: i64, b: i64) -> bool
    ensures { result ≡ compared op (Value.Int a) (Value.Int b) }
{
    match op {
        Op::Eq => a == b,
        Op::Ne => a != b,
        Op::Lt => a < b,
        Op::Le => a <= b,
        Op::Gt => a > b,
        Op::Ge => a >= b,
        _ => false,
    }
}

/// A word on the value of its part.
pub(crate) fn call(alloc: Global, word: Word, x: &Value) -> Result<Value, EvalStop>
    ensures { result ≢ Err EvalStop.NoMemory → result ≡ call_of word x.now }
{
    match word {
        Word::Abs => Ok(Value::Int(absolute(x.as_int()))),
        Word::Len => Ok(Value::Int(x.as_text().len() as i64)),
        Word::Int => Ok(Value::Int(number_spelled(x.as_text())?)),
        Word::TryInt => match spelled(x.as_text().as_bytes()) {
            Some(n) => Ok(Value::Int(n)),
            None => Ok(Value::Nothing),
        },
        Word::Text => Ok(Value::Text(text_of(alloc, x)?)),
    }
}

/// The number that a text spells.
pub(crate) fn number_spelled(text: &str) -> Result<i64, EvalStop>
    ensures { result ≡ int_or_fault (number_or_fault (spelled text.now)) }
{
    match spelled(text.as_bytes()) {
        Some(n) => Ok(n),
        None => Err(EvalStop::NotANumber),
    }
}

/// Unary minus, which leaves the least number as it is.
pub(crate) fn negated(n: i64) -> i64
    ensures { result ≡ int_wrap w64 (neg_ℤ n) }
{
    n.wrapping_neg()
}

/// The number without its sign, which leaves the least number as it is.
pub(crate) fn absolute(n: i64) -> i64
    ensures { result ≡ int_wrap w64 (pos (unsigned_abs n)) }
{
    n.wrapping_abs()
}

fn divided(a: i64, b: i64) -> Result<i64, EvalStop>
    ensures { result ≡ int_or_fault (divided a b) }
{
    match a.checked_div(b) {
        Some(quotient) => Ok(quotient),
        None => Err(EvalStop::DivideError),
    }
}

fn remainder(a: i64, b: i64) -> Result<i64, EvalStop>
    ensures { result ≡ int_or_fault (remainder a b) }
{
    if b == 0 {
        return Err(EvalStop::DivideError);
    }
    Ok(a.wrapping_rem(b))
}

fn modulo(a: i64, b: i64) -> Result<i64, EvalStop>
    ensures { result ≡ int_or_fault (modulo a b) }
{
    if b == 0 {
        return Err(EvalStop::DivideError);
    }
    Ok(with_sign_of(b, a.wrapping_rem(b)))
}

/// The remainder `r` of a division by `b`, moved to the sign of `b` where it isn't 0.
fn with_sign_of(b: i64, r: i64) -> i64
    requires { unsigned_abs r < unsigned_abs b }
    ensures { result ≡ with_sign_of b r }
{
    if r == 0 || (r < 0) == (b < 0) {
        r
    } else {
        r + b
    }
}

fn joined(alloc: Global, x: &Value, y: &Value) -> Result<Value, EvalStop>
    ensures { result ≢ Err EvalStop.NoMemory → result ≡ joined x.now y.now }
{
    let a = x.as_text();
    let b = y.as_text();
    if a.len() > TEXT_LIMIT || b.len() > TEXT_LIMIT - a.len() {
        return Err(EvalStop::TextTooLong);
    }
    Ok(Value::Text(TextValue::joined(alloc, a, b)?))
}

fn is_equal(x: &Value, y: &Value) -> bool
    ensures { result ≡ is_equal x.now y.now }
{
    match (x, y) {
        (Value::Int(a), Value::Int(b)) => *a == *b,
        (Value::Bool(a), Value::Bool(b)) => *a == *b,
        (Value::Text(a), Value::Text(b)) => a.as_str() == b.as_str(),
        _ => false,
    }
}

fn is_less(x: &Value, y: &Value) -> bool
    ensures { result ≡ is_less x.now y.now }
{
    match (x, y) {
        (Value::Int(a), Value::Int(b)) => *a < *b,
        (Value::Text(a), Value::Text(b)) => a.as_str() < b.as_str(),
        _ => false,
    }
}

fn text_of(alloc: Global, value: &Value) -> Result<TextValue, NoMemory>
    ensures { IfOk result (λ t. t ≡ text_of value.now) }
{
    match value {
        Value::Int(n) => TextValue::from_int(alloc, *n),
        Value::Bool(true) => TextValue::new(alloc, "true"),
        Value::Bool(false) => TextValue::new(alloc, "false"),
        Value::Text(t) => t.copy(alloc),
        _ => TextValue::new(alloc, ""),
    }
}
