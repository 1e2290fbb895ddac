ghost use Rattle.std.specs.Prelude.{◌≡◌, ◌≢◌, true, Ok, Err, IfSome};
ghost use Rattle.std.specs.FinMap.{get};
ghost use Rattle.loop_values.specs.Bindings.{Names};
ghost use Rattle.loop_values.specs.Operations.{compared, int_or_fault, IsNumber, IsTruth};
ghost use Rattle.loop_values.specs.Values.{value_of, int_of, bool_of, bound};
ghost use Rattle.loop_values.specs.Seen.{worth, worth_of};

use crate::operations::{
    absolute, arithmetic, call, compared, compared_numbers, decides, gives_truth, is_arithmetic,
    is_comparison, is_counting, negated, number_spelled, two,
};
use crate::seen::Seen;
use crate::{Env, EvalStop};
use loop_data::{Expr, Many, Op, Value, Word};
use std::alloc::Global;

/// The name under which the place of the item stands.
const PLACE: &str = "place";

/// The value of an expression under the values of its names. The parts are evaluated from left to right, and the first
/// fault is the answer; `and` and `or` leave out the right side where the left decides, and of `if` the chosen side alone is
/// evaluated.
///
/// `DivideError`, `NotANumber` and `TextTooLong` come exactly where the definition `value_of` says so, `TooManyInner` and
/// `StepZero` never. It is asked of expressions that have a kind under kinds that the names' values fit (`type_of`); of any
/// other it gives what the definition's defaults say. Memory is taken for the texts and tuples that are made, and for the
/// copy where the whole value is that of a literal or a name.
pub fn eval(alloc: Global, expr: &Expr, env: &Env) -> Result<Value, EvalStop>
    ensures { result ≢ Err EvalStop.NoMemory → result ≡ value_of expr.now (get env.now) }
{
    if is_number(expr, env) {
        return Ok(Value::Int(int_of(alloc, expr, env)?));
    }
    if is_truth(expr) {
        return Ok(Value::Bool(bool_of(alloc, expr, env)?));
    }
    kept(alloc, expr, env)
}

/// The value of an expression, to keep. It stands apart so that `eval` has no room for a value among its locals.
#[inline(never)]
fn kept(alloc: Global, expr: &Expr, env: &Env) -> Result<Value, EvalStop>
    ensures { result ≢ Err EvalStop.NoMemory → result ≡ value_of expr.now (get env.now) }
{
    let seen = look(alloc, expr, env)?;
    Ok(seen.into_value(alloc)?)
}

/// The value that stands in a literal or under a name that is bound, lent.
fn lent<'a>(expr: &'a Expr, env: &'a Env) -> Option<&'a Value>
    ensures { IfSome result (λ value. Ok value.now ≡ value_of expr.now (get env.now)) }
{
    match expr {
        Expr::Lit(value) => Some(value),
        Expr::Name(name) => env.get(name.as_str()),
        Expr::Place => env.get(PLACE),
        _ => None,
    }
}

/// Whether an expression surely gives a number or a fault, as its outermost operation or the value that is lent tells.
fn is_number(expr: &Expr, env: &Env) -> bool
    ensures { result ≡ true → IsNumber (value_of expr.now (get env.now)) }
{
    match expr {
        Expr::Neg(_) => true,
        Expr::Two { op, .. } => is_arithmetic(*op),
        Expr::Call { word, .. } => is_counting(*word),
        _ => match lent(expr, env) {
            Some(Value::Int(_)) => true,
            _ => false,
        },
    }
}

/// Whether an expression surely gives a truth value or a fault, as its outermost operation tells.
fn is_truth(expr: &Expr) -> bool
    ensures { result ≡ true → (names : Names) → IsTruth (value_of expr.now names) }
{
    match expr {
        Expr::Not(_) => true,
        Expr::Two { op, .. } => gives_truth(*op),
        _ => false,
    }
}

/// The number of an expression: that of its value, which is not made where it isn't needed. What items need most stands
/// here and in `int_of_two`, and all else apart, so that these have little to clear on entry.
#[cycle(eval)]
#[inline(always)]
fn int_of(alloc: Global, expr: &Expr, env: &Env) -> Result<i64, EvalStop>
    ensures { result ≢ Err EvalStop.NoMemory → result ≡ int_of expr.now (get env.now) }
{
    match expr {
        Expr::Lit(value) => Ok(value.as_int()),
        Expr::Name(name) => Ok(int_named(name.as_str(), env)),
        Expr::Two { .. } => int_of_two(alloc, expr, env),
        _ => int_of_other(alloc, expr, env),
    }
}

/// The number of a name's value; 0 where the name isn't bound.
fn int_named(name: &str, env: &Env) -> i64
    ensures { Ok result ≡ int_or_fault (bound (get env.now name.now)) }
{
    match env.get(name) {
        Some(value) => value.as_int(),
        None => 0,
    }
}

/// The number of an expression that is an operation.
#[cycle(eval)]
#[inline(never)]
fn int_of_two(alloc: Global, expr: &Expr, env: &Env) -> Result<i64, EvalStop>
    ensures { result ≢ Err EvalStop.NoMemory → result ≡ int_of expr.now (get env.now) }
{
    match expr {
        Expr::Two { op, left, right } if is_arithmetic(*op) => {
            let a = int_of(alloc, left.get(), env)?;
            let b = int_of(alloc, right.get(), env)?;
            arithmetic(*op, a, b)
        }
        _ => int_of_any(alloc, expr, env),
    }
}

/// The number of an expression of any other form.
#[cycle(eval)]
#[inline(never)]
fn int_of_other(alloc: Global, expr: &Expr, env: &Env) -> Result<i64, EvalStop>
    ensures { result ≢ Err EvalStop.NoMemory → result ≡ int_of expr.now (get env.now) }
{
    match expr {
        Expr::Place => Ok(int_named(PLACE, env)),
        Expr::Neg(part) => Ok(negated(int_of(alloc, part.get(), env)?)),
        Expr::Call {
            word: Word::Abs,
            part,
        } => Ok(absolute(int_of(alloc, part.get(), env)?)),
        Expr::Call {
            word: Word::Len,
            part,
        } => match lent(part.get(), env) {
            Some(value) => Ok(value.as_text().len() as i64),
            None => int_of_any(alloc, expr, env),
        },
        Expr::Call {
            word: Word::Int,
            part,
        } => match lent(part.get(), env) {
            Some(value) => number_spelled(value.as_text()),
            None => int_of_any(alloc, expr, env),
        },
        Expr::If { test, yes, no } => {
            if bool_of(alloc, test.get(), env)? {
                return int_of(alloc, yes.get(), env);
            }
            match no {
                None => Ok(0),
                Some(other) => int_of(alloc, other.get(), env),
            }
        }
        _ => int_of_any(alloc, expr, env),
    }
}

/// The number of an expression, by the value that is made. It stands apart so that `int_of` has no room for a value among its
/// locals.
#[cycle(eval)]
#[inline(never)]
fn int_of_any(alloc: Global, expr: &Expr, env: &Env) -> Result<i64, EvalStop>
    ensures { result ≢ Err EvalStop.NoMemory → result ≡ int_of expr.now (get env.now) }
{
    let x = look(alloc, expr, env)?;
    Ok(x.value().as_int())
}

/// The truth value of an expression: that of its value, which is not made where it isn't needed.
#[cycle(eval)]
fn bool_of(alloc: Global, expr: &Expr, env: &Env) -> Result<bool, EvalStop>
    ensures { result ≢ Err EvalStop.NoMemory → result ≡ bool_of expr.now (get env.now) }
{
    match expr {
        Expr::Not(part) => Ok(!bool_of(alloc, part.get(), env)?),
        Expr::Two {
            op: Op::And,
            left,
            right,
        } => {
            if !bool_of(alloc, left.get(), env)? {
                return Ok(false);
            }
            bool_of(alloc, right.get(), env)
        }
        Expr::Two {
            op: Op::Or,
            left,
            right,
        } => {
            if bool_of(alloc, left.get(), env)? {
                return Ok(true);
            }
            bool_of(alloc, right.get(), env)
        }
        Expr::Two { op, left, right } if is_comparison(*op) => {
            if let (Some(x), Some(y)) = (lent(left.get(), env), lent(right.get(), env)) {
                return Ok(compared(*op, x, y));
            }
            if is_number(left.get(), env) && is_number(right.get(), env) {
                let a = int_of(alloc, left.get(), env)?;
                let b = int_of(alloc, right.get(), env)?;
                return Ok(compared_numbers(*op, a, b));
            }
            bool_of_any(alloc, expr, env)
        }
        Expr::If { test, yes, no } => {
            if bool_of(alloc, test.get(), env)? {
                return bool_of(alloc, yes.get(), env);
            }
            match no {
                None => Ok(false),
                Some(other) => bool_of(alloc, other.get(), env),
            }
        }
        _ => match lent(expr, env) {
            Some(value) => Ok(value.as_bool()),
            None => bool_of_any(alloc, expr, env),
        },
    }
}

/// The truth value of an expression, by the value that is made. It stands apart as `int_of_any` does.
#[cycle(eval)]
#[inline(never)]
fn bool_of_any(alloc: Global, expr: &Expr, env: &Env) -> Result<bool, EvalStop>
    ensures { result ≢ Err EvalStop.NoMemory → result ≡ bool_of expr.now (get env.now) }
{
    let x = look(alloc, expr, env)?;
    Ok(x.value().as_bool())
}

/// The value of an expression, which is lent where it stands in a literal or under a name.
#[cycle(eval)]
fn look<'a>(alloc: Global, expr: &'a Expr, env: &'a Env) -> Result<Seen<'a>, EvalStop>
    ensures { result ≢ Err EvalStop.NoMemory → worth_of result ≡ value_of expr.now (get env.now) }
{
    match expr {
        Expr::Lit(value) => Ok(Seen::Lent(value)),
        Expr::Name(name) => Ok(named(name.as_str(), env)),
        Expr::Place => Ok(named(PLACE, env)),
        Expr::Neg(part) => {
            let n = int_of(alloc, part.get(), env)?;
            Ok(Seen::Made(Value::Int(negated(n))))
        }
        Expr::Not(part) => {
            let b = bool_of(alloc, part.get(), env)?;
            Ok(Seen::Made(Value::Bool(!b)))
        }
        Expr::Two { op, left, right } if is_arithmetic(*op) => {
            let a = int_of(alloc, left.get(), env)?;
            let b = int_of(alloc, right.get(), env)?;
            Ok(Seen::Made(Value::Int(arithmetic(*op, a, b)?)))
        }
        Expr::Two { op, left, right } => {
            let x = look(alloc, left.get(), env)?;
            if decides(*op, x.value()) {
                return Ok(Seen::Made(Value::Bool(x.value().as_bool())));
            }
            let y = look(alloc, right.get(), env)?;
            Ok(Seen::Made(two(alloc, *op, x.value(), y.value())?))
        }
        Expr::Call { word, part } => {
            let x = look(alloc, part.get(), env)?;
            Ok(Seen::Made(call(alloc, *word, x.value())?))
        }
        Expr::If { test, yes, no } => {
            if bool_of(alloc, test.get(), env)? {
                return look(alloc, yes.get(), env);
            }
            match no {
                None => Ok(Seen::Made(Value::Nothing)),
                Some(other) => look(alloc, other.get(), env),
            }
        }
        Expr::Tuple(parts) => {
            let mut values = Many::new(alloc);
            for part in parts.as_slice() {
                let value = look(alloc, part, env)?;
                values.push(alloc, value.into_value(alloc)?)?;
            }
            Ok(Seen::Made(Value::Tuple(values)))
        }
    }
}

/// The value of a name, lent; nothing where the name isn't bound.
fn named<'a>(name: &str, env: &'a Env) -> Seen<'a>
    ensures { Ok (worth result) ≡ bound (get env.now name.now) }
{
    match env.get(name) {
        Some(value) => Seen::Lent(value),
        None => Seen::Made(Value::Nothing),
    }
}
