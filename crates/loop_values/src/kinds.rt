ghost use Rattle.std.specs.Prelude.{◌≡◌, ◌≢◌, ◌↔◌, Err, IfOk, IsTrue};
ghost use Rattle.std.specs.FinMap as map;
ghost use Rattle.loop_values.specs.Kinds.{kind_of, same_kind, is_int, is_bool, is_text, is_maybe, is_ordered, is_comparable};
ghost use Rattle.loop_values.specs.Kinds.{kind_if, literal_kind, two_kind, call_kind, maybe_of, tuple_kind};

use crate::{TypeStop, Types};
use loop_data::{Boxed, Expr, Many, Op, Value, ValueKind, Word};
use no_memory::NoMemory;
use std::alloc::Global;

/// The kind of an expression under the kinds of its names. `Differs` comes exactly where it has none: where a part isn't of
/// the kind that is needed there, or a name isn't known.
pub fn type_of(alloc: Global, expr: &Expr, names: &Types) -> Result<ValueKind, TypeStop>
    ensures { result ≢ Err TypeStop.NoMemory → result ≡ kind_of expr.now (map.get names.now) }
{
    match expr {
        Expr::Lit(v) => literal_kind(v),
        Expr::Name(n) => match names.get(n.as_str()) {
            Some(kind) => Ok(kind.copy(alloc)?),
            None => Err(TypeStop::Differs),
        },
        Expr::Place => Ok(ValueKind::Int),
        Expr::Neg(e) => {
            let x = type_of(alloc, e.get(), names)?;
            kind_if(is_int(&x), ValueKind::Int)
        }
        Expr::Not(e) => {
            let x = type_of(alloc, e.get(), names)?;
            kind_if(is_bool(&x), ValueKind::Bool)
        }
        Expr::Two { op, left, right } => {
            let x = type_of(alloc, left.get(), names)?;
            let y = type_of(alloc, right.get(), names)?;
            two_kind(*op, &x, &y)
        }
        Expr::Call { word, part } => {
            let x = type_of(alloc, part.get(), names)?;
            call_kind(alloc, *word, &x)
        }
        Expr::If { test, yes, no } => {
            let x = type_of(alloc, test.get(), names)?;
            if !is_bool(&x) {
                return Err(TypeStop::Differs);
            }
            let y = type_of(alloc, yes.get(), names)?;
            match no {
                None => Ok(maybe_of(alloc, y)?),
                Some(e) => {
                    let z = type_of(alloc, e.get(), names)?;
                    kind_if(same_kind(&y, &z), y)
                }
            }
        }
        Expr::Tuple(parts) => {
            let mut kinds = Many::new(alloc);
            for part in parts.as_slice() {
                let kind = type_of(alloc, part, names)?;
                if is_maybe(&kind) {
                    return Err(TypeStop::Differs);
                }
                kinds.push(alloc, kind)?;
            }
            tuple_kind(kinds)
        }
    }
}

/// Whether two kinds are one. It takes no memory.
pub fn is_same_kind(a: &ValueKind, b: &ValueKind) -> bool
    ensures value { result ≡ same_kind a.now b.now }
    ensures same { IsTrue result ↔ (a.now ≡ b.now) }
{
    same_kind(a, b)
}

/// Whether two kinds are one, as the definition tests it.
fn same_kind(a: &ValueKind, b: &ValueKind) -> bool
    ensures { result ≡ same_kind a.now b.now }
{
    match (a, b) {
        (ValueKind::Int, ValueKind::Int) => true,
        (ValueKind::Bool, ValueKind::Bool) => true,
        (ValueKind::Text, ValueKind::Text) => true,
        (ValueKind::Tuple(a), ValueKind::Tuple(b)) => {
            let xs = a.as_slice();
            let ys = b.as_slice();
            if xs.len() != ys.len() {
                return false;
            }
            for (i, x) in xs.iter().enumerate() {
                if !same_kind(x, &ys[i]) {
                    return false;
                }
            }
            true
        }
        (ValueKind::Maybe(a), ValueKind::Maybe(b)) => same_kind(a.get(), b.get()),
        _ => false,
    }
}

fn literal_kind(value: &Value) -> Result<ValueKind, TypeStop>
    ensures { result ≡ literal_kind value.now }
{
    match value {
        Value::Int(_) => Ok(ValueKind::Int),
        Value::Bool(_) => Ok(ValueKind::Bool),
        Value::Text(_) => Ok(ValueKind::Text),
        _ => Err(TypeStop::Differs),
    }
}

fn is_int(kind: &ValueKind) -> bool
    ensures { result ≡ is_int kind.now }
{
    matches!(kind, ValueKind::Int)
}

fn is_bool(kind: &ValueKind) -> bool
    ensures { result ≡ is_bool kind.now }
{
    matches!(kind, ValueKind::Bool)
}

fn is_text(kind: &ValueKind) -> bool
    ensures { result ≡ is_text kind.now }
{
    matches!(kind, ValueKind::Text)
}

fn is_maybe(kind: &ValueKind) -> bool
    ensures { result ≡ is_maybe kind.now }
{
    matches!(kind, ValueKind::Maybe(_))
}

fn is_ordered(x: &ValueKind, y: &ValueKind) -> bool
    ensures { result ≡ is_ordered x.now y.now }
{
    is_int(x) && is_int(y) || is_text(x) && is_text(y)
}

fn is_comparable(x: &ValueKind, y: &ValueKind) -> bool
    ensures { result ≡ is_comparable x.now y.now }
{
    is_ordered(x, y) || is_bool(x) && is_bool(y)
}

fn kind_if(holds: bool, kind: ValueKind) -> Result<ValueKind, TypeStop>
    ensures { result ≡ kind_if holds kind }
{
    if holds {
        Ok(kind)
    } else {
        Err(TypeStop::Differs)
    }
}

fn two_kind(op: Op, x: &ValueKind, y: &ValueKind) -> Result<ValueKind, TypeStop>
    ensures { result ≡ two_kind op x.now y.now }
{
    match op {
        Op::Join => kind_if(is_text(x) && is_text(y), ValueKind::Text),
        Op::Eq | Op::Ne => kind_if(is_comparable(x, y), ValueKind::Bool),
        Op::Lt | Op::Le | Op::Gt | Op::Ge => kind_if(is_ordered(x, y), ValueKind::Bool),
        Op::And | Op::Or => kind_if(is_bool(x) && is_bool(y), ValueKind::Bool),
        _ => kind_if(is_int(x) && is_int(y), ValueKind::Int),
    }
}

fn call_kind(alloc: Global, word: Word, x: &ValueKind) -> Result<ValueKind, TypeStop>
    ensures { result ≢ Err TypeStop.NoMemory → result ≡ call_kind word x.now }
{
    match word {
        Word::Abs => kind_if(is_int(x), ValueKind::Int),
        Word::Len | Word::Int => kind_if(is_text(x), ValueKind::Int),
        Word::TryInt => {
            let inner = Boxed::new(alloc, ValueKind::Int)?;
            kind_if(is_text(x), ValueKind::Maybe(inner))
        }
        Word::Text => kind_if(is_int(x) || is_bool(x) || is_text(x), ValueKind::Text),
    }
}

fn maybe_of(alloc: Global, kind: ValueKind) -> Result<ValueKind, NoMemory>
    ensures { IfOk result (λ k. k ≡ maybe_of kind) }
{
    if is_maybe(&kind) {
        Ok(kind)
    } else {
        Ok(ValueKind::Maybe(Boxed::new(alloc, kind)?))
    }
}

fn tuple_kind(parts: Many<ValueKind>) -> Result<ValueKind, TypeStop>
    ensures { result ≡ tuple_kind parts }
{
    if parts.len() >= 2 && parts.len() <= 4 {
        Ok(ValueKind::Tuple(parts))
    } else {
        Err(TypeStop::Differs)
    }
}
