//! Whether an input fits a kind of tower. A plain value is here one without parts, or a pair of such.

ghost use Rattle.std.specs.Prelude.{◌≡◌, true};
ghost use Rattle.loop_data.specs.declared.value.Value.{out-Value};
ghost use Rattle.loop_values.specs.Fits.{fits_tower, is_bool_at, is_extreme, is_int_at};
ghost use Rattle.loop_values.specs.Fits.{is_place_at, is_placed, is_plain, is_text_at};

use loop_data::{Kind, Value};

pub fn fits(kind: &Kind, input: &Value) -> bool
    ensures { result ≡ true → fits_tower kind.now input.now ≡ true }
{
    match kind {
        Kind::Sum => is_int(input),
        Kind::Prod => is_int(input),
        Kind::Count => matches!(input, Value::Nothing),
        Kind::Least => is_extreme(input),
        Kind::Greatest => is_extreme(input),
        Kind::LeastAt => is_placed(input),
        Kind::GreatestAt => is_placed(input),
        Kind::First => is_plain(input),
        Kind::Last => is_plain(input),
        Kind::Any => is_bool(input),
        Kind::All => is_bool(input),
        Kind::Listed => is_plain(input),
        Kind::Grouped(inner) => match input.parts() {
            [key, input] => is_text(key) && fits(inner.get(), input),
            _ => false,
        },
        Kind::Both(left, right) => match input.parts() {
            [one, other] => fits(left.get(), one) && fits(right.get(), other),
            _ => false,
        },
    }
}

fn is_int(value: &Value) -> bool
    ensures { result ≡ is_int_at (out-Value value.now) }
{
    matches!(value, Value::Int(_))
}

fn is_bool(value: &Value) -> bool
    ensures { result ≡ is_bool_at (out-Value value.now) }
{
    matches!(value, Value::Bool(_))
}

fn is_text(value: &Value) -> bool
    ensures { result ≡ is_text_at (out-Value value.now) }
{
    matches!(value, Value::Text(_))
}

fn is_extreme(value: &Value) -> bool
    ensures { result ≡ is_extreme value.now }
{
    is_int(value) || is_text(value)
}

fn is_place(value: &Value) -> bool
    ensures { result ≡ is_place_at (out-Value value.now) }
{
    match value {
        Value::Int(n) => 0 < *n && !(4294967296 < *n),
        _ => false,
    }
}

fn is_placed(value: &Value) -> bool
    ensures { result ≡ true → is_placed value.now ≡ true }
{
    match value.parts() {
        [value, place] => is_extreme(value) && is_place(place),
        _ => false,
    }
}

fn is_plain(value: &Value) -> bool
    ensures { result ≡ true → is_plain value.now ≡ true }
{
    match value.parts() {
        [left, right] => has_no_parts(left) && has_no_parts(right),
        _ => has_no_parts(value),
    }
}

fn has_no_parts(value: &Value) -> bool
    ensures { result ≡ true → is_plain value.now ≡ true }
{
    match value {
        Value::Int(_) => true,
        Value::Text(_) => true,
        Value::Bool(_) => true,
        _ => false,
    }
}
