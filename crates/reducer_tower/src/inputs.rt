//! The parts of inputs.

ghost use Rattle.std.specs.Prelude.{◌≡◌, true, Some};
ghost use Rattle.loop_data.specs.ValueParts.{left_of, right_of};
ghost use Rattle.loop_results.specs.Results.{input_at_key};
ghost use Rattle.loop_values.specs.Fits.{is_pair};
ghost use Rattle.reducer_tower.specs.Inputs.{at_place, is_keyed};

use loop_data::{TextValue, Value};

/// The two parts of a pair, moved out.
pub(crate) fn parts_of_pair(input: Value) -> Option<(Value, Value)>
    ensures { is_pair input ≡ true → result ≡ Some (left_of input, right_of input) }
{
    let Value::Tuple(parts) = input else {
        return None;
    };
    let mut parts = parts.into_vec();
    let right = parts.pop()?;
    let left = parts.pop()?;
    Some((left, right))
}

/// The key and the inner input of a pair of them, moved out.
pub(crate) fn key_and_input(input: Value) -> Option<(TextValue, Value)>
    ensures { is_keyed input ≡ true → result ≡ Some (input_at_key input) }
{
    let (key, inner) = parts_of_pair(input)?;
    match key {
        Value::Text(key) => Some((key, inner)),
        _ => None,
    }
}

/// The value and the place of a pair of them, moved out.
pub(crate) fn value_and_place(input: Value) -> Option<(Value, u64)>
    ensures { is_pair input ≡ true → result ≡ Some (at_place input) }
{
    let (value, place) = parts_of_pair(input)?;
    Some((value, place.as_int().unsigned_abs()))
}
