//! The input of a tower under the values of names.

ghost use Rattle.std.specs.Prelude.{◌≡◌, ◌≢◌, Ok, Err, IfOk};
ghost use Rattle.std.specs.FinMap.{get};
ghost use Rattle.loop_values.specs.Bindings.{place_name};
ghost use Rattle.loop_values.specs.Values.{bound};
ghost use Rattle.tower_inputs.specs.Inputs.{input_of, pair_of};
ghost use Rattle.tower_inputs.specs.Towers.{with_place};

use loop_data::{Kind, Many, TowerExpr, Value};
use loop_values::{Env, EvalStop, eval};
use no_memory::NoMemory;
use std::alloc::Global;

/// The most `@reduce` lines of a loop. Contracts call it `most_sites`.
pub const MOST_SITES: usize = 64;

/// The name under which the place of the item stands.
const PLACE: &str = "place";

/// The input that an `@reduce` line emits: the value of its expression; nothing for `count`; the pair of value and place for
/// `argmin` and `argmax`; the pair of key and inner input for `group`; the pair of both inputs for `both`.
///
/// The parts are evaluated from left to right, the key before the inner input, and the first fault is the answer, which is
/// `DivideError`, `NotANumber` or `TextTooLong`. It is asked of towers that have kinds of input under kinds that the names'
/// values fit ([`crate::types_of_input`]), where `place` is bound to the item's place.
pub fn eval_input(alloc: Global, tower: &TowerExpr, env: &Env) -> Result<Value, EvalStop>
    ensures { result ≢ Err EvalStop.NoMemory → result ≡ input_of tower.now (get env.now) }
{
    match tower {
        TowerExpr::Leaf { kind, expr } => {
            let value = eval(alloc, expr, env)?;
            if with_place(kind) {
                let place = place_in(alloc, env)?;
                return Ok(pair_of(alloc, value, place)?);
            }
            Ok(value)
        }
        TowerExpr::Count => Ok(Value::Nothing),
        TowerExpr::Grouped { key, inner } => {
            let key = eval(alloc, key, env)?;
            let input = eval_input(alloc, inner.get(), env)?;
            Ok(pair_of(alloc, key, input)?)
        }
        TowerExpr::Both(left, right) => {
            let left = eval_input(alloc, left.get(), env)?;
            let right = eval_input(alloc, right.get(), env)?;
            Ok(pair_of(alloc, left, right)?)
        }
    }
}

/// The place of the item; nothing where it isn't bound.
fn place_in(alloc: Global, env: &Env) -> Result<Value, NoMemory>
    ensures { IfOk result (λ place. Ok place ≡ bound (get env.now place_name)) }
{
    match env.get(PLACE) {
        Some(place) => place.copy(alloc),
        None => Ok(Value::Nothing),
    }
}

/// Whether the inputs of a tower have the place of the item with them.
fn with_place(kind: &Kind) -> bool
    ensures { result ≡ with_place kind.now }
{
    matches!(kind, Kind::LeastAt | Kind::GreatestAt)
}

fn pair_of(alloc: Global, left: Value, right: Value) -> Result<Value, NoMemory>
    ensures { IfOk result (λ pair. pair ≡ pair_of left right) }
{
    let mut parts = Many::new(alloc);
    parts.push(alloc, left)?;
    parts.push(alloc, right)?;
    Ok(Value::Tuple(parts))
}
