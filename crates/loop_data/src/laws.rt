//! Laws of values, each the contract of a function that does nothing, and what threads share.

ghost use Rattle.std.specs.Prelude.{◌≡◌};
ghost use Rattle.loop_data.specs.Laws.{ValuesAreOrdered, OnlyEqualValuesTie, NumbersStandBeforeTexts};

use crate::{Expr, Kind, RangeExpr, TextValue, TowerExpr, Value, ValueKind};

/// Any two values are in order, and only equal ones are the same in it. Numbers stand before texts.
pub fn values_are_ordered()
    ensures order { ValuesAreOrdered }
    ensures ties { OnlyEqualValuesTie }
    ensures numbers { NumbersStandBeforeTexts }
{}

/// Holds where threads share the values of a type and hand them to each other. A call of it says so, and does nothing.
pub fn is_shared<T: Send + Sync>() {}

/// Threads share texts, values and kinds, and hand them to each other.
pub fn threads_share_values() {
    is_shared::<TextValue>();
    is_shared::<Value>();
    is_shared::<ValueKind>();
    is_shared::<Kind>();
}

/// Threads share expressions and towers, and hand them to each other.
pub fn threads_share_expressions() {
    is_shared::<Expr>();
    is_shared::<RangeExpr>();
    is_shared::<TowerExpr>();
}
