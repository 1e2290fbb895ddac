//! The kinds of a tower's input under the kinds of names.

ghost use Rattle.std.specs.Prelude.{◌≡◌, ◌≢◌, ◌↔◌, ◌++◌, Ok, Err, IfOk, IsTrue};
ghost use Rattle.std.specs.FinMap.{get};
ghost use Rattle.loop_values.specs.Kinds.{is_text};
ghost use Rattle.tower_inputs.specs.InputKinds.{kinds_of_input, one_kind, same_kinds, takes};

use loop_data::{Kind, Many, TowerExpr, ValueKind};
use loop_values::{TypeStop, Types, is_same_kind, type_of};
use no_memory::NoMemory;
use std::alloc::Global;

/// The kinds of a tower's expressions from left to right, under the kinds of their names. `Differs` comes exactly where one of
/// them has no kind, or one that the tower doesn't take there: `sum` and `prod` take Int; `min`, `max`, `argmin` and `argmax`
/// Int or Text; `any` and `all` Bool; `first`, `last` and `list` any kind but Maybe; a `group` a Text key.
pub fn types_of_input(
    alloc: Global,
    tower: &TowerExpr,
    names: &Types,
) -> Result<Many<ValueKind>, TypeStop>
    ensures { result ≢ Err TypeStop.NoMemory → result ≡ kinds_of_input tower.now (get names.now) }
{
    match tower {
        TowerExpr::Leaf { kind, expr } => {
            let found = type_of(alloc, expr, names)?;
            one_kind(alloc, takes(kind, &found), found)
        }
        TowerExpr::Count => Ok(Many::new(alloc)),
        TowerExpr::Grouped { key, inner } => {
            let found = type_of(alloc, key, names)?;
            let key = one_kind(alloc, is_text(&found), found)?;
            let inner = types_of_input(alloc, inner.get(), names)?;
            Ok(joined(alloc, key, inner)?)
        }
        TowerExpr::Both(left, right) => {
            let left = types_of_input(alloc, left.get(), names)?;
            let right = types_of_input(alloc, right.get(), names)?;
            Ok(joined(alloc, left, right)?)
        }
    }
}

/// Whether two lists of kinds are one. It takes no memory.
pub fn are_same_kinds(a: &[ValueKind], b: &[ValueKind]) -> bool
    ensures value { result ≡ same_kinds a.now b.now }
    ensures same { IsTrue result ↔ (a.now ≡ b.now) }
{
    same_kinds(a, b)
}

/// Whether two lists of kinds are one, as the definition tests it.
fn same_kinds(a: &[ValueKind], b: &[ValueKind]) -> bool
    ensures { result ≡ same_kinds a.now b.now }
{
    if a.len() != b.len() {
        return false;
    }
    for (i, x) in a.iter().enumerate() {
        if !is_same_kind(x, &b[i]) {
            return false;
        }
    }
    true
}

/// Whether a tower of one expression takes values of this kind.
fn takes(tower: &Kind, x: &ValueKind) -> bool
    ensures { result ≡ takes tower.now x.now }
{
    match tower {
        Kind::Sum | Kind::Prod => matches!(x, ValueKind::Int),
        Kind::Least | Kind::Greatest | Kind::LeastAt | Kind::GreatestAt => {
            matches!(x, ValueKind::Int | ValueKind::Text)
        }
        Kind::Any | Kind::All => matches!(x, ValueKind::Bool),
        Kind::First | Kind::Last | Kind::Listed => !matches!(x, ValueKind::Maybe(_)),
        _ => false,
    }
}

fn is_text(kind: &ValueKind) -> bool
    ensures { result ≡ is_text kind.now }
{
    matches!(kind, ValueKind::Text)
}

fn one_kind(alloc: Global, holds: bool, kind: ValueKind) -> Result<Many<ValueKind>, TypeStop>
    ensures { result ≢ Err TypeStop.NoMemory → result ≡ one_kind holds kind }
{
    if !holds {
        return Err(TypeStop::Differs);
    }
    let mut kinds = Many::new(alloc);
    kinds.push(alloc, kind)?;
    Ok(kinds)
}

fn joined(
    alloc: Global,
    mut left: Many<ValueKind>,
    right: Many<ValueKind>,
) -> Result<Many<ValueKind>, NoMemory>
    ensures { IfOk result (λ kinds. kinds ≡ left ++ right) }
{
    for kind in right.into_vec() {
        left.push(alloc, kind)?;
    }
    Ok(left)
}
