//! Kinds of expressions, patterns, literals and the items of heads.

ghost use Rattle.std.specs.Prelude.{◌≡◌, IfOk, map};
ghost use Rattle.std.specs.List.{list_all};
ghost use Rattle.std.specs.Option.{option_copied};
ghost use Rattle.std.specs.FinMap.{get};
ghost use Rattle.loop_values.specs.Kinds.{is_bool, is_int, kind_of, literal_kind};
ghost use Rattle.legality_rules.specs.Scopes.{axis_kind, fits_pattern, found, item_kind, pattern_kinds, pattern_parts};
ghost use Rattle.legality_rules.specs.Rules.{is_of, items_fit, passes};

use loop_data::{Axis, Expr, Many, TextValue, Value, ValueKind};
use loop_values::{TypeStop, Types, is_same_kind, type_of};
use no_memory::NoMemory;
use std::alloc::Global;

/// The kind of an expression, where it has one.
pub fn kind_in(alloc: Global, expr: &Expr, kinds: &Types) -> Result<Option<ValueKind>, NoMemory>
    ensures { IfOk result (λ k. k ≡ found (kind_of expr.now (get kinds.now))) }
{
    match type_of(alloc, expr, kinds) {
        Ok(kind) => Ok(Some(kind)),
        Err(TypeStop::Differs) => Ok(None),
        Err(TypeStop::NoMemory) => Err(NoMemory),
    }
}

fn is_int(alloc: Global, expr: &Expr, kinds: &Types) -> Result<bool, NoMemory>
    ensures { IfOk result (λ b. b ≡ passes is_int (kind_of expr.now (get kinds.now))) }
{
    match kind_in(alloc, expr, kinds)? {
        Some(kind) => Ok(matches!(kind, ValueKind::Int)),
        None => Ok(false),
    }
}

/// Whether an expression is a Bool.
pub fn is_bool(alloc: Global, expr: &Expr, kinds: &Types) -> Result<bool, NoMemory>
    ensures { IfOk result (λ b. b ≡ passes is_bool (kind_of expr.now (get kinds.now))) }
{
    match kind_in(alloc, expr, kinds)? {
        Some(kind) => Ok(matches!(kind, ValueKind::Bool)),
        None => Ok(false),
    }
}

/// Whether all these bounds are Int.
pub fn are_ints(alloc: Global, exprs: &[Expr], kinds: &Types) -> Result<bool, NoMemory>
    ensures { IfOk result (λ b. b ≡ list_all (λ x. passes is_int (kind_of x (get kinds.now))) exprs.now) }
{
    for expr in exprs {
        if !is_int(alloc, expr, kinds)? {
            return Ok(false);
        }
    }
    Ok(true)
}

/// Whether an expression has the kind of a name.
pub fn has_kind_of(
    alloc: Global,
    expr: &Expr,
    name: &TextValue,
    kinds: &Types,
) -> Result<bool, NoMemory>
    ensures { IfOk result (λ b. b ≡ passes (is_of (get kinds.now name.now)) (kind_of expr.now (get kinds.now))) }
{
    match kind_in(alloc, expr, kinds)? {
        Some(kind) => Ok(is_of(kinds.get(name.as_str()), &kind)),
        None => Ok(false),
    }
}

/// Whether a kind is that of a name.
fn is_of(known: Option<&ValueKind>, kind: &ValueKind) -> bool
    ensures { result ≡ is_of (option_copied known.entry) kind.now }
{
    match known {
        Some(known) => is_same_kind(known, kind),
        None => false,
    }
}

/// Whether a pattern takes something of this kind: one name takes anything, several a tuple of that many parts.
pub fn fits_pattern(names: &[TextValue], kind: &ValueKind) -> bool
    ensures { result ≡ fits_pattern names.now kind.now }
{
    if names.len() == 1 {
        return true;
    }
    match kind {
        ValueKind::Tuple(parts) => parts.len() == names.len(),
        _ => names.is_empty(),
    }
}

/// The kinds of a pattern's names for something of a kind that it takes.
pub fn pattern_parts(
    alloc: Global,
    names: &[TextValue],
    kind: ValueKind,
) -> Result<Many<ValueKind>, NoMemory>
    ensures { IfOk result (λ ks. ks ≡ pattern_parts names.now kind) }
{
    if names.len() == 1 {
        let mut only = Many::new(alloc);
        only.push(alloc, kind)?;
        return Ok(only);
    }
    match kind {
        ValueKind::Tuple(parts) => Ok(parts),
        _ => Ok(Many::new(alloc)),
    }
}

/// The kinds of a pattern's names for something of this kind, or none where the pattern doesn't take it.
pub fn pattern_kinds(
    alloc: Global,
    names: &[TextValue],
    kind: Option<ValueKind>,
) -> Result<Many<ValueKind>, NoMemory>
    ensures { IfOk result (λ ks. ks ≡ pattern_kinds names.now kind) }
{
    match kind {
        Some(kind) => {
            if fits_pattern(names, &kind) {
                return pattern_parts(alloc, names, kind);
            }
            Ok(Many::new(alloc))
        }
        None => Ok(Many::new(alloc)),
    }
}

/// The kind of a literal, where it has one.
pub fn literal_kind(value: &Value) -> Option<ValueKind>
    ensures { result ≡ found (literal_kind value.now) }
{
    match value {
        Value::Int(_) => Some(ValueKind::Int),
        Value::Bool(_) => Some(ValueKind::Bool),
        Value::Text(_) => Some(ValueKind::Text),
        _ => None,
    }
}

/// The kind of an axis's items: Int of a range, Text of a column, a tuple of a zip.
fn axis_kind(alloc: Global, axis: &Axis) -> Result<ValueKind, NoMemory>
    ensures { IfOk result (λ k. k ≡ axis_kind axis.now) }
{
    match axis {
        Axis::Steps(_) => Ok(ValueKind::Int),
        Axis::Col(_) => Ok(ValueKind::Text),
        Axis::Zip(parts) => {
            let mut kinds = Many::new(alloc);
            for part in parts.as_slice() {
                kinds.push(alloc, axis_kind(alloc, part)?)?;
            }
            Ok(ValueKind::Tuple(kinds))
        }
    }
}

/// The kinds of axes' items.
fn axis_kinds(alloc: Global, axes: &[Axis]) -> Result<Many<ValueKind>, NoMemory>
    ensures { IfOk result (λ ks. ks ≡ map axis_kind axes.now) }
{
    let mut kinds = Many::new(alloc);
    for axis in axes {
        kinds.push(alloc, axis_kind(alloc, axis)?)?;
    }
    Ok(kinds)
}

/// The kind of a head's items, where it has an axis: of a product it is the tuple of its axes' items.
pub fn item_kind(alloc: Global, product: bool, axes: &[Axis]) -> Result<Option<ValueKind>, NoMemory>
    ensures { IfOk result (λ k. k ≡ item_kind product axes.now) }
{
    if product {
        return Ok(Some(ValueKind::Tuple(axis_kinds(alloc, axes)?)));
    }
    match axes.first() {
        Some(axis) => Ok(Some(axis_kind(alloc, axis)?)),
        None => Ok(None),
    }
}

/// Whether a pattern takes the items.
pub fn takes_items(names: &[TextValue], kind: Option<&ValueKind>) -> bool
    ensures { result ≡ items_fit names.now (option_copied kind.entry) }
{
    match kind {
        Some(kind) => fits_pattern(names, kind),
        None => false,
    }
}
