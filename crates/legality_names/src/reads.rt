//! The names that lines read, and that the `for` line binds, from left to right, and the bounds of ranges.

ghost use Rattle.std.specs.Prelude.{◌≡◌, ◌++◌, ◌∷◌, IfOk, OnOk, flat_map};
ghost use Rattle.loop_values.specs.NamesIn.{names_read};
ghost use Rattle.loop_data.specs.declared.head.Inner.{Inner};
ghost use Rattle.tower_inputs.specs.Towers.{names_read_in_tower};
ghost use Rattle.legality_rules.specs.Lines.{axis_bounds, range_bounds};
ghost use Rattle.legality_names.specs.Names.{head_names};

use loop_data::{Axis, Expr, HeadLine, Inner, Many, RangeExpr, TextValue, TowerExpr};
use no_memory::NoMemory;
use std::alloc::Global;

/// The names that an expression reads, put behind others.
fn push_reads(alloc: Global, expr: &Expr, names: &mut Many<TextValue>) -> Result<(), NoMemory>
    ensures { OnOk result (names.new ≡ names.old ++ names_read expr.now) }
{
    match expr {
        Expr::Lit(_) | Expr::Place => Ok(()),
        Expr::Name(name) => names.push(alloc, name.copy(alloc)?),
        Expr::Neg(part) => push_reads(alloc, part.get(), names),
        Expr::Not(part) => push_reads(alloc, part.get(), names),
        Expr::Two { op: _, left, right } => {
            push_reads(alloc, left.get(), names)?;
            push_reads(alloc, right.get(), names)
        }
        Expr::Call { word: _, part } => push_reads(alloc, part.get(), names),
        Expr::If { test, yes, no } => {
            push_reads(alloc, test.get(), names)?;
            push_reads(alloc, yes.get(), names)?;
            match no {
                None => Ok(()),
                Some(other) => push_reads(alloc, other.get(), names),
            }
        }
        Expr::Tuple(parts) => {
            for part in parts.as_slice() {
                push_reads(alloc, part, names)?;
            }
            Ok(())
        }
    }
}

/// The names that a tower reads, put behind others.
fn push_tower_reads(
    alloc: Global,
    tower: &TowerExpr,
    names: &mut Many<TextValue>,
) -> Result<(), NoMemory>
    ensures { OnOk result (names.new ≡ names.old ++ names_read_in_tower tower.now) }
{
    match tower {
        TowerExpr::Leaf { kind: _, expr } => push_reads(alloc, expr, names),
        TowerExpr::Count => Ok(()),
        TowerExpr::Grouped { key, inner } => {
            push_reads(alloc, key, names)?;
            push_tower_reads(alloc, inner.get(), names)
        }
        TowerExpr::Both(left, right) => {
            push_tower_reads(alloc, left.get(), names)?;
            push_tower_reads(alloc, right.get(), names)
        }
    }
}

/// The names that an expression reads.
pub fn reads_of(alloc: Global, expr: &Expr) -> Result<Many<TextValue>, NoMemory>
    ensures { IfOk result (λ names. names ≡ names_read expr.now) }
{
    let mut names = Many::new(alloc);
    push_reads(alloc, expr, &mut names)?;
    Ok(names)
}

/// The names that a tower reads.
pub fn tower_reads(alloc: Global, tower: &TowerExpr) -> Result<Many<TextValue>, NoMemory>
    ensures { IfOk result (λ names. names ≡ names_read_in_tower tower.now) }
{
    let mut names = Many::new(alloc);
    push_tower_reads(alloc, tower, &mut names)?;
    Ok(names)
}

/// A name, and then those that an expression reads.
pub fn name_and_reads(
    alloc: Global,
    name: &TextValue,
    expr: &Expr,
) -> Result<Many<TextValue>, NoMemory>
    ensures { IfOk result (λ names. names ≡ name.now ∷ names_read expr.now) }
{
    let mut names = Many::new(alloc);
    names.push(alloc, name.copy(alloc)?)?;
    push_reads(alloc, expr, &mut names)?;
    Ok(names)
}

/// The names that expressions read.
pub fn reads_of_each(alloc: Global, exprs: &[Expr]) -> Result<Many<TextValue>, NoMemory>
    ensures { IfOk result (λ names. names ≡ flat_map names_read exprs.now) }
{
    let mut names = Many::new(alloc);
    for expr in exprs {
        push_reads(alloc, expr, &mut names)?;
    }
    Ok(names)
}

/// The names that the `for` line binds, from left to right.
pub fn head_names(alloc: Global, head: &HeadLine) -> Result<Many<TextValue>, NoMemory>
    ensures { IfOk result (λ names. names ≡ head_names head.now) }
{
    let mut names = head.names.copy(alloc)?;
    for inner in head.inner.as_slice() {
        names.push(alloc, inner.name.copy(alloc)?)?;
    }
    Ok(names)
}

/// The first, the step and the last of a range, put behind others.
fn push_range_bounds(
    alloc: Global,
    range: &RangeExpr,
    bounds: &mut Many<Expr>,
) -> Result<(), NoMemory>
    ensures { OnOk result (bounds.new ≡ bounds.old ++ range_bounds range.now) }
{
    bounds.push(alloc, range.first.copy(alloc)?)?;
    if let Some(step) = &range.step {
        bounds.push(alloc, step.copy(alloc)?)?;
    }
    bounds.push(alloc, range.last.copy(alloc)?)
}

/// The bounds of all ranges of an axis, put behind others.
fn push_axis_bounds(alloc: Global, axis: &Axis, bounds: &mut Many<Expr>) -> Result<(), NoMemory>
    ensures { OnOk result (bounds.new ≡ bounds.old ++ axis_bounds axis.now) }
{
    match axis {
        Axis::Steps(range) => push_range_bounds(alloc, range, bounds),
        Axis::Col(_) => Ok(()),
        Axis::Zip(parts) => {
            for part in parts.as_slice() {
                push_axis_bounds(alloc, part, bounds)?;
            }
            Ok(())
        }
    }
}

/// The bounds of all ranges of the first head.
pub fn first_bounds(alloc: Global, axes: &[Axis]) -> Result<Many<Expr>, NoMemory>
    ensures { IfOk result (λ bounds. bounds ≡ flat_map axis_bounds axes.now) }
{
    let mut bounds = Many::new(alloc);
    for axis in axes {
        push_axis_bounds(alloc, axis, &mut bounds)?;
    }
    Ok(bounds)
}

/// The bounds of a range.
pub fn bounds_of(alloc: Global, range: &RangeExpr) -> Result<Many<Expr>, NoMemory>
    ensures { IfOk result (λ bounds. bounds ≡ range_bounds range.now) }
{
    let mut bounds = Many::new(alloc);
    push_range_bounds(alloc, range, &mut bounds)?;
    Ok(bounds)
}

/// The bounds of the ranges of inner heads.
pub fn inner_bounds(alloc: Global, heads: &[Inner]) -> Result<Many<Expr>, NoMemory>
    ensures { IfOk result (λ bounds. bounds ≡ flat_map (λ (head : Inner). range_bounds head.range) heads.now) }
{
    let mut bounds = Many::new(alloc);
    for head in heads {
        push_range_bounds(alloc, &head.range, &mut bounds)?;
    }
    Ok(bounds)
}
