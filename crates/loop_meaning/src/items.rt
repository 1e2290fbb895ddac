//! The items of a program's first head.

ghost use Rattle.std.specs.Prelude.{◌≡◌, ◌≢◌, ◌<◌, ◌≤◌, ◌++◌, ◌∷◌, ℕ, IfOk, OnOk, flat_map, map, pos, FitsSigned};
ghost use Rattle.std.specs.Int.{w64};
ghost use Rattle.std.specs.FinMap.{get};
ghost use Rattle.number_ranges.specs.Ranges.{items_from, range_count, range_item};
ghost use Rattle.column_input.specs.Table.{column_of};
ghost use Rattle.loop_data.specs.declared.value.Value.TheVariants as value;
ghost use Rattle.loop_meaning.specs.Items.{all_items, axis_items, column_items, combinations, head_items, in_front};
ghost use Rattle.loop_meaning.specs.Items.{items_of, numbers, side_by_side, sources, steps_items};

use crate::bounds::{number_of, step_number};
use crate::stores::variables;
use column_input::Table;
use loop_data::{Axis, HeadLine, Many, RangeExpr, TextValue, Value};
use loop_syntax::Program;
use loop_values::Env;
use no_memory::NoMemory;
use number_ranges::{range_count, range_item};
use std::alloc::Global;

/// A list of items of the first head.
pub type ItemList = Many<Value>;

/// So many numbers from the first on, which fit 64 bits.
fn numbers_from(alloc: Global, first: i64, step: i64, count: u64) -> Result<ItemList, NoMemory>
    requires { (steps : ℕ) → steps < count → FitsSigned w64 (range_item first step steps) }
    ensures { IfOk result (λ items. items ≡ map value.Int (items_from first step count)) }
{
    let mut items = Many::new(alloc);
    for before in 0..count {
        items.push(alloc, Value::Int(range_item(first, step, before)))?;
    }
    Ok(items)
}

/// The numbers from the first on, up to the last.
fn numbers(alloc: Global, first: i64, step: i64, last: i64) -> Result<ItemList, NoMemory>
    ensures { IfOk result (λ items. items ≡ map value.Int (numbers first step last)) }
{
    if step == 0 {
        return Ok(Many::new(alloc));
    }
    let count = range_count(first, step, last);
    // A list of 2^64 values can't be held.
    if count > 18446744073709551615 {
        return Err(NoMemory);
    }
    numbers_from(alloc, first, step, count as u64)
}

fn steps_items(alloc: Global, range: &RangeExpr, names: &Env) -> Result<ItemList, NoMemory>
    ensures { IfOk result (λ items. items ≡ steps_items range.now (get names.now)) }
{
    let first = number_of(alloc, &range.first, names)?;
    let step = step_number(alloc, &range.step, names)?;
    let last = number_of(alloc, &range.last, names)?;
    numbers(alloc, first, step, last)
}

/// The texts of a column from top to bottom.
fn column_items(alloc: Global, table: &Table, name: &TextValue) -> Result<ItemList, NoMemory>
    ensures { IfOk result (λ items. items ≡ column_items (column_of table.now name.now)) }
{
    let mut items = Many::new(alloc);
    let Some(column) = table.column(name.as_str()) else {
        return Ok(items);
    };
    for k in 0..table.rows() {
        let text = TextValue::new(alloc, column.text(k + 1))?;
        items.push(alloc, Value::Text(text))?;
    }
    Ok(items)
}

/// A row with one value more in front.
fn row_with(alloc: Global, x: &Value, row: &[Value]) -> Result<Many<Value>, NoMemory>
    ensures { IfOk result (λ longer. longer ≡ x.now ∷ row.now) }
{
    let mut longer = Many::new(alloc);
    longer.push(alloc, x.copy(alloc)?)?;
    for y in row {
        longer.push(alloc, y.copy(alloc)?)?;
    }
    Ok(longer)
}

/// Each value in front of the row at its place, up to the shorter end.
fn in_front(
    alloc: Global,
    xs: &[Value],
    rows: &[Many<Value>],
) -> Result<Many<Many<Value>>, NoMemory>
    ensures { IfOk result (λ longer. longer ≡ in_front xs.now rows.now) }
{
    let mut longer = Many::new(alloc);
    for (x, row) in xs.iter().zip(rows.iter()) {
        longer.push(alloc, row_with(alloc, x, row.as_slice())?)?;
    }
    Ok(longer)
}

/// Puts the row, with each of these values in front, behind the others.
fn push_with_each(
    alloc: Global,
    xs: &[Value],
    row: &[Value],
    rows: &mut Many<Many<Value>>,
) -> Result<(), NoMemory>
    ensures { OnOk result (rows.new ≡ rows.old ++ map (λ x. x ∷ row.now) xs.now) }
{
    for x in xs {
        rows.push(alloc, row_with(alloc, x, row)?)?;
    }
    Ok(())
}

/// The lists side by side, up to the end of the shortest.
fn side_by_side(alloc: Global, lists: &[ItemList]) -> Result<Many<Many<Value>>, NoMemory>
    ensures { IfOk result (λ rows. rows ≡ side_by_side lists.now) }
{
    let Some((first, further)) = lists.split_first() else {
        return Ok(Many::new(alloc));
    };
    if further.is_empty() {
        let mut rows = Many::new(alloc);
        push_with_each(alloc, first.as_slice(), &[], &mut rows)?;
        return Ok(rows);
    }
    let rows = side_by_side(alloc, further)?;
    in_front(alloc, first.as_slice(), rows.as_slice())
}

/// For each row, in order, the rows that have one of these values in front.
fn each_in_front(
    alloc: Global,
    xs: &[Value],
    rows: &[Many<Value>],
) -> Result<Many<Many<Value>>, NoMemory>
    ensures { IfOk result (λ longer. longer
        ≡ flat_map (λ row. map (λ x. x ∷ row) xs.now) rows.now) }
{
    let mut longer = Many::new(alloc);
    for row in rows {
        push_with_each(alloc, xs, row.as_slice(), &mut longer)?;
    }
    Ok(longer)
}

/// Each choice of an item from each list, the first of which changes fastest.
fn combinations(alloc: Global, lists: &[ItemList]) -> Result<Many<Many<Value>>, NoMemory>
    ensures { IfOk result (λ rows. rows ≡ combinations lists.now) }
{
    let Some((first, further)) = lists.split_first() else {
        let mut rows = Many::new(alloc);
        rows.push(alloc, Many::new(alloc))?;
        return Ok(rows);
    };
    let others = combinations(alloc, further)?;
    each_in_front(alloc, first.as_slice(), others.as_slice())
}

/// The tuples of these rows.
fn tuples(alloc: Global, rows: &[Many<Value>]) -> Result<ItemList, NoMemory>
    ensures { IfOk result (λ items. items ≡ map value.Tuple rows.now) }
{
    let mut items = Many::new(alloc);
    for parts in rows {
        items.push(alloc, Value::Tuple(parts.copy(alloc)?))?;
    }
    Ok(items)
}

/// The values that an axis goes over.
#[cycle(axes)]
fn axis_items(alloc: Global, axis: &Axis, names: &Env, table: &Table) -> Result<ItemList, NoMemory>
    ensures { IfOk result (λ items. items
        ≡ axis_items axis.now (sources (get names.now) table.now)) }
{
    match axis {
        Axis::Steps(range) => steps_items(alloc, range, names),
        Axis::Col(name) => column_items(alloc, table, name),
        Axis::Zip(parts) => {
            let lists = all_items(alloc, parts.as_slice(), names, table)?;
            let rows = side_by_side(alloc, lists.as_slice())?;
            tuples(alloc, rows.as_slice())
        }
    }
}

/// The values of each of several axes.
#[cycle(axes)]
fn all_items(
    alloc: Global,
    axes: &[Axis],
    names: &Env,
    table: &Table,
) -> Result<Many<ItemList>, NoMemory>
    ensures { IfOk result (λ lists. lists
        ≡ all_items (map axis_items axes.now) (sources (get names.now) table.now)) }
{
    let mut lists = Many::new(alloc);
    for axis in axes {
        lists.push(alloc, axis_items(alloc, axis, names, table)?)?;
    }
    Ok(lists)
}

/// The items of a head, whose bounds read these names.
fn head_items(
    alloc: Global,
    head: &HeadLine,
    names: &Env,
    table: &Table,
) -> Result<ItemList, NoMemory>
    ensures { IfOk result (λ items. items
        ≡ head_items head.now (sources (get names.now) table.now)) }
{
    let axes = all_items(alloc, head.axes.as_slice(), names, table)?;
    if head.product {
        let rows = combinations(alloc, axes.as_slice())?;
        return tuples(alloc, rows.as_slice());
    }
    match axes.as_slice().first() {
        None => Ok(Many::new(alloc)),
        Some(items) => items.copy(alloc),
    }
}

/// The items of the program's first head over a table, in order. A range or a column that no loop runs over, as one of step 0
/// or of a name that the table doesn't have, has none.
///
/// It is for reference and for tests: the whole list is made, and those of a zip's parts before they are cut to the shortest.
/// Refused only for want of memory.
pub fn items_of(alloc: Global, program: &Program, table: &Table) -> Result<ItemList, NoMemory>
    ensures { IfOk result (λ items. items ≡ items_of program.now table.now) }
{
    let tree = program.tree();
    let names = variables(alloc, tree)?;
    head_items(alloc, &tree.head, &names, table)
}
