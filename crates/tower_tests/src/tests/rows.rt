//! Rows of towers: names, start values, texts and copies.

ghost use Rattle.std.specs.Prelude.{◌≡◌, ◌≤◌, ◌^◌, true, length, List, IfOk};
ghost use Rattle.reducer_tower.specs.declared.row.Emitted.{Emitted};
ghost use Rattle.reducer_tower.specs.Rows.{RowStands, Takes, fits_start};

use super::build::{both, group, ints, text};
use super::fits::fits;
use loop_data::{Kind, Value};
use no_memory::NoMemory;
use reducer_laws::Reducer;
use reducer_tower::{Emitted, Row, RowState, RowStop};
use std::alloc::Global;
use std::process::Abort;
use std::test::Fail;

fn start_fits(kind: &Kind, start: &Option<Value>) -> bool
    ensures { result ≡ true → fits_start kind.now start.now ≡ true }
{
    match start {
        Some(start) => fits(kind, start),
        None => true,
    }
}

/// Puts a tower last, whose name is new and whose start value fits.
fn add<H: Abort>(
    rt: &H,
    alloc: Global,
    row: &mut Row,
    name: &str,
    kind: &Kind,
    start: Option<Value>,
) -> Result<(), NoMemory> {
    assert!(rt; row.tower(name).is_none());
    assert!(rt; row.towers.len() < 4294967296);
    assert!(rt; start_fits(kind, &start));
    row.add(alloc, name, kind, start)
}

fn takes(row: &Row, input: &Emitted) -> bool
    ensures { result ≡ true → Takes row.now.towers.items input.now }
{
    match row.towers.get(input.tower as usize) {
        Some(named) => fits(&named.tower.kind, &input.value),
        None => false,
    }
}

/// Folds inputs of a row's towers, first to last. Each has to fit its tower.
fn fold_row<H: Abort>(
    rt: &H,
    alloc: Global,
    row: &Row,
    inputs: Vec<Emitted>,
) -> Result<RowState, NoMemory>
    ensures stands { IfOk result (λ state.
        RowStands row.now.towers.items state.states.items inputs.items) }
    ensures few { length inputs.items ≤ 2 ^ 60 }
{
    assert!(rt; inputs.len() <= 1152921504606846976);
    let mut state = row.unit(alloc)?;
    for input in inputs {
        assert!(rt; takes(row, &input));
        row.next(alloc, &mut state, input)?;
    }
    Ok(state)
}

/// Folds two lists of inputs apart, puts the states together, and the start values of the towers before their inputs.
fn fold_with_starts<H: Abort>(
    rt: &H,
    alloc: Global,
    row: &Row,
    left: Vec<Emitted>,
    right: Vec<Emitted>,
) -> Result<RowState, NoMemory>
    ensures { IfOk result (λ state. (inputs : List Emitted) ×
        RowStands row.now.towers.items state.states.items inputs) }
{
    let before = fold_row(rt, alloc, row, left)?;
    let after = fold_row(rt, alloc, row, right)?;
    let state = row.merge(alloc, before, after)?;
    row.with_starts(alloc, state)
}

/// Checks the text of a tower, and that of a copy of the states.
fn check_text<H: Abort>(
    rt: &H,
    alloc: Global,
    row: &Row,
    state: &RowState,
    name: &str,
    want: &str,
) -> Result<(), Fail>
    requires { (inputs : List Emitted) ×
        RowStands row.now.towers.items state.now.states.items inputs }
{
    let have = row.text(alloc, state, name)?;
    assert!(rt; have.as_slice() == want.as_bytes(), "{name}: not {want}");
    let copy = row.copy_state(alloc, state)?;
    let have = row.text(alloc, &copy, name)?;
    assert!(rt;
        have.as_slice() == want.as_bytes(),
        "{name}, copied: not {want}"
    );
    Ok(())
}

/// Values as inputs of one tower.
fn of_tower(alloc: Global, tower: u32, values: &[Value]) -> Result<Vec<Emitted>, NoMemory> {
    let mut inputs = Vec::new(alloc);
    for value in values {
        let value = value.copy(alloc)?;
        inputs.push(Emitted { tower, value })?;
    }
    Ok(inputs)
}

/// A row with one tower, whose name is `s`.
fn row_of<H: Abort>(
    rt: &H,
    alloc: Global,
    kind: &Kind,
    start: Option<Value>,
) -> Result<Row, NoMemory> {
    let mut row = Row::new(alloc);
    add(rt, alloc, &mut row, "s", kind, start)?;
    Ok(row)
}

/// Folds inputs by a tower with a start value. Checks its text without the start value, and, from the inputs cut at each place
/// and folded in parts, with it.
fn check_start<H: Abort>(
    rt: &H,
    alloc: Global,
    kind: &Kind,
    start: Value,
    inputs: &[Value],
    with: &str,
    without: &str,
) -> Result<(), Fail> {
    let row = row_of(rt, alloc, kind, Some(start))?;
    let state = fold_row(rt, alloc, &row, of_tower(alloc, 0, inputs)?)?;
    check_text(rt, alloc, &row, &state, "s", without)?;
    for cut in 0..inputs.len() + 1 {
        let left = of_tower(alloc, 0, &inputs[..cut])?;
        let right = of_tower(alloc, 0, &inputs[cut..])?;
        let state = fold_with_starts(rt, alloc, &row, left, right)?;
        check_text(rt, alloc, &row, &state, "s", with)?;
    }
    Ok(())
}

#[test]
fn a_start_value_counts_once(rt: HostRuntime) -> Result<(), Fail> {
    let alloc = rt.alloc();
    let inputs = ints(alloc, &[1, 2, 3, 4, 5, 6, 7, 8])?;
    check_start(
        &rt,
        alloc,
        &Kind::Sum,
        Value::Int(100),
        &inputs,
        "136",
        "36",
    )?;
    let listed = "[0, 1, 2, 3, 4, 5, 6, 7, 8]";
    let without = "[1, 2, 3, 4, 5, 6, 7, 8]";
    check_start(
        &rt,
        alloc,
        &Kind::Listed,
        Value::Int(0),
        &inputs,
        listed,
        without,
    )
}

/// Checks that a row has no tower of a name.
fn check_no_name<H: Abort>(rt: &H, alloc: Global, row: &Row, name: &str) -> Result<(), Fail> {
    let state = fold_row(rt, alloc, row, Vec::new(alloc))?;
    let text = row.text(alloc, &state, name);
    assert!(rt;
        matches!(&text, Err(RowStop::NoSuchName)),
        "{name} has a text"
    );
    let _ = text;
    Ok(())
}

#[test]
fn towers_have_names_and_numbers(rt: HostRuntime) -> Result<(), Fail> {
    let alloc = rt.alloc();
    let mut row = Row::new(alloc);
    check_no_name(&rt, alloc, &row, "s")?;
    add(&rt, alloc, &mut row, "s", &Kind::Sum, None)?;
    add(&rt, alloc, &mut row, "", &Kind::Count, None)?;
    assert!(&rt; row.tower("s") == Some(0));
    assert!(&rt; row.tower("") == Some(1));
    assert!(&rt; row.tower("S") == None);
    check_no_name(&rt, alloc, &row, "S")
}

/// Checks how a tower prints in a row.
fn check_named<H: Abort>(
    rt: &H,
    alloc: Global,
    kind: &Kind,
    start: Option<Value>,
    want: &str,
) -> Result<(), Fail> {
    let row = row_of(rt, alloc, kind, start)?;
    for named in &row.towers {
        let have = format!(in alloc; "{named}")?;
        assert!(rt; have.as_str() == want, "{have}, not {want}");
    }
    Ok(())
}

#[test]
fn a_named_tower_prints_as_explain_writes_it(rt: HostRuntime) -> Result<(), Fail> {
    let alloc = rt.alloc();
    check_named(&rt, alloc, &Kind::Greatest, None, "s: max")?;
    check_named(
        &rt,
        alloc,
        &Kind::Sum,
        Some(Value::Int(-100)),
        "s: sum from -100",
    )?;
    check_named(
        &rt,
        alloc,
        &Kind::Last,
        Some(text(alloc, "a b")?),
        "s: last from a b",
    )?;
    check_named(&rt, alloc, &group(alloc, Kind::Sum)?, None, "s: group(sum)")?;
    let kind = both(alloc, Kind::Sum, Kind::Count)?;
    check_named(
        &rt,
        alloc,
        &group(alloc, kind)?,
        None,
        "s: group(both(sum, count))",
    )?;
    Ok(())
}
