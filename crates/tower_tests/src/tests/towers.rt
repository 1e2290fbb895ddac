//! Inputs cut at each place, folded apart and merged, which no loop does yet; and lists of inputs that no loop emits.

use super::build::{both, group, pair, text};
use super::fold::check;
use loop_data::{Kind, Value};
use no_memory::NoMemory;
use std::alloc::Global;
use std::test::Fail;

#[test]
fn a_number_counts_as_smaller_than_a_text(rt: HostRuntime) -> Result<(), Fail> {
    let alloc = rt.alloc();
    let mixed = [
        text(alloc, "")?,
        Value::Int(5),
        text(alloc, "0")?,
        Value::Int(-2),
    ];
    check(&rt, alloc, &Kind::Least, &mixed, "-2")?;
    check(&rt, alloc, &Kind::Greatest, &mixed, "0")?;
    Ok(())
}

#[test]
fn a_place_needs_no_order_of_arrival(rt: HostRuntime) -> Result<(), Fail> {
    let alloc = rt.alloc();
    let inputs = [
        pair(alloc, Value::Int(9), Value::Int(5))?,
        pair(alloc, Value::Int(9), Value::Int(2))?,
        pair(alloc, Value::Int(1), Value::Int(3))?,
    ];
    check(&rt, alloc, &Kind::GreatestAt, &inputs, "9 at 2")?;
    check(&rt, alloc, &Kind::LeastAt, &inputs, "1 at 3")?;
    Ok(())
}

/// The pair of a count and of the sum of a group in a group.
fn deep_kind(alloc: Global) -> Result<Kind, NoMemory> {
    let inner = group(alloc, Kind::Sum)?;
    both(alloc, Kind::Count, group(alloc, inner)?)
}

fn deep_input(
    alloc: Global,
    outer: &'static str,
    inner: &'static str,
    n: i64,
) -> Result<Value, NoMemory> {
    let inside = pair(alloc, text(alloc, inner)?, Value::Int(n))?;
    pair(
        alloc,
        Value::Nothing,
        pair(alloc, text(alloc, outer)?, inside)?,
    )
}

#[test]
fn a_group_in_a_group_in_both(rt: HostRuntime) -> Result<(), Fail> {
    let alloc = rt.alloc();
    let kind = deep_kind(alloc)?;
    let inputs = [
        deep_input(alloc, "x", "b", 1)?,
        deep_input(alloc, "x", "a", 2)?,
        deep_input(alloc, "w", "b", 3)?,
        deep_input(alloc, "x", "b", 4)?,
    ];
    check(
        &rt,
        alloc,
        &kind,
        &inputs,
        "(4, {w: {b: 3}, x: {a: 2, b: 5}})",
    )?;
    Ok(())
}
