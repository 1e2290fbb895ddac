//! Lists of items as a caller takes them: those of a head, and a list that is made by hand.

use crate::run::{Row, end_of, read, table_of, values};
use column_input::Table;
use loop_data::Value;
use loop_meaning::{ItemList, PlainEnd, items_of, run_plain};
use loop_syntax::Program;
use no_memory::NoMemory;
use std::alloc::Global;
use std::test::Fail;

/// A loop, its data file, and the items of its head.
static ITEMS: [Row; 9] = [
    ("for x in 3:1\nend\n", "", ""),
    ("var k = 3\nfor x in k:-2:-3\nend\n", "", "3 1 -1 -3"),
    (
        "for t in col(\"b\")\nend\n",
        "a,b\n1,x\n2,\"y,z\"\n",
        "x y,z",
    ),
    (
        "for (n, t) in zip(1:9, col(\"a\"))\nend\n",
        "a,b\n1,x\n2,y\n",
        "(1, 1) (2, 2)",
    ),
    (
        "for p in product(1:2, zip(5:6, 7:8))\nend\n",
        "",
        "(1, (5, 7)) (2, (5, 7)) (1, (6, 8)) (2, (6, 8))",
    ),
    // an axis without items
    ("for p in product(1:2, 3:2)\nend\n", "", ""),
    ("for p in product(3:2, 1:2)\nend\n", "", ""),
    // over what no loop runs over: a step of 0, a column that isn't there
    ("for x in 1:0:3\nend\n", "", ""),
    ("for t in col(\"c\")\nend\n", "a,b\n1,x\n", ""),
];

fn items_over(alloc: Global, program: &Program, table: &Table) -> Result<String, Fail> {
    let items = items_of(alloc, program, table)?;
    Ok(values(alloc, items.as_slice())?)
}

fn items_in(alloc: Global, text: &str, data: &str) -> Result<String, Fail> {
    let program = read(alloc, text)?;
    let table = table_of(alloc, data)?;
    items_over(alloc, &program, &table)
}

#[test]
fn items_of_heads(rt: HostRuntime) -> Result<(), Fail> {
    for (text, data, wanted) in &ITEMS {
        let got = items_in(rt.alloc(), text, data)?;
        assert_eq!(rt; got.as_str(), *wanted, "{text}");
    }
    Ok(())
}

fn five_and_seven(alloc: Global) -> Result<ItemList, NoMemory> {
    let mut items = ItemList::new(alloc);
    items.push(alloc, Value::Int(5))?;
    items.push(alloc, Value::Int(7))?;
    Ok(items)
}

#[test]
fn a_list_of_items_is_pushed(rt: HostRuntime) -> Result<(), Fail> {
    let alloc = rt.alloc();
    let program = read(alloc, "for x in 1:1\n@reduce s += x\nend\n")?;
    let items = five_and_seven(alloc)?;
    let got = end_of(alloc, &program, &items)?;
    assert_eq!(rt; got.as_str(), "ran; s: 5 7");
    Ok(())
}

/// How many inputs the first reducer has.
fn first_count(end: &PlainEnd) -> usize {
    match end.inputs.as_slice().first() {
        Some(named) => named.list.len(),
        None => 0,
    }
}

fn count_over(alloc: Global, program: &Program, table: &Table) -> Result<usize, NoMemory> {
    let items = items_of(alloc, program, table)?;
    let end = run_plain(alloc, program, &items)?;
    Ok(first_count(&end))
}

/// How many inputs the first reducer of a loop without data has.
fn count_of(alloc: Global, text: &str) -> Result<usize, Fail> {
    let program = read(alloc, text)?;
    let table = Table::empty(alloc);
    Ok(count_over(alloc, &program, &table)?)
}

/// Loops and how many inputs they emit.
static COUNTS: [(&str, usize); 3] = [
    ("for x in 1:2000\n@reduce s += x\nend\n", 2000),
    (
        "for x in 1:2, y in 1:10, z in 1:10, w in 1:10\n@reduce c = count()\nend\n",
        2000,
    ),
    (
        "for x in 1:1, y in 1:100, z in 1:100\n@reduce c = count()\nend\n",
        10000,
    ),
];

#[test]
fn one_input_a_body_run(rt: HostRuntime) -> Result<(), Fail> {
    for (text, wanted) in &COUNTS {
        let got = count_of(rt.alloc(), text)?;
        assert_eq!(rt; got, *wanted, "{text}");
    }
    Ok(())
}
