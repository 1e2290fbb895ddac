//! Open heads: their items by place, along the whole and along leaves of several sizes.

ghost use Rattle.std.specs.Prelude.{◌≡◌};

use crate::run::{Row, read, table_of};
use column_input::Table;
use loop_items::{HeadItems, HeadRefusal};
use loop_syntax::Program;
use splittable::{Part, Splittable};
use std::alloc::Global;
use std::process::Abort;
use std::test::Fail;

/// The items from place to place, a bar before each.
pub fn by_place(alloc: Global, head: &HeadItems<'_>) -> Result<String, Fail> {
    let mut out = String::new(alloc);
    for before in 0..head.count() {
        let item = head.item(alloc, before + 1)?;
        write!(out, "|{item}")?;
    }
    Ok(out)
}

/// Puts the items of a part behind the others, a bar before each. The walk has to end where the part does.
fn push_part(alloc: Global, head: &HeadItems<'_>, part: &Part, out: &mut String) -> Result<(), Fail>
    requires { part.now.lens ≡ head.now.lens }
{
    let mut walk = head.walk(part);
    for _ in 0..part.len() {
        if let Some(item) = walk.next(alloc)? {
            write!(out, "|{item}")?;
        }
    }
    if walk.next(alloc)?.is_some() {
        return Err(Fail::from("goes on"));
    }
    Ok(())
}

/// The same, walking along one leaf of at most `least` places after another, where no leaf is deeper than `depth`.
fn push_leaves(
    alloc: Global,
    head: &HeadItems<'_>,
    part: &Part,
    least: u64,
    depth: u32,
    out: &mut String,
) -> Result<(), Fail>
    requires { part.now.lens ≡ head.now.lens }
{
    if part.len() > least && depth > 0 {
        if let Some((left, right)) = part.halve() {
            push_leaves(alloc, head, &left, least, depth - 1, out)?;
            return push_leaves(alloc, head, &right, least, depth - 1, out);
        }
    }
    push_part(alloc, head, part, out)
}

/// The items of each leaf of so many places at most, walked along one leaf after another, a bar before each.
pub fn walked(alloc: Global, head: &HeadItems<'_>, least: u64) -> Result<String, Fail> {
    let mut out = String::new(alloc);
    if let Some(whole) = head.shape().whole() {
        push_leaves(alloc, head, &whole, least, 33, &mut out)?;
    }
    Ok(out)
}

/// How many places the leaves have at most, each time that a head is walked: first the whole is one leaf.
static LEAVES: [u64; 4] = [4294967296, 5, 2, 1];

/// The items by place, or where a walk along leaves gives others, both.
fn by_place_and_walked(alloc: Global, head: &HeadItems<'_>) -> Result<String, Fail> {
    let placed = by_place(alloc, head)?;
    for least in &LEAVES {
        let along = walked(alloc, head, *least)?;
        if along.as_str() != placed.as_str() {
            return Ok(format!(in alloc; "{placed} but in leaves of {least} {along}")?);
        }
    }
    Ok(placed)
}

/// The items, or the refusal.
fn said(alloc: Global, program: &Program, table: &Table) -> Result<String, Fail> {
    match HeadItems::open(alloc, program, table) {
        Ok(head) => by_place_and_walked(alloc, &head),
        Err(refusal) => Ok(format!(in alloc; "{refusal}")?),
    }
}

/// Checks that a head has the items that are wanted, by place, along the whole and along its leaves.
pub fn check_head(
    rt: &impl Abort,
    alloc: Global,
    program: &Program,
    table: &Table,
    wanted: &str,
) -> Result<(), Fail> {
    let open = HeadItems::open(alloc, program, table).map_err(|_| "refused")?;
    assert_eq!(rt; by_place_and_walked(alloc, &open)?.as_str(), wanted);
    Ok(())
}

/// What is said of the head of a loop.
fn said_of(alloc: Global, text: &str, data: &str) -> Result<String, Fail> {
    let program = read(alloc, text)?;
    let table = table_of(alloc, data)?;
    said(alloc, &program, &table)
}

static HEADS: [Row; 4] = [
    // three axes, one a zip
    (
        "for p in product(1:2, zip(col(\"v\"), 10:-1:1), 7:8)\nend\n",
        "v\na\nb\n",
        "|(1, (a, 10), 7)|(2, (a, 10), 7)|(1, (b, 9), 7)|(2, (b, 9), 7)|(1, (a, 10), 8)|(2, (a, 10), 8)|(1, (b, 9), 8)|(2, (b, 9), 8)",
    ),
    // bounds of programs that aren't legal: a text, a fault, a name without a value, and a text as the step
    ("var k = \"x\"\nfor x in k:2\nend\n", "", "|0|1|2"),
    ("for x in 1 div 0:k\nend\n", "", "|0"),
    (
        "var k = \"1\"\nfor x in 1:k:5\nend\n",
        "",
        "line 2: step is zero",
    ),
];

#[test]
fn items_by_place_and_along_leaves(rt: HostRuntime) -> Result<(), Fail> {
    for (text, data, wanted) in &HEADS {
        let got = said_of(rt.alloc(), text, data)?;
        assert_eq!(rt; got.as_str(), *wanted, "{text}");
    }
    Ok(())
}

/// Checks that a walk along one item gives it, and then nothing, however often it is asked.
fn check_end(rt: &impl Abort, alloc: Global, head: &HeadItems<'_>) -> Result<(), Fail> {
    let whole = head.shape().whole().ok_or("empty")?;
    let mut walk = head.walk(&whole);
    assert!(rt; walk.next(alloc)?.is_some());
    assert!(rt; walk.next(alloc)?.is_none());
    assert!(rt; walk.next(alloc)?.is_none());
    Ok(())
}

fn open_and_end(
    rt: &impl Abort,
    alloc: Global,
    program: &Program,
    table: &Table,
) -> Result<(), Fail> {
    let head = HeadItems::open(alloc, program, table).map_err(|_| "refused")?;
    check_end(rt, alloc, &head)
}

#[test]
fn a_walk_ends(rt: HostRuntime) -> Result<(), Fail> {
    let alloc = rt.alloc();
    let table = table_of(alloc, "v\nx\n")?;
    let program = read(alloc, "for t in col(\"v\")\nend\n")?;
    open_and_end(&rt, alloc, &program, &table)
}

#[test]
fn want_of_memory_has_a_text(rt: HostRuntime) -> Result<(), Fail> {
    let refusal = HeadRefusal::NoMemory;
    let text = format!(in rt.alloc(); "{refusal}")?;
    assert_eq!(rt; text.as_str(), "out of memory");
    Ok(())
}
