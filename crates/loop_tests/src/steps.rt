//! Steps of the body one at a time, as a caller takes them.

use crate::run::read;
use crate::shown;
use loop_data::{Many, Value};
use loop_meaning::{BodyEnd, Pair, start_store, step_plain};
use loop_syntax::Program;
use loop_values::Env;
use no_memory::NoMemory;
use std::alloc::Global;
use std::process::Abort;
use std::test::Fail;

/// A loop, numbers that are its items one after another, the place of the first, and what their steps leave, from the start on:
/// how the last ended, the pairs of all, and the store. A step is taken whatever the one before it ended in.
type Step = (&'static str, &'static [i64], u32, &'static str);

/// A loop with a scratch, whose item 3 breaks after its pairs and whose item 4 faults after them.
const LIVES_ON: &str =
    "var k = 10\nfor x in 1:4\n@init b = 1\nlet y = b\nb = b + x * k\n@reduce s += b\n@reduce p = first(place)\nif x == 3\nbreak\nend\nlet z = 1 div (4 - x)\nend\n";

static STEPS: [Step; 5] = [
    (LIVES_ON, &[2], 7, "next; s=21 p=7; b 21 k 10"),
    // a break and a fault, with what was emitted and assigned before them
    (LIVES_ON, &[3], 1, "break 9; s=31 p=1; b 31 k 10"),
    (LIVES_ON, &[4], 1, "fault 11 1; s=41 p=1; b 41 k 10"),
    // a store and a list that live on from step to step
    (LIVES_ON, &[1, 2], 1, "next; s=11 p=1 s=31 p=2; b 31 k 10"),
    (
        LIVES_ON,
        &[4, 3, 1],
        5,
        "next; s=41 p=5 s=71 p=6 s=81 p=7; b 81 k 10",
    ),
];

static BODY_RUNS: [Step; 6] = [
    // of inner heads
    (
        "for x in 1:1, y in 1:3\n@init b = 0\nlet z = y * x\nb = b + z\n@reduce s += b\nend\n",
        &[2],
        5,
        "next; s=2 s=6 s=12; b 12",
    ),
    // a body run that `continue` or an `@keep` of nothing ends, and the next one
    (
        "for x in 1:1, y in 1:3\n@init b = 0\nb = b + y\nif y == 2\ncontinue\nend\n@reduce s += b\nend\n",
        &[1],
        1,
        "next; s=1 s=6; b 6",
    ),
    (
        "for x in 1:1, y in 1:3\n@init b = 0\nb = y\n@keep n = if y == x then y else nothing\n@reduce s += n\nend\n",
        &[3],
        1,
        "next; s=3; b 3",
    ),
    // none
    (
        "for x in 1:1, y in 1:x\n@init b = 7\nb = y\n@reduce s += y\nend\n",
        &[0],
        1,
        "next;; b 7",
    ),
    // a fault of an inner head, after body runs of another
    (
        "for x in 1:1, y in 1:3, z in 1:1 div (y - x)\n@init b = 0\nb = b + 1\n@reduce s += 10 * y + z\nend\n",
        &[3],
        1,
        "fault 1 1;; b 0",
    ),
    // a loop that skips faults: a step tells its fault and its pairs, and whether they count is the run's to say
    (
        "on fault skip\nfor x in 1:3\n@init b = 0\nb = x\n@reduce c += 1\n@reduce s += 6 div (x - 3)\nend\n",
        &[3, 2],
        5,
        "next; c=1 c=1 s=-6; b 2",
    ),
];

/// A step for a number.
fn step(
    alloc: Global,
    program: &Program,
    store: &mut Env,
    item: i64,
    place: u32,
    emitted: &mut Many<Pair>,
) -> Result<BodyEnd, NoMemory> {
    let item = Value::Int(item);
    step_plain(alloc, program, store, item, u64::from(place), emitted)
}

/// Steps for these numbers, one after another; how the last ended.
fn steps(
    alloc: Global,
    program: &Program,
    store: &mut Env,
    items: &[i64],
    first: u32,
    emitted: &mut Many<Pair>,
) -> Result<BodyEnd, NoMemory> {
    let mut place = first;
    let mut end = BodyEnd::Next;
    for item in items {
        end = step(alloc, program, store, *item, place, emitted)?;
        place = place.wrapping_add(1);
    }
    Ok(end)
}

/// What steps from the start leave, as a text.
fn left_by(alloc: Global, program: &Program, items: &[i64], first: u32) -> Result<String, Fail> {
    let mut store = start_store(alloc, program)?;
    let mut emitted = Many::new(alloc);
    let end = steps(alloc, program, &mut store, items, first, &mut emitted)?;
    Ok(shown::step(alloc, end, emitted.as_slice(), &store)?)
}

fn steps_of(alloc: Global, text: &str, items: &[i64], first: u32) -> Result<String, Fail> {
    let program = read(alloc, text)?;
    left_by(alloc, &program, items, first)
}

/// Checks what the steps of each row leave.
fn check(rt: &impl Abort, alloc: Global, rows: &[Step]) -> Result<(), Fail> {
    for (text, items, first, wanted) in rows {
        let got = steps_of(alloc, text, items, *first)?;
        assert_eq!(rt; got.as_str(), *wanted, "{text}");
    }
    Ok(())
}

#[test]
fn steps_from_the_start(rt: HostRuntime) -> Result<(), Fail> {
    check(&rt, rt.alloc(), &STEPS)
}

#[test]
fn body_runs_of_a_step(rt: HostRuntime) -> Result<(), Fail> {
    check(&rt, rt.alloc(), &BODY_RUNS)
}
