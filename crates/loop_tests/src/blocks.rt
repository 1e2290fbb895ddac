//! Statements on the names of a body run, and patterns, as a caller takes them.

use crate::run::read;
use crate::shown;
use loop_data::{Many, Value};
use loop_meaning::{BodyRun, Flow, bind_pattern, run_block, run_statement};
use loop_syntax::Program;
use loop_values::Env;
use no_memory::NoMemory;
use std::alloc::Global;
use std::process::Abort;
use std::test::Fail;

/// A loop, the value of `x`, and how its body's block leaves a body run in which nothing else has a value.
type Block = (&'static str, i64, &'static str);

const BLOCK: &str =
    "for x in 1:1\nlet y = x + 1\n@reduce s += y\nif x == 3\ncontinue\nend\ny = 10 div (4 - x)\n@reduce s += y\nend\n";

const BREAK: &str =
    "for x in 1:1\nif x > 1\nlet y = 5\nif x > 2\nbreak\nend\nlet b = y\nend\nlet c = x\nend\n";

static BLOCKS: [Block; 7] = [
    (BLOCK, 2, "going; s=3 s=5; x 2 y 5"),
    (BLOCK, 3, "continued; s=4; x 3 y 4"),
    (BLOCK, 4, "faulted 7 1; s=5; x 4 y 5"),
    // what an inner block binds has its value as long as the body run
    (BREAK, 1, "going;; c 1 x 1"),
    (BREAK, 2, "going;; b 5 c 2 x 2 y 5"),
    (BREAK, 3, "broke 5;; x 3 y 5"),
    ("for x in 1:1\nend\n", 8, "going;; x 8"),
];

/// The first statement alone.
static FIRSTS: [Block; 5] = [
    (BLOCK, 6, "going;; x 6 y 7"),
    ("for x in 1:1\nx = x * x\nend\n", 6, "going;; x 36"),
    (
        "for x in 1:1\n@reduce p = argmax(x)\nend\n",
        6,
        "going; p=(6, nothing); x 6",
    ),
    (
        "for x in 1:1\n@keep y = tryint(\"q\")\nend\n",
        6,
        "continued;; x 6",
    ),
    ("for x in 1:1\nbreak\nend\n", 6, "broke 2;; x 6"),
];

/// A body run that goes on, in which `x` is this number, and nothing was emitted.
fn body_run(alloc: Global, x: i64) -> Result<BodyRun, NoMemory> {
    let mut names = Env::new(alloc);
    names.bind(alloc, "x", Value::Int(x))?;
    Ok(BodyRun {
        names,
        emitted: Many::new(alloc),
        flow: Flow::Going,
    })
}

/// How the program's block leaves such a body run.
fn left_by_block(alloc: Global, program: &Program, x: i64) -> Result<String, Fail> {
    let mut run = body_run(alloc, x)?;
    run_block(alloc, program.body().as_slice(), &mut run)?;
    Ok(shown::body_run(alloc, &run)?)
}

/// How the program's first statement leaves such a body run.
fn left_by_first(alloc: Global, program: &Program, x: i64) -> Result<String, Fail> {
    let mut run = body_run(alloc, x)?;
    if let Some(first) = program.body().as_slice().first() {
        run_statement(alloc, first, &mut run)?;
    }
    Ok(shown::body_run(alloc, &run)?)
}

fn block(alloc: Global, text: &str, x: i64) -> Result<String, Fail> {
    let program = read(alloc, text)?;
    left_by_block(alloc, &program, x)
}

fn first(alloc: Global, text: &str, x: i64) -> Result<String, Fail> {
    let program = read(alloc, text)?;
    left_by_first(alloc, &program, x)
}

#[test]
fn blocks(rt: HostRuntime) -> Result<(), Fail> {
    for (text, x, wanted) in &BLOCKS {
        let got = block(rt.alloc(), text, *x)?;
        assert_eq!(rt; got.as_str(), *wanted, "{text}");
    }
    Ok(())
}

#[test]
fn one_statement(rt: HostRuntime) -> Result<(), Fail> {
    for (text, x, wanted) in &FIRSTS {
        let got = first(rt.alloc(), text, *x)?;
        assert_eq!(rt; got.as_str(), *wanted, "{text}");
    }
    Ok(())
}

/// A loop that ended its body run before does nothing more.
fn block_after_continue(alloc: Global, program: &Program) -> Result<String, Fail> {
    let mut run = body_run(alloc, 6)?;
    run.flow = Flow::Continued;
    run_block(alloc, program.body().as_slice(), &mut run)?;
    Ok(shown::body_run(alloc, &run)?)
}

#[test]
fn a_block_asks_whether_its_body_run_goes_on(rt: HostRuntime) -> Result<(), Fail> {
    let alloc = rt.alloc();
    let program = read(alloc, BLOCK)?;
    let got = block_after_continue(alloc, &program)?;
    assert_eq!(rt; got.as_str(), "continued;; x 6");
    Ok(())
}

/// A loop whose head has the pattern, how many parts the tuple has, and the names with their values. No part is the number 5
/// itself in place of a tuple.
static PATTERNS: [(&str, usize, &str); 6] = [
    ("for p in 1:1\nend\n", 0, ": p 5"),
    ("for p in 1:1\nend\n", 2, ": p (5, true)"),
    ("for (a, b) in zip(1:1, 1:1)\nend\n", 2, ": a 5 b true"),
    // up to the shorter end
    (
        "for (a, b, c) in zip(1:1, 1:1, 1:1)\nend\n",
        2,
        ": a 5 b true",
    ),
    ("for (a, b) in zip(1:1, 1:1)\nend\n", 3, ": a 5 b true"),
    ("for (a, b) in zip(1:1, 1:1)\nend\n", 0, ":"),
];

/// The tuple of so many of 5, true and 7, or 5 itself.
fn tuple(alloc: Global, count: usize) -> Result<Value, NoMemory> {
    if count == 0 {
        return Ok(Value::Int(5));
    }
    let mut parts = Many::new(alloc);
    for part in [Value::Int(5), Value::Bool(true), Value::Int(7)] {
        if parts.len() < count {
            parts.push(alloc, part)?;
        }
    }
    Ok(Value::Tuple(parts))
}

/// The names of the head's pattern, bound to a tuple of so many parts.
fn bound(alloc: Global, program: &Program, count: usize) -> Result<String, Fail> {
    let mut names = Env::new(alloc);
    let pattern = program.head().names.as_slice();
    bind_pattern(alloc, &mut names, pattern, tuple(alloc, count)?)?;
    Ok(shown::names(alloc, &names)?)
}

fn bound_by(alloc: Global, text: &str, count: usize) -> Result<String, Fail> {
    let program = read(alloc, text)?;
    bound(alloc, &program, count)
}

#[test]
fn patterns(rt: HostRuntime) -> Result<(), Fail> {
    for (text, count, wanted) in &PATTERNS {
        let got = bound_by(rt.alloc(), text, *count)?;
        assert_eq!(rt; got.as_str(), *wanted, "{text}");
    }
    Ok(())
}
