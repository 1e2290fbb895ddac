//! Chains of stages, one item at a time, against what they make of it stage by stage, which was worked by hand.

use crate::stages::{Asks, Made, chain_of, expr_at, read};
use chain_stages::StepEnd;
use loop_data::{Expr, Many, Value};
use loop_meaning::{Pair, start_store};
use loop_syntax::Program;
use loop_values::{Env, eval};
use std::alloc::{AllocError, Global};
use std::process::Abort;
use std::test::Fail;
use transducer_kit::Chain;

/// A loop, stages made of it, an item, and the pairs and the end that the chain gives for it.
type Row = (&'static str, &'static [Made], &'static str, &'static str);

const ROWS: &str =
    "for (g, q) in zip(col(\"region\"), col(\"qty\"))\nlet n = int(q)\n@reduce total += n\n@reduce by = group(g, sum(n))\nend\n";

const OF_ROWS: [Made; 4] = [
    Made::Item,
    Made::Bind(0),
    Made::Rest(1),
    Made::ReduceIf(1, Asks::Broke),
];

static ITEMS: [Row; 4] = [
    (
        ROWS,
        &OF_ROWS,
        "(\"north\", \"10\")",
        " total=10 by=(north, 10); going",
    ),
    (
        ROWS,
        &OF_ROWS,
        "(\"south\", \"5\")",
        " total=5 by=(south, 5); going",
    ),
    (
        ROWS,
        &OF_ROWS,
        "(\"north\", \"7\")",
        " total=7 by=(north, 7); going",
    ),
    (ROWS, &OF_ROWS, "(\"west\", \"x\")", "; fault 2 2"),
];

const RANGE: &str = "for x in 1:1, y in 1:1 div x\n@reduce s += y\nend\n";

const SPLAT: &str = "for x in 1:1\nlet (a, b) = (1 div x, x)\n@reduce s += a * 10 + b\nend\n";

const KEEP: &str =
    "for x in 1:1\n@keep n = if 6 div x > 2 then x else nothing\n@reduce s += n\nend\n";

const CUT: &str = "for x in 1:1\nif 1 div x == 1\nbreak\nend\n@reduce s += x\nend\n";

const BLOCK: &str =
    "for x in 1:1\n@init b = 0\nif x > 5\nb = x\nif x > 8\nbreak\nend\nelse\nb = 1 div x\nend\n@reduce s += b\nend\n";

const REST: &str =
    "for x in 1:1\n@reduce s += x\nif x == 4\nbreak\nend\n@reduce t += 1 div x\nend\n";

const OF_RANGE: [Made; 4] = [
    Made::Range(0),
    Made::Cat(0),
    Made::Rest(0),
    Made::ReduceIf(0, Asks::Broke),
];

const OF_BLOCK: [Made; 5] = [
    Made::Block(0),
    Made::ReduceIf(0, Asks::Broke),
    Made::Filter(0, Asks::Going),
    Made::Rest(1),
    Made::ReduceIf(1, Asks::Broke),
];

static FAULTS: [Row; 20] = [
    (RANGE, &OF_RANGE, "1", " s=1; going"),
    (RANGE, &OF_RANGE, "2", "; going"),
    (RANGE, &OF_RANGE, "0", "; fault 1 1"),
    (SPLAT, &[Made::Splat(0), Made::Rest(1)], "2", " s=2; going"),
    (SPLAT, &[Made::Splat(0), Made::Rest(1)], "0", "; fault 2 1"),
    (KEEP, &[Made::Keep(0), Made::Rest(1)], "2", " s=2; going"),
    (KEEP, &[Made::Keep(0), Made::Rest(1)], "3", "; going"),
    (KEEP, &[Made::Keep(0), Made::Rest(1)], "0", "; fault 2 1"),
    (
        CUT,
        &[Made::Filter(0, Asks::IfNot), Made::Rest(1)],
        "2",
        " s=2; going",
    ),
    (
        CUT,
        &[Made::Filter(0, Asks::IfNot), Made::Rest(1)],
        "1",
        "; going",
    ),
    (
        CUT,
        &[Made::Filter(0, Asks::IfNot), Made::Rest(1)],
        "0",
        "; fault 2 1",
    ),
    (
        CUT,
        &[Made::ReduceIf(0, Asks::If), Made::Rest(1)],
        "1",
        " s=1; ended 2",
    ),
    (
        CUT,
        &[Made::ReduceIf(0, Asks::If), Made::Rest(1)],
        "2",
        " s=2; going",
    ),
    (
        CUT,
        &[Made::ReduceIf(0, Asks::If), Made::Rest(1)],
        "0",
        "; fault 2 1",
    ),
    (BLOCK, &OF_BLOCK, "6", " s=6; going"),
    (BLOCK, &OF_BLOCK, "9", "; ended 3"),
    (BLOCK, &OF_BLOCK, "0", "; fault 9 1"),
    // what a body run emitted before its break counts, and before its fault not
    (
        REST,
        &[Made::Rest(0), Made::ReduceIf(0, Asks::Broke)],
        "4",
        " s=4; ended 2",
    ),
    (
        REST,
        &[Made::Rest(0), Made::ReduceIf(0, Asks::Broke)],
        "1",
        " s=1 t=1; going",
    ),
    (
        REST,
        &[Made::Rest(0), Made::ReduceIf(0, Asks::Broke)],
        "0",
        "; fault 6 1",
    ),
];

const RUNS: &str = "for x in 1:1, y in 1:3\n@reduce s += 6 div (y - x)\nend\n";

const PAIRS: &str = "for x in 1:1, y in 1:x, z in y:x\n@reduce p = list((y, z))\nend\n";

const UNTIL: &str =
    "for x in 1:1, y in 1:x, z in 1:y\nif z == 2\nbreak\nend\n@reduce p = list((y, z))\nend\n";

const OF_PAIRS: [Made; 5] = [
    Made::Range(0),
    Made::Cat(0),
    Made::Range(1),
    Made::Cat(1),
    Made::Rest(0),
];

const OF_UNTIL: [Made; 7] = [
    Made::Range(0),
    Made::Cat(0),
    Made::Range(1),
    Made::Cat(1),
    Made::ReduceIf(0, Asks::If),
    Made::Filter(0, Asks::IfNot),
    Made::Rest(1),
];

static CATS: [Row; 6] = [
    // an element before the fault counts
    (RUNS, &OF_RANGE, "2", " s=-6; fault 2 1"),
    (RUNS, &OF_RANGE, "4", " s=-2 s=-3 s=-6; going"),
    (PAIRS, &OF_PAIRS, "2", " p=(1, 1) p=(1, 2) p=(2, 2); going"),
    (PAIRS, &OF_PAIRS, "0", "; going"),
    (UNTIL, &OF_UNTIL, "1", " p=(1, 1); going"),
    // an end of the inner range ends the outer one too
    (UNTIL, &OF_UNTIL, "3", " p=(1, 1) p=(2, 1); ended 2"),
];

const TWICE: &str =
    "for x in 1:1\nif x > 1\nbreak\nend\nif x > 2\nbreak\nend\n@reduce s += 6 div (x - 4)\nend\n";

const ALONE: &str = "for x in 1:1\nbreak\ncontinue\n@reduce s += x\nend\n";

const OF_TWICE: [Made; 3] = [
    Made::ReduceIf(0, Asks::If),
    Made::ReduceIf(1, Asks::If),
    Made::Rest(2),
];

static ENDS: [Row; 8] = [
    (TWICE, &OF_TWICE, "1", " s=-2; going"),
    (TWICE, &OF_TWICE, "2", " s=-3; ended 2"),
    // the stage after it ends by itself, and then the last one faults
    (TWICE, &OF_TWICE, "3", " s=-6; ended 5"),
    (TWICE, &OF_TWICE, "4", "; fault 8 1"),
    (
        ALONE,
        &[Made::ReduceIf(0, Asks::Always), Made::Rest(2)],
        "7",
        " s=7; ended 2",
    ),
    (
        ALONE,
        &[Made::ReduceIf(0, Asks::Never), Made::Rest(2)],
        "7",
        " s=7; going",
    ),
    (
        ALONE,
        &[Made::Filter(1, Asks::Never), Made::Rest(2)],
        "7",
        "; going",
    ),
    (ALONE, &[], "7", "; going"),
];

/// A loop whose second line gives `v` this expression.
fn looped(alloc: Global, text: &str) -> Result<Program, Fail> {
    let text = format!(in alloc; "for x in 1:1\nlet v = {text}\nend\n")?;
    read(alloc, text.as_str())
}

/// The value of an expression without names.
fn evaluated(alloc: Global, expr: &Expr) -> Result<Value, Fail> {
    let names = Env::new(alloc);
    Ok(eval(alloc, expr, &names).map_err(|_| "no value")?)
}

/// The value of what this text spells.
fn value_of(alloc: Global, text: &str) -> Result<Value, Fail> {
    let program = looped(alloc, text)?;
    evaluated(alloc, expr_at(&program, 0)?)
}

/// The values of names with which the chain of an item begins, the item at place 1.
fn names_at(alloc: Global, program: &Program, item: Value) -> Result<Env, Fail> {
    let mut names = start_store(alloc, program)?;
    names.bind(alloc, "place", Value::Int(1))?;
    match program.head().names.as_slice() {
        [name] => names.bind(alloc, name.as_str(), item)?,
        _ => names.bind(alloc, "@item", item)?,
    }
    Ok(names)
}

/// The values of names with which the chain of an item that this expression spells begins.
fn item_names(alloc: Global, program: &Program, item: &str) -> Result<Env, Fail> {
    let item = value_of(alloc, item)?;
    names_at(alloc, program, item)
}

fn push_end(out: &mut String, end: StepEnd) -> Result<(), AllocError> {
    match end {
        StepEnd::Going => out.push_str("; going"),
        StepEnd::Ended { line } => write!(out, "; ended {line}"),
        StepEnd::Fault { line, kind } => write!(out, "; fault {line} {kind}"),
    }
}

/// The pairs, and then the end.
fn shown(alloc: Global, pairs: &[Pair], end: StepEnd) -> Result<String, AllocError> {
    let mut out = String::new(alloc);
    for pair in pairs {
        let name = pair.name.as_str();
        write!(out, " {name}={}", &pair.input)?;
    }
    push_end(&mut out, end)?;
    Ok(out)
}

/// The pairs and the end of an item that begins with these names.
fn emitted(alloc: Global, chain: &Chain, names: Env) -> Result<String, Fail> {
    if !chain.cats_follow() {
        return Err(Fail::from("a cat after no range"));
    }
    let mut pairs = Many::new(alloc);
    let end = chain.emit(alloc, names, &mut pairs)?;
    Ok(shown(alloc, pairs.as_slice(), end)?)
}

/// What the chain of these stages of a loop gives for an item.
fn given_by(alloc: Global, program: &Program, made: &[Made], item: &str) -> Result<String, Fail> {
    let names = item_names(alloc, program, item)?;
    let chain = chain_of(alloc, program, made)?;
    emitted(alloc, &chain, names)
}

/// What the chain of a row gives for its item.
fn given(alloc: Global, text: &str, made: &[Made], item: &str) -> Result<String, Fail> {
    let program = read(alloc, text)?;
    given_by(alloc, &program, made, item)
}

fn check(rt: &impl Abort, alloc: Global, rows: &[Row]) -> Result<(), Fail> {
    for (text, made, item, wanted) in rows {
        let got = given(alloc, text, made, item)?;
        assert_eq!(rt; got.as_str(), *wanted, "{text} {item}");
    }
    Ok(())
}

#[test]
fn items_of_two_columns(rt: HostRuntime) -> Result<(), Fail> {
    check(&rt, rt.alloc(), &ITEMS)
}

#[test]
fn each_stage_with_a_fault(rt: HostRuntime) -> Result<(), Fail> {
    check(&rt, rt.alloc(), &FAULTS)
}

#[test]
fn cats_and_a_cat_in_a_cat(rt: HostRuntime) -> Result<(), Fail> {
    check(&rt, rt.alloc(), &CATS)
}

#[test]
fn the_end_of_a_later_stage_comes_first(rt: HostRuntime) -> Result<(), Fail> {
    check(&rt, rt.alloc(), &ENDS)
}

/// The lines that `explain` says of these stages of a loop.
fn told_by(alloc: Global, program: &Program, made: &[Made]) -> Result<Vec<u8>, Fail> {
    let chain = chain_of(alloc, program, made)?;
    Ok(chain.text(alloc)?)
}

fn told(alloc: Global, text: &str, made: &[Made]) -> Result<Vec<u8>, Fail> {
    let program = read(alloc, text)?;
    told_by(alloc, &program, made)
}

#[test]
fn stages_are_told_by_their_lines(rt: HostRuntime) -> Result<(), Fail> {
    let text = told(rt.alloc(), ROWS, &OF_ROWS)?;
    let wanted =
        b"stage 1: MapSplat, line 1\nstage 2: Map, line 2\nstage 3: Map, line 3\nstage 4: ReduceIf, line 3\n";
    assert!(&rt; text.as_slice() == wanted.as_slice());
    Ok(())
}
