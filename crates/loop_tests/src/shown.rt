//! What a step or a body run left, as a text.

use loop_data::Value;
use loop_meaning::{BodyEnd, BodyRun, Flow, Pair};
use loop_values::Env;
use std::alloc::{AllocError, Global};

/// The names whose values are shown, where they have one.
static NAMES: [&str; 8] = ["a", "b", "c", "k", "p", "x", "y", "place"];

/// The inputs of these pairs, each behind its name: ` s=21 p=7`.
fn push_pairs(out: &mut String, emitted: &[Pair]) -> Result<(), AllocError> {
    for pair in emitted {
        let name = pair.name.as_str();
        write!(out, " {name}={}", &pair.input)?;
    }
    Ok(())
}

fn push_value(out: &mut String, name: &str, value: &Value) -> Result<(), AllocError> {
    write!(out, " {name} {value}")
}

/// The values of names: ` b 21 k 10`.
fn push_names(out: &mut String, names: &Env) -> Result<(), AllocError> {
    for name in &NAMES {
        if let Some(value) = names.get(*name) {
            push_value(out, *name, value)?;
        }
    }
    Ok(())
}

fn push_end(out: &mut String, end: BodyEnd) -> Result<(), AllocError> {
    match end {
        BodyEnd::Next => out.push_str("next"),
        BodyEnd::Break { line } => write!(out, "break {line}"),
        BodyEnd::Fault { line, kind } => write!(out, "fault {line} {kind}"),
    }
}

fn push_flow(out: &mut String, flow: Flow) -> Result<(), AllocError> {
    match flow {
        Flow::Going => out.push_str("going"),
        Flow::Continued => out.push_str("continued"),
        Flow::Broke { line } => write!(out, "broke {line}"),
        Flow::Faulted { line, kind } => write!(out, "faulted {line} {kind}"),
    }
}

/// The values of names: `: b 21 k 10`.
pub fn names(alloc: Global, names: &Env) -> Result<String, AllocError> {
    let mut out = String::from_str(alloc, ":")?;
    push_names(&mut out, names)?;
    Ok(out)
}

/// How a step ended, the pairs, and the store that it left: `next; s=21 p=7; b 21 k 10`.
pub fn step(
    alloc: Global,
    end: BodyEnd,
    emitted: &[Pair],
    store: &Env,
) -> Result<String, AllocError> {
    let mut out = String::new(alloc);
    push_end(&mut out, end)?;
    out.push_str(";")?;
    push_pairs(&mut out, emitted)?;
    out.push_str(";")?;
    push_names(&mut out, store)?;
    Ok(out)
}

/// How a body run stands, its pairs, and its names.
pub fn body_run(alloc: Global, run: &BodyRun) -> Result<String, AllocError> {
    let mut out = String::new(alloc);
    push_flow(&mut out, run.flow)?;
    out.push_str(";")?;
    push_pairs(&mut out, run.emitted.as_slice())?;
    out.push_str(";")?;
    push_names(&mut out, &run.names)?;
    Ok(out)
}
