//! The run of the plain loop over a list of items.

ghost use Rattle.std.specs.Prelude.{◌≡◌, ◌≢◌, ◌+◌, ◌<◌, ◌≤◌, ◌^◌, ◌∷◌, [], take, IfOk, IsTrue, IsFalse};
ghost use Rattle.loop_grammar.specs.SkippedFaults.{skips_faults};
ghost use Rattle.loop_meaning.specs.Runs.{followed_by, is_fault, is_skipped, loop_run, no_run, stop_at};

use crate::{BodyEnd, Pair, step_plain};
use loop_data::{Many, TextValue, Value};
use loop_syntax::Program;
use loop_values::Env;
use no_memory::NoMemory;
use std::alloc::Global;

/// How a run ended. Places and lines count from 1; the kind of a fault is from 1 to 5.
#[derive(Clone, Copy, Debug, PartialEq, Eq)]
pub enum PlainStop {
    /// It ran to the end of its items.
    Ran,
    /// The item at this place came to the `break` on this line.
    Break { at: u64, line: u32 },
    /// The item at this place faulted on this line.
    Fault { at: u64, line: u32, kind: u8 },
}

/// What a run leaves: the store, what counts of what it emitted in order, how many faults it skipped, and how it ended.
#[derive(Debug, Drop)]
pub struct Run {
    pub store: Env,
    pub emitted: Many<Pair>,
    pub skipped: u64,
    pub stop: PlainStop,
}

/// The inputs of a reducer, in order.
#[derive(Debug, PartialEq, Eq, Drop)]
pub struct Named {
    pub name: TextValue,
    pub list: Many<Value>,
}

/// The end of a run with the inputs of each reducer, in the order of their first `@reduce` lines, and how many faults the run
/// skipped.
#[derive(Debug, PartialEq, Eq, Drop)]
pub struct PlainEnd {
    pub stop: PlainStop,
    pub inputs: Many<Named>,
    pub skipped: u64,
}

/// Whether a run that ended so stopped before the end of its items.
fn has_stopped(stop: PlainStop) -> bool
    ensures stopped { IsTrue result → stop ≢ PlainStop.Ran }
    ensures ran { IsFalse result → stop ≡ PlainStop.Ran }
{
    match stop {
        PlainStop::Ran => false,
        _ => true,
    }
}

/// The first of these, so many of them.
fn first_of(emitted: Many<Pair>, count: usize) -> Many<Pair>
    ensures { result ≡ take count emitted }
{
    let mut emitted = emitted.into_vec();
    emitted.truncate(count);
    Many::from_vec(emitted)
}

/// A run from this store before its first item.
fn no_run(alloc: Global, store: Env) -> Run
    ensures { result ≡ no_run store }
{
    Run {
        store,
        emitted: Many::new(alloc),
        skipped: 0,
        stop: PlainStop::Ran,
    }
}

/// How a run stands behind a step that ended so at this place, which isn't skipped.
fn stop_at(end: BodyEnd, place: u64) -> PlainStop
    ensures { result ≡ stop_at end place }
{
    match end {
        BodyEnd::Next => PlainStop::Ran,
        BodyEnd::Break { line } => PlainStop::Break { at: place, line },
        BodyEnd::Fault { line, kind } => PlainStop::Fault {
            at: place,
            line,
            kind,
        },
    }
}

/// Whether a step ended in a fault.
fn is_fault(end: BodyEnd) -> bool
    ensures { result ≡ is_fault end }
{
    matches!(end, BodyEnd::Fault { .. })
}

/// Whether a step that ended so is skipped: it ended in a fault, and the program skips faults.
pub fn is_skipped(program: &Program, end: BodyEnd) -> bool
    ensures { result ≡ is_skipped (skips_faults program.now) end }
{
    program.skips_faults() && is_fault(end)
}

/// A run that ran to its end, and the item that follows it, at a place counted from 1.
fn with_item(
    alloc: Global,
    program: &Program,
    run: Run,
    item: &Value,
    place: u64,
) -> Result<Run, NoMemory>
    requires ran { run.stop ≡ PlainStop.Ran }
    requires place { place < 2 ^ 63 }
    requires skipped { run.skipped < 2 ^ 63 }
    ensures run { IfOk result (λ after. after
        ≡ followed_by run (loop_run program.now run.store (item.now ∷ []) place)) }
    ensures skipped { IfOk result (λ after. after.skipped ≤ run.skipped + 1) }
{
    let mut store = run.store;
    let mut emitted = run.emitted;
    let before = emitted.len();
    let end = step_plain(
        alloc,
        program,
        &mut store,
        item.copy(alloc)?,
        place,
        &mut emitted,
    )?;
    if is_skipped(program, end) {
        return Ok(Run {
            store,
            emitted: first_of(emitted, before),
            skipped: run.skipped + 1,
            stop: PlainStop::Ran,
        });
    }
    Ok(Run {
        store,
        emitted,
        skipped: run.skipped,
        stop: stop_at(end, place),
    })
}

/// The run of the plain loop from a store over items, from place 1, up to the item that stops it.
pub(crate) fn loop_run(
    alloc: Global,
    program: &Program,
    store: Env,
    items: &[Value],
) -> Result<Run, NoMemory>
    ensures { IfOk result (λ run. run ≡ loop_run program.now store items.now 1) }
{
    let mut run = no_run(alloc, store);
    for i in 0..items.len() {
        run = with_item(alloc, program, run, &items[i], i as u64 + 1)?;
        if has_stopped(run.stop) {
            return Ok(run);
        }
    }
    Ok(run)
}
