//! One step of the body: what the loop does for one item of its first head.

ghost use Rattle.std.specs.Prelude.{◌≡◌, ◌<◌, ◌^◌, ◌++◌, IfOk, OnOk};
ghost use Rattle.loop_meaning.specs.Stores.{keeping, stored_names};
ghost use Rattle.loop_meaning.specs.Steps.{next_run, body_run, kept_names, names_for, end_of, body_step};

use crate::heads::inner_runs;
use crate::statements::{bind_pattern, run_block};
use crate::stores::keep_stored;
use loop_data::{Many, TextValue, Value};
use loop_grammar::ProgramTree;
use loop_syntax::Program;
use loop_values::Env;
use no_memory::NoMemory;
use std::alloc::Global;

/// The name under which the place of the item stands.
const PLACE: &str = "place";

/// An input that an `@reduce` line emits for the reducer of that name.
#[derive(Debug, PartialEq, Eq, Drop)]
pub struct Pair {
    pub name: TextValue,
    pub input: Value,
}

/// How a body run stands. Lines count from 1; the kind of a fault is from 1 to 5.
#[derive(Clone, Copy, Debug, PartialEq, Eq)]
pub enum Flow {
    /// Its next statement runs.
    Going,
    /// `continue`, or an `@keep` of nothing, ended it: the next body run begins.
    Continued,
    /// The `break` on this line ended the loop.
    Broke { line: u32 },
    /// A fault on this line ended the item's step.
    Faulted { line: u32, kind: u8 },
}

/// A body run at one point: the values of all names, what was emitted so far, and how the body run stands.
#[derive(Debug, Drop)]
pub struct BodyRun {
    pub names: Env,
    pub emitted: Many<Pair>,
    pub flow: Flow,
}

/// How one step of the body ended.
#[derive(Clone, Copy, Debug, PartialEq, Eq)]
pub enum BodyEnd {
    /// The next item's step follows.
    Next,
    /// The `break` on this line ended the loop.
    Break { line: u32 },
    /// A fault on this line, of a kind from 1 to 5.
    Fault { line: u32, kind: u8 },
}

/// `continue` ends its body run alone.
fn next_run(flow: Flow) -> Flow
    ensures { result ≡ next_run flow }
{
    match flow {
        Flow::Continued => Flow::Going,
        _ => flow,
    }
}

/// One body run.
pub(crate) fn body_run(
    alloc: Global,
    program: &ProgramTree,
    run: &mut BodyRun,
) -> Result<(), NoMemory>
    ensures { OnOk result (run.new ≡ body_run program.now run.old) }
{
    run_block(alloc, program.body.as_slice(), run)?;
    run.flow = next_run(run.flow);
    Ok(())
}

/// Goes back to the names before, but for the outer variables and scratches, which keep their new values, before as well. What
/// wasn't changed since is copied nowhere.
pub(crate) fn go_back(
    alloc: Global,
    program: &ProgramTree,
    before: &mut Env,
    run: &mut BodyRun,
) -> Result<(), NoMemory>
    ensures run { OnOk result (run.new ≡ kept_names program.now before.old run.old) }
    ensures before { OnOk result (before.new ≡ run.new.names) }
{
    keep_stored(alloc, program, before, &run.names)?;
    run.names.copy_from(alloc, before)
}

/// The names at the start of a step: the store's, the place, and the item under the head's pattern.
fn names_for(
    alloc: Global,
    program: &ProgramTree,
    store: &Env,
    item: Value,
    place: u64,
) -> Result<Env, NoMemory>
    requires { place < 2 ^ 63 }
    ensures { IfOk result (λ names. names ≡ names_for program.now store.now item place) }
{
    let mut names = store.copy(alloc)?;
    names.bind(alloc, PLACE, Value::Int(place as i64))?;
    bind_pattern(alloc, &mut names, program.head.names.as_slice(), item)?;
    Ok(names)
}

/// How a step ended whose last body run stands so.
fn end_of(flow: Flow) -> BodyEnd
    ensures { result ≡ end_of flow }
{
    match flow {
        Flow::Going => BodyEnd::Next,
        Flow::Continued => BodyEnd::Next,
        Flow::Broke { line } => BodyEnd::Break { line },
        Flow::Faulted { line, kind } => BodyEnd::Fault { line, kind },
    }
}

/// One step of the body for an item at a place, counted from 1: the store becomes the new one, and what the step emits is put
/// behind `emitted`, in order. What the statements before a break or a fault assigned and emitted is in both.
///
/// Refused only for want of memory: then the store and the list can only be dropped.
pub fn step_plain(
    alloc: Global,
    program: &Program,
    store: &mut Env,
    item: Value,
    place: u64,
    emitted: &mut Many<Pair>,
) -> Result<BodyEnd, NoMemory>
    requires place { place < 2 ^ 63 }
    ensures end { IfOk result (λ end. end ≡ (body_step program.now store.old item place).end) }
    ensures store { OnOk result (store.new ≡ (body_step program.now store.old item place).store) }
    ensures emitted { OnOk result (emitted.new
        ≡ emitted.old ++ (body_step program.now store.old item place).emitted) }
{
    let tree = program.tree();
    let names = names_for(alloc, tree, store, item, place)?;
    let mut run = BodyRun {
        names,
        emitted: std::mem::replace(emitted, Many::new(alloc)),
        flow: Flow::Going,
    };
    inner_runs(alloc, tree, tree.head.inner.as_slice(), 1, &mut run)?;
    keep_stored(alloc, tree, store, &run.names)?;
    *emitted = run.emitted;
    Ok(end_of(run.flow))
}
