//! The inner heads: for each of their items, the last head fastest, one body run.

ghost use Rattle.std.specs.Prelude.{◌≡◌, ◌≤◌, ◌*◌, OnOk};
ghost use Rattle.loop_values.specs.InnerItems.{ItemsFit, inner_limit, items_of};
ghost use Rattle.loop_meaning.specs.Steps.{for_each, for_item, inner_runs};

use crate::BodyRun;
use crate::steps::{body_run, go_back};
use loop_data::{Inner, Value};
use loop_grammar::ProgramTree;
use loop_values::{Env, InnerRange, eval_range};
use no_memory::NoMemory;
use std::alloc::Global;

/// The body runs of the further heads for one item of a head. Of the names that they bind or assign the stored ones keep
/// their values. The names of the body run stand in `outer` too, before and after.
#[cycle(heads)]
fn for_item(
    alloc: Global,
    program: &ProgramTree,
    head: &Inner,
    heads: &[Inner],
    width: u64,
    item: i64,
    outer: &mut Env,
    run: &mut BodyRun,
) -> Result<(), NoMemory>
    requires least { 1 ≤ width }
    requires most { width ≤ inner_limit }
    requires outer { outer.old ≡ run.old.names }
    ensures run { OnOk result (run.new ≡ for_item program.now head.now.name
        (inner_runs program.now heads.now width) item run.old) }
    ensures outer { OnOk result (outer.new ≡ run.new.names) }
{
    run.name(alloc, head.name.as_str(), Value::Int(item))?;
    inner_runs(alloc, program, heads, width, run)?;
    go_back(alloc, program, outer, run)
}

/// The body runs of the further heads for each item of a head, in order, where there are `width` in all.
#[cycle(heads)]
fn for_each(
    alloc: Global,
    program: &ProgramTree,
    head: &Inner,
    heads: &[Inner],
    width: u64,
    range: InnerRange,
    run: &mut BodyRun,
) -> Result<(), NoMemory>
    requires least { 1 ≤ width }
    requires most { width * range.count ≤ inner_limit }
    requires items { ItemsFit range }
    ensures { OnOk result (run.new ≡ for_each program.now head.now.name (items_of range)
        (inner_runs program.now heads.now (width * range.count)) run.old) }
{
    let mut outer = run.names.copy(alloc)?;
    for before in 0..range.count {
        if run.flow.is_going() {
            let item = range.item(before + 1);
            let width = width * range.count;
            for_item(alloc, program, head, heads, width, item, &mut outer, run)?;
        }
    }
    Ok(())
}

/// The body runs of these inner heads, where there are `width` for each already.
#[cycle(heads)]
pub(crate) fn inner_runs(
    alloc: Global,
    program: &ProgramTree,
    heads: &[Inner],
    width: u64,
    run: &mut BodyRun,
) -> Result<(), NoMemory>
    requires least { 1 ≤ width }
    requires most { width ≤ inner_limit }
    ensures { OnOk result (run.new ≡ inner_runs program.now heads.now width run.old) }
{
    let Some((head, heads)) = heads.split_first() else {
        return body_run(alloc, program, run);
    };
    match eval_range(alloc, &head.range, &run.names, width) {
        Err(stop) => run.fault(program.head.line, stop),
        Ok(range) => for_each(alloc, program, head, heads, width, range, run),
    }
}
