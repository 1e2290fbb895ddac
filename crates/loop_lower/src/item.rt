//! One item through the chain.

ghost use Rattle.std.specs.Prelude.{◌≡◌, ◌<◌, ◌^◌, true, false, IfOk, OnOk, pos};
ghost use Rattle.std.specs.FinMap.{insert};
ghost use Rattle.loop_data.specs.declared.value.Value.TheVariants.{Int};
ghost use Rattle.loop_grammar.specs.SkippedFaults.{skips_faults};
ghost use Rattle.loop_values.specs.Bindings.{place_name};
ghost use Rattle.chain_stages.specs.Elements.{with_item};
ghost use Rattle.loop_lower.specs.Walked.{IsItemTaken, MayBeTaken, is_fault, item_run, names_at};

use crate::LoopJob;
use crate::part::Walked;
use chain_stages::StepEnd;
use loop_data::{TextValue, Value};
use loop_values::Env;
use no_memory::NoMemory;
use program_rows::{add_pairs, drop_pairs};
use reducer_laws::Reducer;
use reducer_tower::RowState;
use std::alloc::Global;

/// The name under which the place of the item stands.
const PLACE: &str = "place";

/// The name under which an item stands that a pattern of several names takes apart.
const ITEM: &str = "@item";

/// Whether an item ended in a fault.
fn is_fault(end: StepEnd) -> bool
    ensures { result ≡ is_fault end }
{
    matches!(end, StepEnd::Fault { .. })
}

/// Binds the item under the pattern's name, or under `@item` where the pattern has several names.
fn bind_item(
    alloc: Global,
    names: &mut Env,
    pattern: &[TextValue],
    item: Value,
) -> Result<(), NoMemory>
    ensures { OnOk result (names.new ≡ with_item names.old pattern.now item) }
{
    match pattern {
        [name] => names.bind(alloc, name.as_str(), item),
        _ => names.bind(alloc, ITEM, item),
    }
}

/// The names of an item's element: the store in which the loop begins, the place, and the item.
fn names_of(
    alloc: Global,
    start: &Env,
    pattern: &[TextValue],
    item: Value,
    place: u64,
) -> Result<Env, NoMemory>
    requires { place < 2 ^ 63 }
    ensures { IfOk result (λ names. names ≡
        with_item (insert start.now place_name (Int (pos place))) pattern.now item) }
{
    let mut names = start.copy(alloc)?;
    names.bind(alloc, PLACE, Value::Int(place as i64))?;
    bind_item(alloc, &mut names, pattern, item)?;
    Ok(names)
}

impl<'a> LoopJob<'a> {
    /// The names with which the chain begins for an item.
    fn names_at(&self, alloc: Global, item: Value, place: u64) -> Result<Env, NoMemory>
        requires { place < 2 ^ 63 }
        ensures { IfOk result (λ names. names ≡ names_at self.now.program.now item place) }
    {
        let pattern = self.program.program().head().names.as_slice();
        names_of(alloc, &self.start, pattern, item, place)
    }

    /// An item of a program whose faults stop the loop: what leaves the chain goes into the states.
    fn take_straight(
        &self,
        alloc: Global,
        item: Value,
        place: u64,
        walked: &mut Walked,
    ) -> Result<StepEnd, NoMemory>
        requires stops { skips_faults self.now.program.now ≡ false }
        requires may { MayBeTaken self.now.program.now self.now.row.towers.items item place
            walked.old }
        ensures { IfOk result (IsItemTaken self.now.program.now self.now.row.towers.items
            (item_run self.now.program.now item place) place walked.old walked.new) }
    {
        let names = self.names_at(alloc, item, place)?;
        let end = self
            .chain
            .step(alloc, &self.row, names, &mut walked.state.row)?;
        Ok(end)
    }

    /// An item without inner heads of a program that skips faults: its few pairs are gathered, in a list that all items share,
    /// and folded in, or dropped where it faults.
    fn take_gathered(
        &self,
        alloc: Global,
        item: Value,
        place: u64,
        walked: &mut Walked,
    ) -> Result<StepEnd, NoMemory>
        requires skips { skips_faults self.now.program.now ≡ true }
        requires may { MayBeTaken self.now.program.now self.now.row.towers.items item place
            walked.old }
        ensures { IfOk result (IsItemTaken self.now.program.now self.now.row.towers.items
            (item_run self.now.program.now item place) place walked.old walked.new) }
    {
        let names = self.names_at(alloc, item, place)?;
        let end = self.chain.emit(alloc, names, &mut walked.emitted)?;
        if is_fault(end) {
            drop_pairs(alloc, &mut walked.emitted);
            walked.state.skipped += 1;
            return Ok(StepEnd::Going);
        }
        add_pairs(alloc, &self.row, &mut walked.state.row, &mut walked.emitted)?;
        Ok(end)
    }

    /// An item with inner heads of a program that skips faults: it is folded from a unit of its own, which is merged in, or dropped
    /// where it faults.
    fn take_apart(
        &self,
        alloc: Global,
        item: Value,
        place: u64,
        walked: &mut Walked,
    ) -> Result<StepEnd, NoMemory>
        requires skips { skips_faults self.now.program.now ≡ true }
        requires may { MayBeTaken self.now.program.now self.now.row.towers.items item place
            walked.old }
        ensures { IfOk result (IsItemTaken self.now.program.now self.now.row.towers.items
            (item_run self.now.program.now item place) place walked.old walked.new) }
    {
        let names = self.names_at(alloc, item, place)?;
        let mut own = self.row.unit(alloc)?;
        let end = self.chain.step(alloc, &self.row, names, &mut own)?;
        if is_fault(end) {
            walked.state.skipped += 1;
            return Ok(StepEnd::Going);
        }
        let none = RowState {
            states: Vec::new(alloc),
        };
        let before = std::mem::replace(&mut walked.state.row, none);
        walked.state.row = self.row.merge(alloc, before, own)?;
        Ok(end)
    }

    /// One item more, at this place: what counts of what leaves the chain goes into the states. An item whose fault is skipped
    /// ends as one after which the next follows.
    pub(crate) fn take_item(
        &self,
        alloc: Global,
        item: Value,
        place: u64,
        walked: &mut Walked,
    ) -> Result<StepEnd, NoMemory>
        requires { MayBeTaken self.now.program.now self.now.row.towers.items item place walked.old }
        ensures { IfOk result (IsItemTaken self.now.program.now self.now.row.towers.items
            (item_run self.now.program.now item place) place walked.old walked.new) }
    {
        let program = self.program.program();
        if !program.skips_faults() {
            self.take_straight(alloc, item, place, walked)
        } else if program.head().inner.is_empty() {
            self.take_gathered(alloc, item, place, walked)
        } else {
            self.take_apart(alloc, item, place, walked)
        }
    }
}
