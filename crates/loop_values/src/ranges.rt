ghost use Rattle.std.specs.Prelude.{◌≡◌, ◌≢◌, ◌≤◌, ◌-◌, Err, Some, IfOk, slice_get};
ghost use Rattle.std.specs.FinMap.{get};
ghost use Rattle.number_ranges.specs.Ranges.{most_range_items, range_item};
ghost use Rattle.loop_values.specs.InnerItems.{HasItems, ItemsFit, inner_items, inner_limit, items_of, limited, ranged, range_of};

use crate::{Env, EvalStop, eval};
use loop_data::RangeExpr;
use number_ranges::{range_count, range_item};
use std::alloc::Global;

/// The most body runs of one item of the first head.
const INNER_LIMIT: u128 = 1000000;

/// The items of an inner range: item `k`, counted from 1, is `first` plus `k - 1` times `step`.
#[derive(Clone, Copy, Debug, PartialEq, Eq)]
pub struct InnerRange {
    pub first: i64,
    pub step: i64,
    /// How many items there are.
    pub count: u64,
}

impl InnerRange {
    /// Item `k`, counted from 1 up to the count, of a range whose items are numbers of 64 bits, as those of [`eval_range`]
    /// are. It takes no memory.
    pub fn item(&self, k: u64) -> i64
        requires least { 1 ≤ k }
        requires most { k ≤ self.now.count }
        requires fit { ItemsFit self.now }
        ensures value { result ≡ range_item self.now.first self.now.step (k - 1) }
        ensures listed { slice_get (items_of self.now) (k - 1) ≡ Some result }
    {
        range_item(self.first, self.step, k - 1)
    }
}

/// The items of a range, whose bounds are numbers, for an item that has `width` body runs already (1 to 1,000,000).
///
/// The bounds are evaluated from left to right, and their first fault is the answer. Then `StepZero` comes exactly where the
/// step is 0, and then `TooManyInner` exactly where `width` times the number of items is over 1,000,000. Each item is a number
/// of 64 bits.
pub fn eval_range(
    alloc: Global,
    range: &RangeExpr,
    env: &Env,
    width: u64,
) -> Result<InnerRange, EvalStop>
    requires least { 1 ≤ width }
    requires most { width ≤ inner_limit }
    ensures is { result ≢ Err EvalStop.NoMemory → result ≡ range_of range.now (get env.now) width }
    ensures items { HasItems result (inner_items range.now (get env.now) width) }
    ensures fit { IfOk result ItemsFit }
{
    let first = eval(alloc, &range.first, env)?.as_int();
    match &range.step {
        None => {
            let last = eval(alloc, &range.last, env)?.as_int();
            ranged(width, first, 1, last)
        }
        Some(step) => {
            let step = eval(alloc, step, env)?.as_int();
            let last = eval(alloc, &range.last, env)?.as_int();
            ranged(width, first, step, last)
        }
    }
}

fn ranged(width: u64, first: i64, step: i64, last: i64) -> Result<InnerRange, EvalStop>
    requires least { 1 ≤ width }
    requires most { width ≤ inner_limit }
    ensures value { result ≡ ranged width first step last }
    ensures fit { IfOk result ItemsFit }
{
    if step == 0 {
        return Err(EvalStop::StepZero);
    }
    limited(width, first, step, range_count(first, step, last))
}

fn limited(width: u64, first: i64, step: i64, count: u128) -> Result<InnerRange, EvalStop>
    requires least { 1 ≤ width }
    requires most { width ≤ inner_limit }
    requires bound { count ≤ most_range_items }
    ensures { result ≡ limited width count (record { first = first; step = step; count = count }) }
{
    if width as u128 * count > INNER_LIMIT {
        return Err(EvalStop::TooManyInner);
    }
    Ok(InnerRange {
        first,
        step,
        count: count as u64,
    })
}
