//! The count and the items of a range.

ghost use Rattle.std.specs.Prelude.{◌≡◌, ◌≢◌, ◌≤◌, pos, FitsSigned};
ghost use Rattle.std.specs.Int.{w64};
ghost use Rattle.number_ranges.specs.Ranges.{lies_behind, range_count, range_item, most_range_items};

/// The most items of a loop, and so of a range that is halved, of a column and of a shape: 2^32. Contracts call it `most_items`.
pub const MOST_ITEMS: u128 = 4_294_967_296;

/// How many items the range `first:step:last` has, from 0 to 2^64. The step isn't 0.
///
/// Source: Julia's `a:b` and `a:s:b`, which hold their end where it is reached.
pub fn range_count(first: i64, step: i64, last: i64) -> u128
    requires { step ≢ pos 0 }
    ensures value { result ≡ range_count first step last }
    ensures most { result ≤ most_range_items }
{
    if lies_behind(first, step, last) {
        return 0;
    }
    u128::from(last.abs_diff(first)) / u128::from(step.unsigned_abs()) + 1
}

/// Whether the last lies on the wrong side of the first.
fn lies_behind(first: i64, step: i64, last: i64) -> bool
    ensures { result ≡ lies_behind first step last }
{
    if step < 0 { first < last } else { last < first }
}

/// The number that lies so many steps after the first, which fits 64 bits. So does each item of a range: see
/// [`crate::laws::items_lie_between`].
pub fn range_item(first: i64, step: i64, steps: u64) -> i64
    requires { FitsSigned w64 (range_item first step steps) }
    ensures { result ≡ range_item first step steps }
{
    (i128::from(first) + i128::from(steps) * i128::from(step)) as i64
}
