//! Ranges of 64-bit numbers.

ghost use Rattle.std.specs.Prelude.{◌≡◌, ◌-◌, ◌/◌, ◌<◌, ◌≤◌, ◌↔◌, List, ◌++◌, length, IsNone, IfSome, Some, slice_get};
ghost use Rattle.number_ranges.specs.Ranges.{most_items};
ghost use Rattle.splittable.specs.Ranges.{checked_range};

use super::halving::Splittable;
use number_ranges::{MOST_ITEMS, range_count, range_item};
use std::marker::Model;

/// Why a range is refused.
#[derive(Clone, Copy, Debug, PartialEq, Eq)]
pub enum RangeRefusal {
    /// The step is 0.
    StepZero,
    /// The range has this many items, which is over 4,294,967,296.
    TooLong { count: u128 },
}

/// A range of numbers: the first, and one for each step that doesn't pass the last. At most 4,294,967,296 items.
///
/// Source: Julia's `a:b` and `a:s:b`, which hold their end where it is reached.
#[derive(Debug, Drop)]
pub struct Range {
    first: i64,
    step: i64,
    count: u64,
}

impl Model for Range {
    ghost use Rattle.std.specs.Prelude.{◌≤◌, ℤ, List};
    ghost use Rattle.number_ranges.specs.Ranges.{items_from, most_items};
    ghost use Rattle.splittable.specs.Fields.{ItemsFit};

    ghost Value = { List ℤ };

    ghost view = { λ r. items_from r.first r.step r.count };

    ghost invariant = { λ r. (r.count ≤ most_items) × ItemsFit r.first r.step r.count };
}

impl Range {
    /// The range `first:step:last`, which is empty where `last` lies on the wrong side of `first`.
    ///
    /// `StepZero` comes exactly where the step is 0, and otherwise `TooLong` exactly where the range has over
    /// 4,294,967,296 items.
    pub fn new(first: i64, step: i64, last: i64) -> Result<Range, RangeRefusal>
        ensures { result ≡ checked_range first step last }
    {
        if step == 0 {
            return Err(RangeRefusal::StepZero);
        }
        let count = range_count(first, step, last);
        if count > MOST_ITEMS {
            return Err(RangeRefusal::TooLong { count });
        }
        Ok(Range {
            first,
            step,
            count: count as u64,
        })
    }

    /// The item at place `k`, counted from 1.
    pub fn at(&self, k: u64) -> i64
        requires low { 1 ≤ k }
        requires high { k ≤ length self.now }
        ensures { slice_get self.now (k - 1) ≡ Some result }
    {
        range_item(self.first, self.step, k - 1)
    }
}

impl Splittable for Range {
    type Item = i64;

    ghost items = { λ r. r };

    fn amount(&self) -> u64
        ensures items { result ≡ length self.now }
        ensures few { result ≤ most_items }
    {
        self.count
    }

    /// The halves, cut after half of the items, rounded down.
    fn halve(&self) -> Option<(Range, Range)>
        ensures none { IsNone result ↔ (length self.now ≤ 1) }
        ensures left { IfSome result (λ halves. 0 < length halves.0) }
        ensures right { IfSome result (λ halves. 0 < length halves.1) }
        ensures whole { IfSome result (λ halves. halves.0 ++ halves.1 ≡ self.now) }
        ensures cut { IfSome result (λ halves. length halves.0 ≡ length self.now / 2) }
    {
        if self.count <= 1 {
            return None;
        }
        let left = self.count / 2;
        Some((
            Range {
                first: self.first,
                step: self.step,
                count: left,
            },
            Range {
                first: range_item(self.first, self.step, left),
                step: self.step,
                count: self.count - left,
            },
        ))
    }
}
