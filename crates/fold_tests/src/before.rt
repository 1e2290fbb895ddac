//! The loop of the worked rows as a job: a sum that breaks before one item.

ghost use Rattle.std.specs.Prelude.{◌≡◌, ◌≤◌, ◌<◌, ◌+◌, ◌^◌};
ghost use Rattle.fold_examples.specs.Sums.{IsWrappedSum};
ghost use Rattle.fold_tests.specs.Before.{SumBeforeStands};

use fold_examples::sum_of_places;
use fold_seq::{Job, Reduced};
use no_memory::NoMemory;
use splittable::{Part, Shape};
use std::alloc::Global;

/// The sum of a shape's places, wrapped in 64 bits, up to the item at place `at`, which stops the loop and isn't summed.
#[derive(Clone, Copy, Debug)]
pub struct SumBefore {
    pub shape: Shape,
    pub at: u64,
    pub line: u32,
}

impl SumBefore {
    /// The answer of `len` items from the place `first` on.
    pub fn run(&self, first: u64, len: u64) -> Reduced<u64>
        requires from_one { 1 ≤ first }
        requires fits { first + len < 2 ^ 64 }
        ensures { SumBeforeStands self.now.at self.now.line first len result }
    {
        let end = first + len;
        if self.at < first || end <= self.at {
            return Reduced::Going(sum_of_places(first, end));
        }
        Reduced::Stopped {
            at: self.at,
            line: self.line,
            state: sum_of_places(first, self.at),
        }
    }
}

impl Job for SumBefore {
    type State = u64;

    ghost lens = { λ job. job.shape };

    ghost stands = { λ job. SumBeforeStands job.at job.line };

    ghost is_unit = { λ _ state. state ≡ 0 };

    ghost merges = { λ _. IsWrappedSum };

    fn shape(&self) -> Shape {
        self.shape
    }

    fn run_part(&self, _alloc: Global, part: &Part) -> Result<Reduced<u64>, NoMemory> {
        Ok(self.run(part.first(), part.len()))
    }

    fn unit(&self, _alloc: Global) -> Result<u64, NoMemory> {
        Ok(0)
    }

    fn merge(&self, _alloc: Global, left: u64, right: u64) -> Result<u64, NoMemory> {
        Ok(left.wrapping_add(right))
    }

    ghost use Rattle.fold_tests.specs.Before.{before_unit, before_merge, before_stop, before_lies, before_ends};

    ghost unit_stands = { λ job. before_unit job.at job.line };

    ghost merge_stands = { λ job. before_merge job.at job.line };

    ghost stop_stands = { λ job. before_stop job.at job.line };

    ghost stop_lies = { λ job. before_lies job.at job.line };

    ghost ends_alike = { λ job. before_ends job.at job.line };
}
