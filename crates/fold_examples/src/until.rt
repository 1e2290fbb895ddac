//! A sum that one item stops or faults.

ghost use Rattle.std.specs.Prelude.{◌≡◌, ◌≤◌, ◌<◌, ◌+◌, ◌^◌, ℕ, IfOk};
ghost use Rattle.splittable.specs.Nodes.{IsNode};
ghost use Rattle.fold_examples.specs.Sums.{IsWrappedSum, SumUntilStands};

use crate::sums::sum_of_places;
use fold_seq::{Job, Reduced};
use no_memory::NoMemory;
use splittable::{Part, Shape};
use std::alloc::Global;

/// The sum of a shape's places, wrapped in 64 bits, up to the item at place `at`, which stops the loop and is summed too; or,
/// where there is a `fault`, faults the loop with that kind.
#[derive(Clone, Copy, Debug)]
pub struct SumUntil {
    pub shape: Shape,
    pub at: u64,
    pub line: u32,
    pub fault: Option<u8>,
}

impl SumUntil {
    /// The answer of `len` items from the place `first` on.
    pub fn run(&self, first: u64, len: u64) -> Reduced<u64>
        requires from_one { 1 ≤ first }
        requires fits { first + len < 2 ^ 64 }
        ensures { SumUntilStands self.now.at self.now.line self.now.fault first len result }
    {
        let end = first + len;
        if self.at < first || end <= self.at {
            return Reduced::Going(sum_of_places(first, end));
        }
        match self.fault {
            None => Reduced::Stopped {
                at: self.at,
                line: self.line,
                state: sum_of_places(first, self.at + 1),
            },
            Some(kind) => Reduced::Faulted {
                at: self.at,
                line: self.line,
                kind,
            },
        }
    }
}

impl Job for SumUntil {
    type State = u64;

    ghost lens = { λ job. job.shape };

    ghost stands = { λ job. SumUntilStands job.at job.line job.fault };

    ghost is_unit = { λ _ state. state ≡ 0 };

    ghost merges = { λ _. IsWrappedSum };

    fn shape(&self) -> Shape {
        self.shape
    }

    fn run_part(&self, _alloc: Global, part: &Part) -> Result<Reduced<u64>, NoMemory> {
        Ok(self.run(part.first(), part.len()))
    }

    fn unit(&self, _alloc: Global) -> Result<u64, NoMemory> {
        Ok(0)
    }

    fn merge(&self, _alloc: Global, left: u64, right: u64) -> Result<u64, NoMemory> {
        Ok(left.wrapping_add(right))
    }

    ghost use Rattle.fold_examples.specs.UntilLaws.{until_unit, until_merge, until_stop, until_lies, until_ends};

    ghost unit_stands = { λ job. until_unit job.at job.line job.fault };

    ghost merge_stands = { λ job. until_merge job.at job.line job.fault };

    ghost stop_stands = { λ job. until_stop job.at job.line job.fault };

    ghost stop_lies = { λ job. until_lies job.at job.line job.fault };

    ghost ends_alike = { λ job. until_ends job.at job.line job.fault };
}
