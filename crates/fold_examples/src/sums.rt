//! A sum that no item stops.

ghost use Rattle.std.specs.Prelude.{◌≡◌, ◌≤◌, ◌-◌, ◌+◌, ℕ, IfOk};
ghost use Rattle.splittable.specs.Nodes.{IsNode};
ghost use Rattle.fold_examples.specs.Sums.{sum_of_places, IsWrappedSum, SumStands};

use fold_seq::{Job, Reduced};
use no_memory::NoMemory;
use splittable::{Part, Shape};
use std::alloc::Global;

/// The sum of a shape's places, wrapped in 64 bits.
#[derive(Clone, Copy, Debug)]
pub struct Sum {
    pub shape: Shape,
}

impl Job for Sum {
    type State = u64;

    ghost lens = { λ job. job.shape };

    ghost stands = { λ _. SumStands };

    ghost is_unit = { λ _ state. state ≡ 0 };

    ghost merges = { λ _. IsWrappedSum };

    fn shape(&self) -> Shape {
        self.shape
    }

    fn run_part(&self, _alloc: Global, part: &Part) -> Result<Reduced<u64>, NoMemory> {
        Ok(Reduced::Going(sum_of_places(part.first(), part.first() + part.len())))
    }

    fn unit(&self, _alloc: Global) -> Result<u64, NoMemory> {
        Ok(0)
    }

    fn merge(&self, _alloc: Global, left: u64, right: u64) -> Result<u64, NoMemory> {
        Ok(left.wrapping_add(right))
    }

    ghost use Rattle.fold_examples.specs.SumLaws.{sum_unit, sum_merge, sum_stop, sum_lies, sum_ends};

    ghost unit_stands = { λ _. sum_unit };

    ghost merge_stands = { λ _. sum_merge };

    ghost stop_stands = { λ _. sum_stop };

    ghost stop_lies = { λ _. sum_lies };

    ghost ends_alike = { λ _. sum_ends };
}

/// The sum of the places from `first` up to but not including `end`, wrapped in 64 bits.
pub fn sum_of_places(first: u64, end: u64) -> u64
    requires { first ≤ end }
    ensures { result ≡ sum_of_places first (end - first) }
{
    let mut total = 0u64;
    for place in first..end {
        total = total.wrapping_add(place);
    }
    total
}
