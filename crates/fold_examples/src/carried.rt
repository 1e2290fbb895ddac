//! A loop that may carry something from item to item, and the job that it is where it carries nothing.
//!
//! The form to copy where a job's laws hold only under a condition on the job: the condition is a ghost field of the job's
//! type, so whoever makes a job proves it, and the law reads it there.

ghost use Rattle.std.specs.Prelude.{◌≡◌, ◌<◌, ◌↔◌, ◌+◌, ◌%◌, ◌^◌, false, IsTrue, IsNone, IfSome};
ghost use Rattle.fold_examples.specs.Sums.{IsWrappedSum};
ghost use Rattle.fold_examples.specs.Carried.{run_sum, RunStands};

use fold_seq::{Job, Reduced};
use no_memory::NoMemory;
use splittable::{Part, Shape};
use std::alloc::Global;

/// A loop over a shape's places. Each item adds its place; where the loop `carries`, it also adds the place that the item
/// before it in the same run left, and 0 where there is none.
#[derive(Clone, Copy, Debug)]
pub struct PlaceLoop {
    pub shape: Shape,
    pub carries: bool,
}

impl PlaceLoop {
    /// What a run over `len` places from `first` on gives, wrapped in 64 bits.
    pub fn run(&self, first: u64, len: u64) -> u64
        requires { first + len < 2 ^ 64 }
        ensures { result ≡ run_sum self.now.carries first len % 2 ^ 64 }
    {
        let mut total = 0u64;
        let mut left = 0u64;
        for place in first..first + len {
            if self.carries {
                total = total.wrapping_add(left);
            }
            total = total.wrapping_add(place);
            left = place;
        }
        total
    }
}

/// A loop that carries nothing from item to item, so its parts can be run apart: a job.
#[derive(Clone, Copy, Debug)]
pub struct ApartLoop {
    pub places: PlaceLoop,
    pub ghost apart: { places.carries ≡ false },
}

impl ApartLoop {
    /// The loop as a job; None exactly where it carries.
    pub fn new(places: PlaceLoop) -> Option<ApartLoop>
        ensures none { IsNone result ↔ IsTrue places.carries }
        ensures same { IfSome result (λ job. job.places ≡ places) }
    {
        if places.carries {
            None
        } else {
            Some(ApartLoop { places })
        }
    }
}

impl Job for ApartLoop {
    type State = u64;

    ghost lens = { λ job. job.places.shape };

    ghost stands = { λ job. RunStands job.places.carries };

    ghost is_unit = { λ _ state. state ≡ 0 };

    ghost merges = { λ _. IsWrappedSum };

    fn shape(&self) -> Shape {
        self.places.shape
    }

    fn run_part(&self, _alloc: Global, part: &Part) -> Result<Reduced<u64>, NoMemory> {
        Ok(Reduced::Going(self.places.run(part.first(), part.len())))
    }

    fn unit(&self, _alloc: Global) -> Result<u64, NoMemory> {
        Ok(0)
    }

    fn merge(&self, _alloc: Global, left: u64, right: u64) -> Result<u64, NoMemory> {
        Ok(left.wrapping_add(right))
    }

    ghost use Rattle.fold_examples.specs.CarriedLaws.{run_unit, run_merge, run_stop, run_lies, run_ends};

    ghost unit_stands = { λ job. run_unit job.places.carries };

    ghost merge_stands = { λ job. run_merge job.places.carries job.apart };

    ghost stop_stands = { λ job. run_stop job.places.carries };

    ghost stop_lies = { λ job. run_lies job.places.carries };

    ghost ends_alike = { λ job. run_ends job.places.carries };
}
