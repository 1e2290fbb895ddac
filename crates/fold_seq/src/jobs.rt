//! The contract between loops and the ways to run them.

ghost use Rattle.std.specs.Prelude.{◌≡◌, ℕ, List, IfOk};
ghost use Rattle.splittable.specs.Nodes.{IsNode};
ghost use Rattle.fold_seq.specs.declared.answers.Reduced.{Reduced};
ghost use Rattle.fold_seq.specs.Standing.{UnitStands, MergeStands, StopStands, StopLies, EndsAlike, MayMergeParts};

use super::answers::Reduced;
use no_memory::NoMemory;
use splittable::{Part, Shape};
use std::alloc::Global;

/// Work over the items of a shape, which can be done in parts.
///
/// Its meaning is the relation `stands`: this answer is what the items from a place on, so many of them, give. Each call keeps
/// it, and its five laws are what folds in parts rest on.
pub trait Job {
    /// What is gathered from items.
    type State: Send + Drop;

    /// The lengths of the shape.
    ghost lens: { Self → List ℕ };

    /// From this place on, so many items give this answer.
    ghost stands: { Self → ℕ → ℕ → Reduced Self.State → Type 0 };

    /// The state is a unit: what no items give.
    ghost is_unit: { Self → Self.State → Type 0 };

    /// The third state is a merge of the first and the second.
    ghost merges: { Self → Self.State → Self.State → Self.State → Type 0 };

    /// The items' shape.
    fn shape(&self) -> Shape
        ensures { result ≡ lens self.now };

    /// Runs the items of a part: a node of the shape for some least part size.
    fn run_part(&self, alloc: Global, part: &Part) -> Result<Reduced<Self::State>, NoMemory>
        requires { (least : ℕ) × IsNode (lens self.now) least part.now }
        ensures { IfOk result (stands self.now part.now.first part.now.len) };

    /// What no items give.
    fn unit(&self, alloc: Global) -> Result<Self::State, NoMemory>
        ensures { IfOk result (is_unit self.now) };

    /// Merges what two neighbouring stretches gathered, of which the left ran to its end and the right didn't fault.
    fn merge(
        &self,
        alloc: Global,
        left: Self::State,
        right: Self::State,
    ) -> Result<Self::State, NoMemory>
        requires { MayMergeParts (stands self.now) left right }
        ensures { IfOk result (merges self.now left right) };

    /// A unit stands for no items, at each place.
    ghost unit_stands: { (job : Self) → UnitStands (stands job) (is_unit job) };

    /// What ran to its end, merged into the answer of the stretch right after it, stands for both together.
    ghost merge_stands: { (job : Self) → MergeStands (stands job) (merges job) };

    /// What stopped or faulted stands for each longer stretch from the same place.
    ghost stop_stands: { (job : Self) → StopStands (stands job) };

    /// A stretch stops or faults at one of its own items.
    ghost stop_lies: { (job : Self) → StopLies (stands job) };

    /// All answers of one stretch have the same end.
    ghost ends_alike: { (job : Self) → EndsAlike (stands job) };
}
