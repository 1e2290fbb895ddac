//! The contract of what folds inputs in parts.

ghost use Rattle.std.specs.Prelude.{List, [], IfOk, IsOk, OnOk};
ghost use Rattle.reducer_laws.specs.Standing.{MayTake, MayMerge, TakesNext, TakesTogether};

use no_memory::NoMemory;
use std::alloc::Global;

/// What folds inputs into a state, in parts.
///
/// Its meaning is the relation `stands`: this state stands for this list of inputs. A state may stand for several lists, and
/// what each call answers holds for all of them.
pub trait Reducer {
    /// What is folded.
    type Input: Drop;

    /// What is gathered.
    type State: Drop;

    /// The state stands for this list of inputs.
    ghost stands: { Self → Self.State → List Self.Input → Type 0 };

    /// The reducer takes this input. Most reducers take each.
    ghost accepts: { Self → Self.Input → Type 0 };

    /// The reducer's calls take no memory.
    ghost is_free: { Self → Type 0 };

    /// Its unit takes no memory, as it may where its other calls take some.
    ghost unit_is_free: { Self → Type 0 };

    /// A state that stands for no inputs.
    fn unit(&self, alloc: Global) -> Result<Self::State, NoMemory>
        ensures stands { IfOk result (λ state. stands self.now state []) }
        ensures free { is_free self.now → IsOk result }
        ensures unit_free { unit_is_free self.now → IsOk result };

    /// Takes one more input, after those that the state stands for, of which there are fewer than 2^62. After `NoMemory` the
    /// state stands for no list and can only be dropped.
    fn next(
        &self,
        alloc: Global,
        state: &mut Self::State,
        input: Self::Input,
    ) -> Result<(), NoMemory>
        requires room { MayTake (stands self.now) state.old }
        requires accepts { accepts self.now input }
        ensures stands { OnOk result (TakesNext (stands self.now) state.old input state.new) }
        ensures free { is_free self.now → IsOk result };

    /// Puts two states together, the left's inputs before the right's, of which there are at most 2^62 together. After
    /// `NoMemory` both are given up.
    fn merge(
        &self,
        alloc: Global,
        left: Self::State,
        right: Self::State,
    ) -> Result<Self::State, NoMemory>
        requires room { MayMerge (stands self.now) left right }
        ensures stands { IfOk result (TakesTogether (stands self.now) left right) }
        ensures free { is_free self.now → IsOk result };
}
