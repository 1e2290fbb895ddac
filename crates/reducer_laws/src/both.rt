//! Two reducers side by side.

ghost use Rattle.std.specs.Prelude.{◌≡◌};
ghost use Rattle.reducer_laws.specs.Ends.{BothStand};

use crate::Reducer;
use no_memory::NoMemory;
use std::alloc::Global;

/// Folds the left halves of the inputs by one reducer, and the right halves by another. A state is a pair of their states,
/// each standing for its half of the inputs.
#[derive(Drop)]
pub struct Both<A, B> {
    /// Takes the left halves.
    pub left: A,
    /// Takes the right halves.
    pub right: B,
}

impl<A: Reducer, B: Reducer> Both<A, B> {
    /// The two reducers side by side.
    pub fn new(left: A, right: B) -> Both<A, B>
        ensures { (result.left ≡ left) × (result.right ≡ right) }
    {
        Both { left, right }
    }
}

impl<A: Reducer, B: Reducer> Reducer for Both<A, B> {
    type Input = (A::Input, B::Input);

    type State = (A::State, B::State);

    ghost stands = { λ both. BothStand (A.stands both.left) (B.stands both.right) };

    ghost accepts = { λ both input. A.accepts both.left input.0 × B.accepts both.right input.1 };

    ghost is_free = { λ both. A.is_free both.left × B.is_free both.right };

    ghost unit_is_free = { λ both. A.unit_is_free both.left × B.unit_is_free both.right };

    fn unit(&self, alloc: Global) -> Result<(A::State, B::State), NoMemory> {
        Ok((self.left.unit(alloc)?, self.right.unit(alloc)?))
    }

    fn next(
        &self,
        alloc: Global,
        state: &mut (A::State, B::State),
        input: (A::Input, B::Input),
    ) -> Result<(), NoMemory> {
        let (left, right) = input;
        self.left.next(alloc, &mut state.0, left)?;
        self.right.next(alloc, &mut state.1, right)
    }

    fn merge(
        &self,
        alloc: Global,
        left: (A::State, B::State),
        right: (A::State, B::State),
    ) -> Result<(A::State, B::State), NoMemory> {
        let (left_one, left_other) = left;
        let (right_one, right_other) = right;
        let one = self.left.merge(alloc, left_one, right_one)?;
        let other = self.right.merge(alloc, left_other, right_other)?;
        Ok((one, other))
    }
}
