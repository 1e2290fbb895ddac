//! What takes an item for itself.

ghost use Rattle.std.specs.Prelude.{◌≡◌, Ok, Some};
ghost use Rattle.chain_stages.specs.declared.step_end.StepEnd.TheVariants.{Going};

use crate::{Reducing, StepEnd};
use no_memory::NoMemory;
use std::alloc::Global;
use std::marker::PhantomData;

/// Keeps the last item that it takes. It takes no memory, takes each item in each state and goes on.
#[derive(Drop)]
pub struct Taking<A> {
    of: PhantomData<A>,
}

impl<A> Taking<A> {
    /// What keeps the last item.
    pub fn new() -> Taking<A> {
        Taking { of: PhantomData }
    }
}

impl<A: Drop> Reducing for Taking<A> {
    type Item = A;

    type State = Option<A>;

    ghost takes = { λ _ _ _. Unit {0} };

    ghost gives = { λ _ old item answer new. (answer ≡ Ok Going) × (new ≡ Some item) };

    fn step(&self, _alloc: Global, state: &mut Option<A>, item: A) -> Result<StepEnd, NoMemory> {
        *state = Some(item);
        Ok(StepEnd::Going)
    }
}
