//! The list of inputs.

ghost use Rattle.std.specs.Prelude.{◌≡◌};

use crate::Reducer;
use loop_data::Many;
use no_memory::NoMemory;
use std::alloc::Global;
use std::marker::PhantomData;

/// Lists inputs. A state is the list of them, in order.
#[derive(Drop)]
pub struct Listed<T> {
    of: PhantomData<T>,
}

impl<T: Drop> Listed<T> {
    /// The reducer that lists.
    pub fn new() -> Listed<T> {
        Listed { of: PhantomData }
    }
}

impl<T: Drop> Reducer for Listed<T> {
    type Input = T;

    type State = Many<T>;

    ghost stands = { λ _ state xs. state ≡ xs };

    ghost accepts = { λ _ _. Unit {0} };

    ghost is_free = { λ _. ⊥ };

    ghost unit_is_free = { λ _. Unit {0} };

    fn unit(&self, alloc: Global) -> Result<Many<T>, NoMemory> {
        Ok(Many::new(alloc))
    }

    fn next(&self, alloc: Global, state: &mut Many<T>, input: T) -> Result<(), NoMemory> {
        state.push(alloc, input)
    }

    fn merge(&self, _alloc: Global, left: Many<T>, right: Many<T>) -> Result<Many<T>, NoMemory> {
        let mut whole = left.into_vec();
        let mut after = right.into_vec();
        whole.append(&mut after)?;
        Ok(Many::from_vec(whole))
    }
}
