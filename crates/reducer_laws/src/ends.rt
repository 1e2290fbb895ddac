//! The first and the last input.

ghost use Rattle.std.specs.Prelude.{◌≡◌};
ghost use Rattle.loop_results.specs.Ends.{first_of, last_of};

use crate::Reducer;
use no_memory::NoMemory;
use std::alloc::Global;
use std::marker::PhantomData;

/// Keeps the first input. A state is that input, or none where there are none.
#[derive(Drop)]
pub struct FirstOf<T> {
    of: PhantomData<T>,
}

impl<T: Drop> FirstOf<T> {
    /// The reducer that keeps the first input.
    pub fn new() -> FirstOf<T> {
        FirstOf { of: PhantomData }
    }
}

impl<T: Drop> Reducer for FirstOf<T> {
    type Input = T;

    type State = Option<T>;

    ghost stands = { λ _ state xs. state ≡ first_of xs };

    ghost accepts = { λ _ _. Unit {0} };

    ghost is_free = { λ _. Unit {0} };

    ghost unit_is_free = { λ _. Unit {0} };

    fn unit(&self, _alloc: Global) -> Result<Option<T>, NoMemory> {
        Ok(None)
    }

    fn next(&self, _alloc: Global, state: &mut Option<T>, input: T) -> Result<(), NoMemory> {
        if state.is_none() {
            *state = Some(input);
        }
        Ok(())
    }

    fn merge(
        &self,
        _alloc: Global,
        left: Option<T>,
        right: Option<T>,
    ) -> Result<Option<T>, NoMemory> {
        Ok(left.or(right))
    }
}

/// Keeps the last input. A state is that input, or none where there are none.
#[derive(Drop)]
pub struct LastOf<T> {
    of: PhantomData<T>,
}

impl<T: Drop> LastOf<T> {
    /// The reducer that keeps the last input.
    pub fn new() -> LastOf<T> {
        LastOf { of: PhantomData }
    }
}

impl<T: Drop> Reducer for LastOf<T> {
    type Input = T;

    type State = Option<T>;

    ghost stands = { λ _ state xs. state ≡ last_of xs };

    ghost accepts = { λ _ _. Unit {0} };

    ghost is_free = { λ _. Unit {0} };

    ghost unit_is_free = { λ _. Unit {0} };

    fn unit(&self, _alloc: Global) -> Result<Option<T>, NoMemory> {
        Ok(None)
    }

    fn next(&self, _alloc: Global, state: &mut Option<T>, input: T) -> Result<(), NoMemory> {
        *state = Some(input);
        Ok(())
    }

    fn merge(
        &self,
        _alloc: Global,
        left: Option<T>,
        right: Option<T>,
    ) -> Result<Option<T>, NoMemory> {
        Ok(right.or(left))
    }
}
