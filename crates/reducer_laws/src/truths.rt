//! Whether any or all inputs are true.

ghost use Rattle.reducer_laws.specs.Ends.{IsAny, IsAll};

use crate::Reducer;
use no_memory::NoMemory;
use std::alloc::Global;

/// Tells whether any input is true; of no inputs, none is.
#[derive(Clone, Copy, Debug)]
pub struct AnyOf {}

impl AnyOf {
    /// The reducer that tells whether any input is true.
    pub fn new() -> AnyOf {
        AnyOf {}
    }
}

impl Reducer for AnyOf {
    type Input = bool;

    type State = bool;

    ghost stands = { λ _. IsAny };

    ghost accepts = { λ _ _. Unit {0} };

    ghost is_free = { λ _. Unit {0} };

    ghost unit_is_free = { λ _. Unit {0} };

    fn unit(&self, _alloc: Global) -> Result<bool, NoMemory> {
        Ok(false)
    }

    fn next(&self, _alloc: Global, state: &mut bool, input: bool) -> Result<(), NoMemory> {
        *state |= input;
        Ok(())
    }

    fn merge(&self, _alloc: Global, left: bool, right: bool) -> Result<bool, NoMemory> {
        Ok(left || right)
    }
}

/// Tells whether all inputs are true; of no inputs, all are.
#[derive(Clone, Copy, Debug)]
pub struct AllOf {}

impl AllOf {
    /// The reducer that tells whether all inputs are true.
    pub fn new() -> AllOf {
        AllOf {}
    }
}

impl Reducer for AllOf {
    type Input = bool;

    type State = bool;

    ghost stands = { λ _. IsAll };

    ghost accepts = { λ _ _. Unit {0} };

    ghost is_free = { λ _. Unit {0} };

    ghost unit_is_free = { λ _. Unit {0} };

    fn unit(&self, _alloc: Global) -> Result<bool, NoMemory> {
        Ok(true)
    }

    fn next(&self, _alloc: Global, state: &mut bool, input: bool) -> Result<(), NoMemory> {
        *state &= input;
        Ok(())
    }

    fn merge(&self, _alloc: Global, left: bool, right: bool) -> Result<bool, NoMemory> {
        Ok(left && right)
    }
}
