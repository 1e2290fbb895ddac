//! The number of inputs.

ghost use Rattle.std.specs.Prelude.{◌≡◌, length};

use crate::Reducer;
use no_memory::NoMemory;
use std::alloc::Global;

/// Counts inputs. A state is their number.
#[derive(Clone, Copy, Debug)]
pub struct Count {}

impl Count {
    /// The reducer that counts.
    pub fn new() -> Count {
        Count {}
    }
}

impl Reducer for Count {
    type Input = ();

    type State = u64;

    ghost stands = { λ _ state xs. state ≡ length xs };

    ghost accepts = { λ _ _. Unit {0} };

    ghost is_free = { λ _. Unit {0} };

    ghost unit_is_free = { λ _. Unit {0} };

    fn unit(&self, _alloc: Global) -> Result<u64, NoMemory> {
        Ok(0)
    }

    fn next(&self, _alloc: Global, state: &mut u64, _input: ()) -> Result<(), NoMemory> {
        *state += 1;
        Ok(())
    }

    fn merge(&self, _alloc: Global, left: u64, right: u64) -> Result<u64, NoMemory> {
        Ok(left + right)
    }
}
