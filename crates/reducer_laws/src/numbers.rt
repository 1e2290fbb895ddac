//! The exact sum and the wrapped product.

ghost use Rattle.reducer_laws.specs.Numbers.{IsSum, IsProduct};

use crate::Reducer;
use no_memory::NoMemory;
use std::alloc::Global;

/// Sums 64-bit integers. A state is the exact sum: 2^62 inputs of 64 bits come to at most 2^125 either way.
#[derive(Clone, Copy, Debug)]
pub struct Sum {}

impl Sum {
    /// The reducer that sums.
    pub fn new() -> Sum {
        Sum {}
    }
}

impl Reducer for Sum {
    type Input = i64;

    type State = i128;

    ghost stands = { λ _. IsSum };

    ghost accepts = { λ _ _. Unit {0} };

    ghost is_free = { λ _. Unit {0} };

    ghost unit_is_free = { λ _. Unit {0} };

    fn unit(&self, _alloc: Global) -> Result<i128, NoMemory> {
        Ok(0)
    }

    fn next(&self, _alloc: Global, state: &mut i128, input: i64) -> Result<(), NoMemory> {
        *state += i128::from(input);
        Ok(())
    }

    fn merge(&self, _alloc: Global, left: i128, right: i128) -> Result<i128, NoMemory> {
        Ok(left + right)
    }
}

/// Multiplies 64-bit integers. A state is the product, wrapped in 64 bits.
#[derive(Clone, Copy, Debug)]
pub struct Prod {}

impl Prod {
    /// The reducer that multiplies.
    pub fn new() -> Prod {
        Prod {}
    }
}

impl Reducer for Prod {
    type Input = i64;

    type State = i64;

    ghost stands = { λ _. IsProduct };

    ghost accepts = { λ _ _. Unit {0} };

    ghost is_free = { λ _. Unit {0} };

    ghost unit_is_free = { λ _. Unit {0} };

    fn unit(&self, _alloc: Global) -> Result<i64, NoMemory> {
        Ok(1)
    }

    fn next(&self, _alloc: Global, state: &mut i64, input: i64) -> Result<(), NoMemory> {
        *state = state.wrapping_mul(input);
        Ok(())
    }

    fn merge(&self, _alloc: Global, left: i64, right: i64) -> Result<i64, NoMemory> {
        Ok(left.wrapping_mul(right))
    }
}
