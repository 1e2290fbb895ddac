//! The extreme of the inputs under an order.

ghost use Rattle.std.specs.Prelude.{◌≡◌};
ghost use Rattle.loop_results.specs.Extremes.{IsFirstExtreme};

use crate::Reducer;
use crate::orders::{Greater, GreaterAt, Preference, Smaller, SmallerAt};
use no_memory::NoMemory;
use std::alloc::Global;
use std::marker::PhantomData;

/// Keeps the input that no other beats, and of equals the first. A state is that input, or none where there are none.
#[derive(Drop)]
pub struct Best<P> {
    by: PhantomData<P>,
}

/// Keeps the smallest input, and of equals the first.
pub type Least<T> = Best<Smaller<T>>;

/// Keeps the greatest input, and of equals the first.
pub type Greatest<T> = Best<Greater<T>>;

/// Keeps the smallest value with the least place where it stands; an input is a value with its place.
pub type LeastAt<T> = Best<SmallerAt<T>>;

/// Keeps the greatest value with the least place where it stands; an input is a value with its place.
pub type GreatestAt<T> = Best<GreaterAt<T>>;

impl<P: Preference> Best<P> {
    /// The reducer that keeps the best input.
    pub fn new() -> Best<P> {
        Best { by: PhantomData }
    }
}

impl<P: Preference> Reducer for Best<P> {
    type Input = P::Of;

    type State = Option<P::Of>;

    ghost stands = { λ _. IsFirstExtreme P.beats };

    ghost accepts = { λ _ _. Unit {0} };

    ghost is_free = { λ _. Unit {0} };

    ghost unit_is_free = { λ _. Unit {0} };

    fn unit(&self, _alloc: Global) -> Result<Option<P::Of>, NoMemory> {
        Ok(None)
    }

    fn next(
        &self,
        _alloc: Global,
        state: &mut Option<P::Of>,
        input: P::Of,
    ) -> Result<(), NoMemory> {
        let wins = match state {
            Some(kept) => P::beats(&input, kept),
            None => true,
        };
        if wins {
            *state = Some(input);
        }
        Ok(())
    }

    fn merge(
        &self,
        _alloc: Global,
        left: Option<P::Of>,
        right: Option<P::Of>,
    ) -> Result<Option<P::Of>, NoMemory> {
        match (left, right) {
            (Some(left), Some(right)) => {
                if P::beats(&right, &left) {
                    Ok(Some(right))
                } else {
                    Ok(Some(left))
                }
            }
            (None, right) => Ok(right),
            (left, None) => Ok(left),
        }
    }
}
