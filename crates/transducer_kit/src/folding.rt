//! Folding a list of items.

ghost use Rattle.std.specs.Prelude.{Ok};
ghost use Rattle.chain_stages.specs.declared.step_end.StepEnd.TheVariants.{Going};
ghost use Rattle.transducer_kit.specs.Lists.{TakesAll};
ghost use Rattle.transducer_kit.specs.Passing.{FeedsAll};

use crate::answers::goes_on;
use crate::{Reducing, StepEnd};
use no_memory::NoMemory;
use std::alloc::Global;

/// Takes items in order, up to the first that is answered otherwise than by going on, which is then the answer.
pub fn step_all<R: Reducing>(
    alloc: Global,
    reducing: &R,
    state: &mut R::State,
    items: &[R::Item],
) -> Result<StepEnd, NoMemory>
where
    R::Item: Copy,
    requires { TakesAll (R.takes reducing.now) (R.gives reducing.now) items.now state.old }
    ensures { FeedsAll (R.gives reducing.now) items.now (Ok Going) state.old result state.new }
{
    for item in items {
        let answer = reducing.step(alloc, state, *item);
        if !goes_on(&answer) {
            return answer;
        }
    }
    Ok(StepEnd::Going)
}
