//! Parts: their items, one after another along a walk.

ghost use Rattle.std.specs.Prelude.{◌≡◌, ◌+◌, ◌≤◌, IfOk, length};
ghost use Rattle.carries_nothing.specs.Parts.{from_start};
ghost use Rattle.loop_standing.specs.Standing.{Answers, stretch_of};

use crate::LoopJob;
use chain_stages::StepEnd;
use fold_seq::{Job, Reduced};
use loop_data::Many;
use loop_items::Walk;
use loop_meaning::Pair;
use loop_standing::LoopState;
use no_memory::NoMemory;
use std::alloc::Global;

/// A part in the middle: what its items gave so far.
#[derive(Drop)]
pub(crate) struct Walked {
    pub(crate) state: LoopState,
    /// Where an item's pairs are put; empty between items, so that they share its memory.
    pub(crate) emitted: Many<Pair>,
}

impl<'a> LoopJob<'a> {
    /// The items of a walk, of which there are so many, from a place on.
    pub(crate) fn run_items(
        &self,
        alloc: Global,
        walk: &mut Walk<'_, '_>,
        first: u64,
        count: u64,
    ) -> Result<Reduced<LoopState>, NoMemory>
        requires items { walk.old ≡ stretch_of self.now.head.items first count }
        requires low { 1 ≤ first }
        requires within { first + count ≤ length self.now.head.items + 1 }
        ensures { IfOk result (Answers self.now.program.now self.now.row.towers.items
            (from_start self.now.program.now walk.old first)) }
    {
        let mut walked = Walked {
            state: self.unit(alloc)?,
            emitted: Many::new(alloc),
        };
        for before in 0..count {
            let Some(item) = walk.next(alloc)? else {
                return Ok(Reduced::Going(walked.state));
            };
            let at = first + before;
            match self.take_item(alloc, item, at, &mut walked)? {
                StepEnd::Going => {}
                StepEnd::Ended { line } => {
                    return Ok(Reduced::Stopped {
                        at,
                        line,
                        state: walked.state,
                    });
                }
                StepEnd::Fault { line, kind } => return Ok(Reduced::Faulted { at, line, kind }),
            }
        }
        Ok(Reduced::Going(walked.state))
    }
}
