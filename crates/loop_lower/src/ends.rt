//! The end of a loop that was folded whole.

ghost use Rattle.std.specs.Prelude.{◌≡◌, IfOk};
ghost use Rattle.splittable.specs.Places.{item_count};
ghost use Rattle.loop_standing.specs.Standing.{HoldsRun, StretchStands};
ghost use Rattle.loop_lower.specs.Ends.{HasNoFault, IsEnd, run_over};

use crate::LoopJob;
use fold_seq::Reduced;
use loop_standing::LoopState;
use no_memory::NoMemory;
use reducer_tower::RowState;
use std::alloc::Global;

/// How a loop ended.
#[derive(Drop)]
pub enum LoopEnd {
    /// It ran to its end, or broke: the states with the start values, and how many faults were skipped.
    Done { state: RowState, skipped: u64 },
    /// The item at this place faulted on this line. Places and lines count from 1; the kind is from 1 to 5.
    Faulted { at: u64, line: u32, kind: u8 },
}

impl<'a> LoopJob<'a> {
    /// The end of the loop, of what a fold of the whole answered: the start values are put into the states, and the plain loop
    /// over the items, from the start and place 1, ends so. Refused only for want of memory.
    pub fn end(&self, alloc: Global, answer: Reduced<LoopState>) -> Result<LoopEnd, NoMemory>
        requires { StretchStands self.now.program.now self.now.row.towers.items self.now.head.items
            1 (item_count self.now.head.lens) answer }
        ensures { IfOk result (IsEnd self.now.row.towers.items
            (run_over self.now.program.now self.now.head.items)) }
    {
        match answer {
            Reduced::Going(state) => self.done(alloc, state),
            Reduced::Stopped {
                at: _,
                line: _,
                state,
            } => self.done(alloc, state),
            Reduced::Faulted { at, line, kind } => Ok(LoopEnd::Faulted { at, line, kind }),
        }
    }

    /// The start values, put into the states of a loop that didn't fault.
    fn done(&self, alloc: Global, state: LoopState) -> Result<LoopEnd, NoMemory>
        requires holds { HoldsRun self.now.row.towers.items
            (run_over self.now.program.now self.now.head.items) state }
        requires no_fault { HasNoFault (run_over self.now.program.now self.now.head.items).stop }
        ensures { IfOk result (IsEnd self.now.row.towers.items
            (run_over self.now.program.now self.now.head.items)) }
    {
        let LoopState { row, skipped } = state;
        let state = self.row.with_starts(alloc, row)?;
        Ok(LoopEnd::Done { state, skipped })
    }
}
