//! The whole of all logs.

ghost use Rattle.std.specs.Prelude.{◌≡◌, false, ◌++◌, IfOk, OnOk};
ghost use Rattle.splittable.specs.Places.{item_count};
ghost use Rattle.fold_seq.specs.Answers.{stop_place_of};
ghost use Rattle.piece_ledger.specs.Logs.{outcomes_of, IsCollectable, IsLeftmostStop};
ghost use Rattle.piece_ledger.specs.Tallies.{tally_of};
ghost use Rattle.fold_seq.specs.Pieces.{StandOrFollowStop, items_in};
ghost use Rattle.piece_ledger.specs.Pieces.{pieces_of, first_stop};

use super::outcomes::{Outcome, OutcomeKind, WorkerLog};
use super::tallies::{Tally, tally_up};
use fold_seq::{Job, Reduced, combine};
use no_memory::NoMemory;
use std::alloc::Global;

/// All outcomes, one log after another.
fn gather<S: Drop>(alloc: Global, logs: Vec<WorkerLog<S>>) -> Result<Vec<Outcome<S>>, NoMemory>
    ensures { IfOk result (λ all. all.items ≡ outcomes_of logs.items) }
{
    let mut all = Vec::new(alloc);
    for log in logs {
        append(&mut all, log)?;
    }
    Ok(all)
}

/// Puts the outcomes of a log last, in order.
fn append<S: Drop>(all: &mut Vec<Outcome<S>>, log: WorkerLog<S>) -> Result<(), NoMemory>
    ensures { OnOk result (all.new.items ≡ all.old.items ++ log) }
{
    let WorkerLog { outcomes } = log;
    for outcome in outcomes {
        all.push(outcome)?;
    }
    Ok(())
}

/// The answers of outcomes that lie next to each other from the first place on, combined from left to right.
fn combine_all<J: Job>(
    alloc: Global,
    job: &J,
    outcomes: Vec<Outcome<J::State>>,
) -> Result<Reduced<J::State>, NoMemory>
    requires { StandOrFollowStop (J.stands job.now) false 1 (pieces_of outcomes.items) }
    ensures stands { IfOk result (J.stands job.now 1 (items_in (pieces_of outcomes.items))) }
    ensures first { IfOk result (λ answer.
        stop_place_of answer ≡ first_stop (pieces_of outcomes.items)) }
{
    let mut answer = Reduced::Going(job.unit(alloc)?);
    for outcome in outcomes {
        let Outcome { part: _, kind } = outcome;
        match kind {
            OutcomeKind::Ran(next) => answer = combine(alloc, job, answer, next)?,
            // A stop left of it has decided.
            OutcomeKind::Skipped { seen: _ } => {}
        }
    }
    Ok(answer)
}

/// What all outcomes give: the answer of the whole, and the tally.
///
/// The outcomes may come in any order, and lie over the logs in any way. They are put in the order of their places, and their
/// answers combined from left to right. A part that was skipped lies right of a stop, which decides.
pub fn collect<J: Job>(
    alloc: Global,
    job: &J,
    logs: Vec<WorkerLog<J::State>>,
) -> Result<(Reduced<J::State>, Tally), NoMemory>
    requires { IsCollectable (J.stands job.now)
        (item_count (J.lens job.now)) (outcomes_of logs.items) }
    ensures stands { IfOk result (λ r. J.stands job.now 1 (item_count (J.lens job.now)) r.0) }
    ensures leftmost { IfOk result (λ r.
        IsLeftmostStop (outcomes_of logs.items) (stop_place_of r.0)) }
    ensures tally { IfOk result (λ r. r.1 ≡ tally_of (outcomes_of logs.items)) }
{
    // So the check knows that the items that are skipped are few.
    let _count = job.shape().count();
    let mut outcomes = gather(alloc, logs)?;
    outcomes.sort_unstable_by_key(|outcome| outcome.part.first());
    let tally = tally_up(outcomes.as_slice());
    let answer = combine_all(alloc, job, outcomes)?;
    Ok((answer, tally))
}
