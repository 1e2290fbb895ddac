//! The fold, and its logs.

ghost use Rattle.std.specs.Prelude.{◌≤◌, ◌*◌, IfOk};
ghost use Rattle.number_ranges.specs.Ranges.{most_items};
ghost use Rattle.splittable.specs.Places.{item_count};
ghost use Rattle.piece_ledger.specs.Folded.{AreWhole, AnswersStand, AreRightOfStops, AreOrdered, AreFew};
ghost use Rattle.piece_ledger.specs.Folded.{HaveLawfulTally, IsLawfulTally};

use super::forks::{begin_forked, seats_for};
use fold_seq::{Job, Reduced};
use no_memory::NoMemory;
use piece_ledger::{Gate, Tally, WorkerLog, collect};
use splittable::least_part;
use std::alloc::Global;
use std::thread::Threads;
use stop_word::StopWord;

/// The logs of a fold by halves.
///
/// The whole is halved, and each half again, the left before the right, down to leaves for the least part size of `base`. Nodes
/// fewer than d halvings below the whole, d being the least number with `2^d >= workers`, hand their right half to a thread of
/// its own. Before each node the stop word is looked at, and a node is skipped that lies right of a stop. `gate` is called with
/// the worker number 0 before each leaf.
///
/// Each item lies in exactly one outcome of these logs, and each skip lies right of a stop that these logs hold. Where memory
/// runs out on one thread, the others go on to their ends, and all is given up.
pub fn halves_logs<R: Threads + Sync, J: Job + Sync, G: Gate + Sync>(
    rt: &R,
    alloc: Global,
    job: &J,
    base: u64,
    workers: u32,
    gate: &G,
) -> Result<Vec<WorkerLog<J::State>>, NoMemory>
    requires base { (1 ≤ base) × (base ≤ most_items) }
    requires workers { (1 ≤ workers) × (workers ≤ 32) }
    ensures whole { IfOk result (λ logs. AreWhole base (J.lens job.now) logs.items) }
    ensures stands { IfOk result (λ logs. AnswersStand (J.stands job.now) logs.items) }
    ensures right { IfOk result (λ logs. AreRightOfStops logs.items) }
    ensures ordered { IfOk result (λ logs. AreOrdered logs.items) }
    ensures few { IfOk result (λ logs. AreFew (2 * workers) logs.items) }
    ensures tally { IfOk result (λ logs. HaveLawfulTally base (J.lens job.now) workers logs.items) }
{
    let shape = job.shape();
    let least = least_part(base, shape.count());
    let Some(whole) = shape.whole() else {
        return Ok(Vec::new(alloc));
    };
    let (word, seat) = StopWord::new(alloc)?;
    let seats = seats_for(workers);
    let (seat, logs) = begin_forked(rt, alloc, job, least, whole, &word, seat, seats, gate)?;
    word.close(seat);
    Ok(logs)
}

/// What all items of a job give, and how many parts were run and how many items skipped: the logs of [`halves_logs`], collected.
pub fn fold_halves<R: Threads + Sync, J: Job + Sync, G: Gate + Sync>(
    rt: &R,
    alloc: Global,
    job: &J,
    base: u64,
    workers: u32,
    gate: &G,
) -> Result<(Reduced<J::State>, Tally), NoMemory>
    requires base { (1 ≤ base) × (base ≤ most_items) }
    requires workers { (1 ≤ workers) × (workers ≤ 32) }
    ensures stands { IfOk result (λ r. J.stands job.now 1 (item_count (J.lens job.now)) r.0) }
    ensures tally { IfOk result (IsLawfulTally base (J.lens job.now) workers) }
{
    let logs = halves_logs(rt, alloc, job, base, workers, gate)?;
    collect(alloc, job, logs)
}
