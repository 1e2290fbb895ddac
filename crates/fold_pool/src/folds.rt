//! The fold, and its logs.

ghost use Rattle.std.specs.Prelude.{◌≤◌, ◌+◌, IfOk};
ghost use Rattle.number_ranges.specs.Ranges.{most_items};
ghost use Rattle.splittable.specs.Places.{item_count};
ghost use Rattle.piece_ledger.specs.Folded.{AreWhole, AnswersStand, AreRightOfStops, AreOrdered, AreFew};
ghost use Rattle.piece_ledger.specs.Folded.{HaveLawfulTally, IsLawfulTally};

use super::crews::crew;
use super::leaf_lists::leaves;
use super::queues::LeafQueue;
use super::workers::begin_all;
use fold_seq::{Job, Reduced};
use no_memory::NoMemory;
use piece_ledger::{Gate, Tally, WorkerLog, collect};
use splittable::least_part;
use std::alloc::Global;
use std::sync::Wait;
use std::thread::Threads;
use stop_word::StopWord;

/// The logs of a fold by so many workers, each of which takes leaves from one queue, and one log more: of what the workers left.
///
/// The queue holds all leaves for the least part size of `base` from left to right before any worker begins. Before each leaf
/// the stop word is looked at, and a leaf is skipped that lies right of a stop. `gate` is called before each leaf that is run,
/// with the worker's number, counted from 0; what is left is begun as worker 0.
///
/// Each item lies in exactly one outcome of these logs, and each skip lies right of a stop that these logs hold. Where memory
/// runs out on one thread, the others go on until the queue is empty, and all is given up.
pub fn pool_logs<R: Threads + Sync, W: Wait + Sync, J: Job + Sync, G: Gate + Sync>(
    rt: &R,
    wait: &W,
    alloc: Global,
    job: &J,
    base: u64,
    workers: u32,
    gate: &G,
) -> Result<Vec<WorkerLog<J::State>>, NoMemory>
    requires base { (1 ≤ base) × (base ≤ most_items) }
    requires workers { (1 ≤ workers) × (workers ≤ 32) }
    ensures whole { IfOk result (λ logs. AreWhole base (J.lens job.now) logs.items) }
    ensures stands { IfOk result (λ logs. AnswersStand (J.stands job.now) logs.items) }
    ensures right { IfOk result (λ logs. AreRightOfStops logs.items) }
    ensures ordered { IfOk result (λ logs. AreOrdered logs.items) }
    ensures few { IfOk result (λ logs. AreFew (workers + 1) logs.items) }
    ensures tally { IfOk result (λ logs. HaveLawfulTally base (J.lens job.now) workers logs.items) }
{
    let shape = job.shape();
    let least = least_part(base, shape.count());
    let parts = leaves(alloc, &shape, least)?;
    let (word, stop) = StopWord::new(alloc)?;
    let (queue, line) = LeafQueue::new(wait, alloc, &shape, least, parts.as_slice())?;
    let (mut stop, mut line, mut logs) = crew(
        rt, wait, alloc, job, least, &word, &queue, 0, workers, gate, stop, line,
    )?;
    let rest = begin_all(
        wait, alloc, job, least, &word, &queue, 0, gate, &mut stop, &mut line,
    )?;
    logs.push(rest)?;
    word.close(stop);
    Ok(logs)
}

/// What all items of a job give, and how many parts were run and how many items skipped: the logs of [`pool_logs`], collected.
pub fn fold_pool<R: Threads + Sync, W: Wait + Sync, J: Job + Sync, G: Gate + Sync>(
    rt: &R,
    wait: &W,
    alloc: Global,
    job: &J,
    base: u64,
    workers: u32,
    gate: &G,
) -> Result<(Reduced<J::State>, Tally), NoMemory>
    requires base { (1 ≤ base) × (base ≤ most_items) }
    requires workers { (1 ≤ workers) × (workers ≤ 32) }
    ensures stands { IfOk result (λ r. J.stands job.now 1 (item_count (J.lens job.now)) r.0) }
    ensures tally { IfOk result (IsLawfulTally base (J.lens job.now) workers) }
{
    let logs = pool_logs(rt, wait, alloc, job, base, workers, gate)?;
    collect(alloc, job, logs)
}
