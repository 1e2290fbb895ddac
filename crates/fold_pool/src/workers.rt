//! One worker.

ghost use Rattle.std.specs.Prelude.{◌≡◌, IfOk, OnOk, IsPermutation};
ghost use Rattle.fold_pool.specs.Taken.{whole_weight};
ghost use Rattle.fold_pool.specs.Pools.{HasBegun};

use super::queues::LeafQueue;
use super::seats::QueueSeat;
use fold_seq::Job;
use no_memory::NoMemory;
use piece_ledger::{Gate, WorkerLog, begin_part};
use std::alloc::Global;
use std::sync::Wait;
use stop_word::{StopSeat, StopWord};

/// Begins the leaves at the queue's front, one after another, until the queue is empty, and gives the log of them.
pub fn begin_all<W: Wait, J: Job, G: Gate>(
    wait: &W,
    alloc: Global,
    job: &J,
    least: u64,
    word: &StopWord,
    queue: &LeafQueue,
    worker: u32,
    gate: &G,
    stop: &mut StopSeat,
    line: &mut QueueSeat,
) -> Result<WorkerLog<J::State>, NoMemory>
    requires word { stop.old.word ≡ word.now }
    requires queue { line.old.queue ≡ queue.now }
    requires leaves { (line.old.shape ≡ J.lens job.now) × (line.old.least ≡ least) }
    ensures begun { IfOk result (HasBegun (J.stands job.now) (J.lens job.now) least
        stop.old stop.new line.old line.new) }
    ensures all { OnOk result (line.old.weight ≡ whole_weight →
        IsPermutation line.new.taken line.new.put) }
{
    let mut log = WorkerLog::new(alloc);
    for _ in wait.forever() {
        let Some(part) = queue.pop(wait, line) else {
            return Ok(log);
        };
        begin_part(alloc, job, least, &part, word, stop, &mut log, worker, gate)?;
    }
    unreachable!()
}
