//! Several workers, on threads of their own.

ghost use Rattle.std.specs.Prelude.{◌≡◌, ◌≤◌, ◌<◌, ◌+◌, ◌^◌, length, IfOk};
ghost use Rattle.std.specs.Thread.{IsSync};
ghost use Rattle.fold_pool.specs.Pools.{AreFresh, HaveWorked};

use super::queues::LeafQueue;
use super::seats::QueueSeat;
use super::workers::begin_all;
use fold_seq::Job;
use no_memory::NoMemory;
use piece_ledger::{Gate, WorkerLog};
use std::alloc::Global;
use std::sync::Wait;
use std::thread::{Threads, join};
use stop_word::{StopSeat, StopWord};

/// Lets so many workers, numbered from the first on, begin leaves until the queue is empty, and gives their logs and the seats,
/// joined again.
pub fn crew<R: Threads + Sync, W: Wait + Sync, J: Job + Sync, G: Gate + Sync>(
    rt: &R,
    wait: &W,
    alloc: Global,
    job: &J,
    least: u64,
    word: &StopWord,
    queue: &LeafQueue,
    first: u32,
    count: u32,
    gate: &G,
    mut stop: StopSeat,
    mut line: QueueSeat,
) -> Result<(StopSeat, QueueSeat, Vec<WorkerLog<J::State>>), NoMemory>
    requires count { (1 ≤ count) × (first + count < 2 ^ 32) }
    requires fresh { AreFresh word.now queue.now (J.lens job.now) least count stop line }
    ensures worked { IfOk result (λ r. HaveWorked (J.stands job.now) (J.lens job.now) least
        stop line r.0 r.1 r.2.items) }
    ensures logs { IfOk result (λ r. length r.2.items ≡ count) }
{
    if count == 1 {
        let log = begin_all(
            wait, alloc, job, least, word, queue, first, gate, &mut stop, &mut line,
        )?;
        let mut logs = Vec::new(alloc);
        logs.push(log)?;
        return Ok((stop, line, logs));
    }
    let half = count / 2;
    let rest = count - half;
    let other_stop = word.split(&mut stop);
    let other_line = queue.split(&mut line);
    let (left, right) = join(
        rt,
        move || -> Result<(StopSeat, QueueSeat, Vec<WorkerLog<J::State>>), NoMemory>
            requires { IsSync R.row × IsSync W.row × IsSync J.row × IsSync G.row
                × (1 ≤ rest) × (first + rest < 2 ^ 32)
                × AreFresh word.now queue.now (J.lens job.now) least rest stop line }
            ensures { IfOk result (λ r.
                HaveWorked (J.stands job.entry.now) (J.lens job.entry.now) least
                stop line r.0 r.1 r.2.items
                × (length r.2.items ≡ rest)) }
        {
            crew(
                rt, wait, alloc, job, least, word, queue, first, rest, gate, stop, line,
            )
        },
        move || -> Result<(StopSeat, QueueSeat, Vec<WorkerLog<J::State>>), NoMemory>
            requires { IsSync R.row × IsSync W.row × IsSync J.row × IsSync G.row
                × (1 ≤ half) × (first + rest + half < 2 ^ 32)
                × AreFresh word.now queue.now (J.lens job.now) least half other_stop other_line }
            ensures { IfOk result (λ r.
                HaveWorked (J.stands job.entry.now) (J.lens job.entry.now) least
                other_stop other_line r.0 r.1 r.2.items
                × (length r.2.items ≡ half)) }
        {
            let next = first + rest;
            crew(
                rt, wait, alloc, job, least, word, queue, next, half, gate, other_stop, other_line,
            )
        },
    );
    let (mut stop, mut line, mut logs) = left?;
    let (other_stop, other_line, mut other_logs) = right?;
    word.join(&mut stop, other_stop);
    queue.join(&mut line, other_line);
    logs.append(&mut other_logs)?;
    Ok((stop, line, logs))
}
