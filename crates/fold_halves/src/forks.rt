//! Nodes whose halves are run on threads of their own.

ghost use Rattle.std.specs.Prelude.{◌≡◌, ◌≤◌, ◌<◌, ◌*◌, [], ◌∷◌, length, IfOk};
ghost use Rattle.std.specs.Thread.{IsSync};
ghost use Rattle.splittable.specs.Nodes.{IsNode};
ghost use Rattle.fold_halves.specs.Logged.{AreLogged, HasLogs, MayBegin};

use super::nodes::{begin_node, begin_or_halve};
use fold_seq::Job;
use no_memory::NoMemory;
use piece_ledger::{Gate, WorkerLog};
use splittable::Part;
use std::alloc::Global;
use std::thread::{Threads, join};
use stop_word::{StopSeat, StopWord};

/// How many seats so many workers have: the least power of two that is at least as large.
pub fn seats_for(workers: u32) -> u32
    requires { (1 ≤ workers) × (workers ≤ 32) }
    ensures enough { workers ≤ result }
    ensures few { result < 2 * workers }
    ensures most { result ≤ 32 }
{
    match workers {
        1 => 1,
        2 => 2,
        3..=4 => 4,
        5..=8 => 8,
        9..=16 => 16,
        _ => 32,
    }
}

/// A list of one log.
fn one_log<S: Drop>(alloc: Global, log: WorkerLog<S>) -> Result<Vec<WorkerLog<S>>, NoMemory>
    ensures { IfOk result (λ logs. logs.items ≡ log ∷ []) }
{
    let mut logs = Vec::new(alloc);
    logs.push(log)?;
    Ok(logs)
}

/// Begins a node with so many seats, a power of two: where there are several, the halves have half of them each, the right half
/// on a thread of its own if there is one. Gives the seat, to which all others are joined, and the logs of all, from left to
/// right.
pub fn begin_forked<R: Threads + Sync, J: Job + Sync, G: Gate + Sync>(
    rt: &R,
    alloc: Global,
    job: &J,
    least: u64,
    part: Part,
    word: &StopWord,
    mut seat: StopSeat,
    seats: u32,
    gate: &G,
) -> Result<(StopSeat, Vec<WorkerLog<J::State>>), NoMemory>
    requires word { seat.word ≡ word.now }
    requires least { 1 ≤ least }
    requires part { IsNode (J.lens job.now) least part }
    requires seats { (1 ≤ seats) × (seats ≤ seat.weight) }
    requires fresh { seat.reported ≡ [] }
    ensures word { IfOk result (λ r. (r.0.word ≡ seat.word) × (r.0.weight ≡ seat.weight)) }
    ensures logs { IfOk result (λ r. AreLogged (J.stands job.now) (J.lens job.now)
        least part r.0 r.1.items) }
    ensures few { IfOk result (λ r. length r.1.items ≤ seats) }
{
    let mut log = WorkerLog::new(alloc);
    if seats == 1 {
        begin_node(alloc, job, least, &part, word, &mut seat, &mut log, gate)?;
        return Ok((seat, one_log(alloc, log)?));
    }
    let halves = begin_or_halve(alloc, job, least, &part, word, &mut seat, &mut log, gate)?;
    let Some(halves) = halves else {
        return Ok((seat, one_log(alloc, log)?));
    };
    let left = halves.0;
    let right = halves.1;
    let half = seats / 2;
    let other = word.split(&mut seat);
    let (first, second) = join(
        rt,
        move || -> Result<(StopSeat, Vec<WorkerLog<J::State>>), NoMemory>
            requires { IsSync R.row × IsSync J.row × IsSync G.row
                × MayBegin (J.lens job.now) least left word.now half seat }
            ensures { IfOk result (λ r. HasLogs (J.stands job.entry.now) (J.lens job.entry.now)
                least left half seat r.0 r.1.items) }
        { begin_forked(rt, alloc, job, least, left, word, seat, half, gate) },
        move || -> Result<(StopSeat, Vec<WorkerLog<J::State>>), NoMemory>
            requires { IsSync R.row × IsSync J.row × IsSync G.row
                × MayBegin (J.lens job.now) least right word.now half other }
            ensures { IfOk result (λ r. HasLogs (J.stands job.entry.now) (J.lens job.entry.now)
                least right half other r.0 r.1.items) }
        { begin_forked(rt, alloc, job, least, right, word, other, half, gate) },
    );
    let (mut seat, mut logs) = first?;
    let (other, mut more) = second?;
    word.join(&mut seat, other);
    logs.append(&mut more)?;
    Ok((seat, logs))
}
