//! Nodes that one seat begins.

ghost use Rattle.std.specs.Prelude.{◌≡◌, ◌≤◌, IfOk, OnOk};
ghost use Rattle.splittable.specs.Nodes.{IsNode};
ghost use Rattle.fold_halves.specs.Logged.{LogsNode, IsLoggedOr};

use fold_seq::Job;
use no_memory::NoMemory;
use piece_ledger::{Begun, Gate, WorkerLog, begin_part};
use splittable::{Part, Splittable};
use std::alloc::Global;
use stop_word::{StopSeat, StopWord};

/// Begins a node, and gives its halves where it is longer than the least part size. Else it was skipped or run, and is logged.
pub fn begin_or_halve<J: Job, G: Gate>(
    alloc: Global,
    job: &J,
    least: u64,
    part: &Part,
    word: &StopWord,
    seat: &mut StopSeat,
    log: &mut WorkerLog<J::State>,
    gate: &G,
) -> Result<Option<(Part, Part)>, NoMemory>
    requires word { seat.old.word ≡ word.now }
    requires least { 1 ≤ least }
    requires part { IsNode (J.lens job.now) least part.now }
    ensures word { seat.new.word ≡ seat.old.word }
    ensures weight { seat.new.weight ≡ seat.old.weight }
    ensures begun { IfOk result (IsLoggedOr (J.stands job.now) (J.lens job.now) least part.now
        seat.old seat.new log.old log.new) }
{
    match begin_part(alloc, job, least, part, word, seat, log, 0, gate)? {
        Begun::Skipped => Ok(None),
        Begun::Ran => Ok(None),
        Begun::Longer => Ok(part.halve()),
    }
}

/// Begins a node, and where it is longer than the least part size its halves, the left before the right, all with one seat.
pub fn begin_node<J: Job, G: Gate>(
    alloc: Global,
    job: &J,
    least: u64,
    part: &Part,
    word: &StopWord,
    seat: &mut StopSeat,
    log: &mut WorkerLog<J::State>,
    gate: &G,
) -> Result<(), NoMemory>
    requires word { seat.old.word ≡ word.now }
    requires least { 1 ≤ least }
    requires part { IsNode (J.lens job.now) least part.now }
    ensures word { seat.new.word ≡ seat.old.word }
    ensures weight { seat.new.weight ≡ seat.old.weight }
    ensures log { OnOk result (LogsNode (J.stands job.now) (J.lens job.now) least part.now
        seat.old seat.new log.old log.new) }
{
    let Some(halves) = begin_or_halve(alloc, job, least, part, word, seat, log, gate)? else {
        return Ok(());
    };
    begin_node(alloc, job, least, &halves.0, word, seat, log, gate)?;
    begin_node(alloc, job, least, &halves.1, word, seat, log, gate)
}
