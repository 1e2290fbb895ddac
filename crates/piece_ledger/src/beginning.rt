//! How a part is begun.

ghost use Rattle.std.specs.Prelude.{◌≡◌, ◌<◌, ◌≤◌, ◌+◌, ◌++◌, ◌∷◌, [], ℕ, List, length, IfOk, OnErr};
ghost use Rattle.std.specs.List.{All};
ghost use Rattle.std.specs.Vec.{vec_len, vec_capacity};
ghost use Rattle.splittable.specs.Nodes.{IsNode};
ghost use Rattle.stop_word.specs.Numbers.{no_stop};
ghost use Rattle.piece_ledger.specs.Outcomes.{stops_of_answer};
ghost use Rattle.piece_ledger.specs.Beginning.{IsBegun, IsRefused};

use super::gates::Gate;
use super::outcomes::{Outcome, OutcomeKind, WorkerLog};
use fold_seq::{Job, Reduced};
use no_memory::NoMemory;
use splittable::Part;
use std::alloc::Global;
use stop_word::{StopSeat, StopWord};

/// What became of a part that was begun.
#[derive(Clone, Copy, Debug, PartialEq, Eq)]
pub enum Begun {
    /// A stop lies left of it. The skip is logged.
    Skipped,
    /// It is longer than the least part size. Nothing is logged.
    Longer,
    /// It was run, and is logged.
    Ran,
}

/// Reports where an answer stopped or faulted, if it did.
fn report_stop<S>(word: &StopWord, seat: &mut StopSeat, answer: &Reduced<S>)
    requires word { seat.old.word ≡ word.now }
    requires place { All (λ at. at < no_stop) (stops_of_answer answer.now) }
    ensures word { seat.new.word ≡ seat.old.word }
    ensures weight { seat.new.weight ≡ seat.old.weight }
    ensures reported { seat.new.reported ≡ seat.old.reported ++ stops_of_answer answer.now }
    ensures seen { (told : List ℕ) × (seat.new.seen ≡ seat.old.seen ++ told)
        × (length told ≡ length (stops_of_answer answer.now)) }
{
    match answer {
        Reduced::Going(_) => {}
        Reduced::Stopped { at, .. } => {
            word.report(seat, *at);
        }
        Reduced::Faulted { at, .. } => {
            word.report(seat, *at);
        }
    }
}

/// Puts an outcome last, where there is room for it.
fn put_last<S: Drop>(outcomes: &mut Vec<Outcome<S>>, part: Part, kind: OutcomeKind<S>)
    requires room { vec_len outcomes.old + 1 ≤ vec_capacity outcomes.old }
    ensures { outcomes.new.items ≡
        outcomes.old.items ++ (record { part = part; kind = kind }) ∷ [] }
{
    let Ok(()) = outcomes.push(Outcome { part, kind }) else {
        unreachable!()
    };
}

/// Begins a part: a node of the job's shape for `least`.
///
/// Room for one outcome in the log is made first. Then the stop word is loaded, once. Where the number is left of the part, the
/// part is skipped, and the skip is logged. Else a part that is longer than `least` is left as it is. A leaf is run, after
/// the gate was called, and logged, and where it stopped or faulted, its place is reported. For want of memory the log is as
/// before and nothing was reported, but the word may have been loaded.
pub fn begin_part<J: Job, G: Gate>(
    alloc: Global,
    job: &J,
    least: u64,
    part: &Part,
    word: &StopWord,
    seat: &mut StopSeat,
    log: &mut WorkerLog<J::State>,
    worker: u32,
    gate: &G,
) -> Result<Begun, NoMemory>
    requires word { seat.old.word ≡ word.now }
    requires part { IsNode (J.lens job.now) least part.now }
    ensures word { seat.new.word ≡ seat.old.word }
    ensures weight { seat.new.weight ≡ seat.old.weight }
    ensures begun { IfOk result (IsBegun (J.stands job.now) least part.now
        seat.old seat.new log.old log.new) }
    ensures refused { OnErr result (IsRefused seat.old seat.new log.old log.new) }
{
    log.outcomes.reserve(1)?;
    let seen = word.seen(seat);
    if seen < part.first() {
        put_last(&mut log.outcomes, *part, OutcomeKind::Skipped { seen });
        return Ok(Begun::Skipped);
    }
    if part.len() > least {
        return Ok(Begun::Longer);
    }
    gate.at_part(worker, part.first());
    let answer = job.run_part(alloc, part)?;
    report_stop(word, seat, &answer);
    put_last(&mut log.outcomes, *part, OutcomeKind::Ran(answer));
    Ok(Begun::Ran)
}
