//! Seats that take turns in an order that is told, on one thread.

ghost use Rattle.std.specs.Prelude.{◌≡◌, ◌≤◌, length, IfOk};
ghost use Rattle.std.specs.List.{All};
ghost use Rattle.number_ranges.specs.Ranges.{most_items};
ghost use Rattle.fold_steal.specs.Crews.{AreAll, all_fixed};
ghost use Rattle.fold_steal.specs.Working.{MayTurn};

use fold_seq::{Job, Reduced};
use fold_steal::{StealCrew, StealSeat, Turn};
use no_memory::NoMemory;
use piece_ledger::{OpenGate, Tally, WorkerLog};
use std::alloc::Global;

/// A crew and its seats.
pub type Made<S> = (StealCrew, Vec<StealSeat<S>>);

/// Lets one seat take a turn. None where there is no such seat.
fn turn_at<J: Job>(
    alloc: Global,
    job: &J,
    crew: &StealCrew,
    seats: &mut Vec<StealSeat<J::State>>,
    number: usize,
) -> Result<Option<Turn>, NoMemory>
    requires shape { J.lens job.now ≡ crew.now.lens }
    requires may { All (MayTurn crew.now (J.stands job.now)) seats.old.items }
    ensures same { all_fixed seats.new.items ≡ all_fixed seats.old.items }
    ensures may { All (MayTurn crew.now (J.stands job.now)) seats.new.items }
{
    if number >= seats.len() {
        return Ok(None);
    }
    let seat = &mut seats[number];
    let turn = crew.turn(alloc, job, seat, &OpenGate)?;
    Ok(Some(turn))
}

/// Lets seats take turns in this order, and counts those that did what is wanted of them.
fn play<J: Job>(
    alloc: Global,
    job: &J,
    crew: &StealCrew,
    seats: &mut Vec<StealSeat<J::State>>,
    turns: &[(usize, Turn)],
) -> Result<usize, NoMemory>
    requires shape { J.lens job.now ≡ crew.now.lens }
    requires may { All (MayTurn crew.now (J.stands job.now)) seats.old.items }
    ensures same { all_fixed seats.new.items ≡ all_fixed seats.old.items }
    ensures may { All (MayTurn crew.now (J.stands job.now)) seats.new.items }
    ensures most { IfOk result (λ right. right ≤ length turns.now) }
{
    let mut right = 0;
    for (number, want) in turns {
        if turn_at(alloc, job, crew, seats, *number)? == Some(*want) {
            right += 1;
        }
    }
    Ok(right)
}

/// A crew after these turns, with its seats, and how many of the turns did what is wanted.
fn played<J: Job>(
    alloc: Global,
    job: &J,
    base: u64,
    workers: u32,
    turns: &[(usize, Turn)],
) -> Result<(Made<J::State>, usize), NoMemory>
    requires base { (1 ≤ base) × (base ≤ most_items) }
    requires workers { (1 ≤ workers) × (workers ≤ 32) }
    ensures shape { IfOk result (λ r. J.lens job.now ≡ r.0.0.lens) }
    ensures all { IfOk result (λ r. AreAll r.0.0 (all_fixed r.0.1.items)) }
    ensures may { IfOk result (λ r. All (MayTurn r.0.0 (J.stands job.now)) r.0.1.items) }
{
    let (crew, mut seats) = StealCrew::new(alloc, &job.shape(), base, workers)?;
    let right = play(alloc, job, &crew, &mut seats, turns)?;
    Ok(((crew, seats), right))
}

/// What a crew gives that is finished after these turns, and how many of the turns did what is wanted.
pub fn finished<J: Job>(
    alloc: Global,
    job: &J,
    base: u64,
    workers: u32,
    turns: &[(usize, Turn)],
) -> Result<(Reduced<J::State>, Tally, usize), NoMemory>
    requires base { (1 ≤ base) × (base ≤ most_items) }
    requires workers { (1 ≤ workers) × (workers ≤ 32) }
{
    let ((crew, seats), right) = played(alloc, job, base, workers, turns)?;
    let (answer, tally) = crew.finish(alloc, job, seats, &OpenGate)?;
    Ok((answer, tally, right))
}

/// The logs of a crew that is drained after these turns.
pub fn drained<J: Job>(
    alloc: Global,
    job: &J,
    base: u64,
    workers: u32,
    turns: &[(usize, Turn)],
) -> Result<Vec<WorkerLog<J::State>>, NoMemory>
    requires base { (1 ≤ base) × (base ≤ most_items) }
    requires workers { (1 ≤ workers) × (workers ≤ 32) }
{
    let ((crew, seats), _) = played(alloc, job, base, workers, turns)?;
    crew.drain(alloc, job, seats, &OpenGate)
}
