//! Shares of a weight: the seats of the stop word and a deque's ends for thieves, one for each worker.

ghost use Rattle.std.specs.Prelude.{◌≡◌, ◌≤◌, OnOk};
ghost use Rattle.fold_steal.specs.Cuts.{HasAdded, CanSpread, IsFreshStop, IsFreshEnd};

use no_memory::NoMemory;
use part_deque::PartThief;
use std::alloc::Global;
use stop_word::{StopSeat, StopWord};

/// Cuts a stop seat into so many, by halves.
pub(crate) fn cut_stops(
    word: &StopWord,
    mut stop: StopSeat,
    many: u32,
    stops: &mut Vec<StopSeat>,
) -> Result<(), NoMemory>
    requires fresh { IsFreshStop word.now stop }
    requires many { (1 ≤ many) × (many ≤ stop.weight) }
    ensures { OnOk result (HasAdded (IsFreshStop word.now) (λ s. s.weight) many stop.weight
        stops.old.items stops.new.items) }
{
    if many == 1 {
        stops.push(stop)?;
        return Ok(());
    }
    let other = word.split(&mut stop);
    let half = many / 2;
    cut_stops(word, stop, many - half, stops)?;
    cut_stops(word, other, half, stops)
}

/// Cuts a thief's end into so many, by halves.
pub(crate) fn cut_ends(
    alloc: Global,
    mut thief: PartThief,
    many: u32,
    ends: &mut Vec<PartThief>,
) -> Result<(), NoMemory>
    requires fresh { IsFreshEnd thief.deque thief.lens thief.least thief }
    requires many { 1 ≤ many }
    requires rights { CanSpread many thief }
    ensures { OnOk result (HasAdded (IsFreshEnd thief.deque thief.lens thief.least) (λ t. t.weight)
        many thief.weight ends.old.items ends.new.items) }
{
    if many == 1 {
        ends.push(thief)?;
        return Ok(());
    }
    let other = thief.split(alloc)?;
    let half = many / 2;
    cut_ends(alloc, thief, many - half, ends)?;
    cut_ends(alloc, other, half, ends)
}
