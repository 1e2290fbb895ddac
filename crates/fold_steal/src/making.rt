//! A new crew and its seats.

ghost use Rattle.std.specs.Prelude.{◌≡◌, ◌≤◌, ◌<◌, [], length, take, drop, option_to_list, IfOk, OnOk};
ghost use Rattle.std.specs.List.{AllByRecursion};
ghost use Rattle.number_ranges.specs.Ranges.{most_items};
ghost use Rattle.splittable.specs.Places.{item_count};
ghost use Rattle.splittable.specs.Nodes.{IsNode, least_part_of};
ghost use Rattle.part_deque.specs.Ends.{half_weight};
ghost use Rattle.piece_ledger.specs.Folded.{least_for};
ghost use Rattle.fold_steal.specs.Crews.{AreAll, all_fixed};
ghost use Rattle.fold_steal.specs.Deals.{first_deal, IsDealt, push_column};
ghost use Rattle.fold_steal.specs.Joins.{rows_of};
ghost use Rattle.fold_steal.specs.Cuts.{IsFreshStop, IsFreshEnd};
ghost use Rattle.fold_steal.specs.NewSeats.{IsStarted, IsNewEnd, AreStops, AreDeques, crew_with, IsNewSeat, AreNewSeats};
ghost use Rattle.fold_steal.specs.NewSeats.{HasEnds, HaveEnds, AreAllWhereAlone};

use super::crew::StealCrew;
use super::cutting::{cut_ends, cut_stops};
use super::dealing::deal;
use super::seats::{Held, StealSeat};
use arrayvec::ArrayVec;
use no_memory::NoMemory;
use part_deque::{PartOwner, PartThief, part_deque};
use piece_ledger::WorkerLog;
use splittable::{Part, Shape, least_part};
use std::alloc::Global;
use stop_word::{StopSeat, StopWord};

/// The part at a place, if there is one.
fn part_at(parts: &[Part], k: usize) -> Option<Part>
    ensures { option_to_list result ≡ take 1 (drop k parts.now) }
{
    if k < parts.len() {
        Some(parts[k])
    } else {
        None
    }
}

/// A new deque, on which the part that was dealt lies.
fn new_deque(
    alloc: Global,
    shape: &Shape,
    least: u64,
    dealt: Option<Part>,
) -> Result<(PartOwner, PartThief), NoMemory>
    requires least { 1 ≤ least }
    requires node { AllByRecursion (IsNode shape.now least) (option_to_list dealt) }
    ensures owner { IfOk result (λ ends. IsStarted shape.now least (option_to_list dealt) ends.0) }
    ensures thief { IfOk result (λ ends. IsFreshEnd ends.0.deque shape.now least ends.1) }
    ensures weight { IfOk result (λ ends. ends.1.weight ≡ half_weight) }
{
    let (mut owner, thief) = part_deque(alloc, shape, least)?;
    match dealt {
        Some(part) => {
            // The first pushes of a deque succeed.
            let Ok(()) = owner.push(part) else {
                unreachable!()
            };
            Ok((owner, thief))
        }
        None => Ok((owner, thief)),
    }
}

/// So many rows with no end yet.
fn empty_rows(alloc: Global, workers: u32) -> Result<Vec<Vec<PartThief>>, NoMemory>
    ensures none { IfOk result (λ rows. AllByRecursion (λ row. row ≡ []) (rows_of rows)) }
    ensures many { IfOk result (λ rows. length (rows_of rows) ≡ workers) }
{
    let mut rows = Vec::new(alloc);
    for _ in 0..workers {
        rows.push(Vec::new(alloc))?;
    }
    Ok(rows)
}

/// Gives each row one of the ends, in order. There are as many of one as of the other.
fn hand_out(rows: &mut Vec<Vec<PartThief>>, mut ends: Vec<PartThief>) -> Result<(), NoMemory>
    requires many { length ends.items ≡ length (rows_of rows.old) }
    ensures { OnOk result (rows_of rows.new ≡ push_column (rows_of rows.old) ends.items) }
{
    for k in 0..rows.len() {
        let row = &mut rows[k];
        row.push(ends.remove(0))?;
    }
    Ok(())
}

/// A deque for each worker, on which its part of the first deal lies, and a row of thieves' ends for each, one on each deque.
fn make_deques(
    alloc: Global,
    shape: &Shape,
    least: u64,
    parts: &[Part],
    workers: u32,
) -> Result<(Vec<PartOwner>, Vec<Vec<PartThief>>), NoMemory>
    requires least { 1 ≤ least }
    requires nodes { AllByRecursion (IsNode shape.now least) parts.now }
    requires workers { (1 ≤ workers) × (workers ≤ 32) }
    ensures { IfOk result (λ r. AreDeques shape.now least parts.now workers workers
        r.0.items (rows_of r.1)) }
{
    let mut owners = Vec::new(alloc);
    let mut rows = empty_rows(alloc, workers)?;
    for number in 0..workers {
        let dealt = part_at(parts, number as usize);
        let (owner, thief) = new_deque(alloc, shape, least, dealt)?;
        owners.push(owner)?;
        let mut ends = Vec::new(alloc);
        cut_ends(alloc, thief, workers, &mut ends)?;
        hand_out(&mut rows, ends)?;
    }
    Ok((owners, rows))
}

/// A seat that takes no turn yet, with the part that was dealt to it, which lies on its deque.
fn seat_one<S: Drop>(
    alloc: Global,
    number: u32,
    dealt: Option<Part>,
    stop: StopSeat,
    owner: PartOwner,
    thieves: Vec<PartThief>,
) -> StealSeat<S>
    requires large { least_part_of 1 (item_count owner.lens) ≤ owner.least }
    requires started { IsStarted owner.lens owner.least (option_to_list dealt) owner }
    requires ends { AllByRecursion (IsNewEnd owner.lens owner.least) thieves.items }
    requires number { number < length thieves.items }
    requires stop { IsFreshStop stop.word stop }
    requires alone { AreAllWhereAlone owner.lens (length thieves.items) (option_to_list dealt) }
    ensures seat { IsNewSeat (crew_with owner.lens owner.least stop.word) number
        (option_to_list dealt) result }
    ensures ends { HasEnds stop owner thieves.items result }
{
    StealSeat {
        held: Held {
            number,
            dealt,
            stack: ArrayVec::new(),
            log: WorkerLog::new(alloc),
            stop,
            owner,
            thieves,
        },
    }
}

impl StealCrew {
    /// A seat for each worker, with its stop seat, its owner's end and its row of thieves' ends.
    fn seat_all<S: Drop>(
        &self,
        alloc: Global,
        parts: &[Part],
        mut stops: Vec<StopSeat>,
        mut owners: Vec<PartOwner>,
        mut rows: Vec<Vec<PartThief>>,
        workers: u32,
    ) -> Result<Vec<StealSeat<S>>, NoMemory>
        requires large { least_part_of 1 (item_count self.now.lens) ≤ self.now.least }
        requires dealt { IsDealt self.now.lens self.now.least workers parts.now }
        requires stops { AreStops self.now.word workers stops.items }
        requires deques { AreDeques self.now.lens self.now.least parts.now workers workers
            owners.items (rows_of rows) }
        ensures seats { IfOk result (λ seats. AreNewSeats self.now 0 parts.now seats.items) }
        ensures ends { IfOk result (λ seats. HaveEnds stops.items owners.items (rows_of rows)
            seats.items) }
    {
        let mut seats = Vec::new(alloc);
        for number in 0..workers {
            let dealt = part_at(parts, number as usize);
            let stop = stops.remove(0);
            let owner = owners.remove(0);
            let thieves = rows.remove(0);
            seats.push(seat_one(alloc, number, dealt, stop, owner, thieves))?;
        }
        Ok(seats)
    }

    /// A crew of 1 to 32 workers for the parts of a shape, and its seats, one for each worker, in the order of their numbers.
    ///
    /// The least part size is `least_part(base, count)`, `base` being from 1 to 4,294,967,296. The first deal: the list holds the
    /// whole; while it has fewer nodes than there are workers and a node longer than the least part size, the first of its
    /// longest nodes is replaced by its two halves. The i-th node is dealt to the i-th worker and lies on its deque. An empty
    /// shape deals nothing. This call takes all the crew's memory; refused, nothing is left of it.
    pub fn new<S: Drop>(
        alloc: Global,
        shape: &Shape,
        base: u64,
        workers: u32,
    ) -> Result<(StealCrew, Vec<StealSeat<S>>), NoMemory>
        requires base { (1 ≤ base) × (base ≤ most_items) }
        requires workers { (1 ≤ workers) × (workers ≤ 32) }
        ensures shape { IfOk result (λ r. r.0.lens ≡ shape.now) }
        ensures least { IfOk result (λ r. r.0.least ≡ least_for base shape.now) }
        ensures many { IfOk result (λ r. length r.1.items ≡ workers) }
        ensures seats { IfOk result (λ r. AreNewSeats r.0 0
            (first_deal r.0.lens r.0.least workers) r.1.items) }
        ensures all { IfOk result (λ r. AreAll r.0 (all_fixed r.1.items)) }
    {
        let least = least_part(base, shape.count());
        let parts = deal(alloc, shape, least, workers)?;
        let (owners, rows) = make_deques(alloc, shape, least, parts.as_slice(), workers)?;
        let (word, stop) = StopWord::new(alloc)?;
        let mut stops = Vec::new(alloc);
        cut_stops(&word, stop, workers, &mut stops)?;
        let crew = StealCrew {
            shape: *shape,
            least,
            word,
        };
        let seats = crew.seat_all(alloc, parts.as_slice(), stops, owners, rows, workers)?;
        Ok((crew, seats))
    }
}
