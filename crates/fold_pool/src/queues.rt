//! The queue that threads share.

ghost use Rattle.std.specs.Prelude.{◌≡◌, ◌<◌, ◌≤◌, ◌+◌, ◌-◌, ◌/◌, [], ◌∷◌, ◌++◌, length};
ghost use Rattle.std.specs.Prelude.{slice_get, Some, IfOk, IfSome, IfNone, IsPermutation};
ghost use Rattle.std.specs.List.{All};
ghost use Rattle.splittable.specs.Nodes.{IsLeaf};
ghost use Rattle.fold_pool.specs.Taken.{whole_weight, AreFirst};

use super::WHOLE;
use super::filling::{fill, tell};
use super::seats::QueueSeat;
use super::views::{Halves, Line, Looks, Takes, Together};
use no_memory::NoMemory;
use splittable::{Part, Shape};
use std::alloc::Global;
use std::marker::{Brand, Model};
use std::sync::Wait;

/// A queue of leaves, which threads share.
///
/// Contracts see which queue it is, and nothing of what it holds at a moment, since any thread may change it.
#[derive(Drop)]
pub struct LeafQueue {
    line: Line,
}

impl Model for LeafQueue {
    ghost use Rattle.atomic_table.specs.Seated.{TableId};

    ghost Value = { TableId };

    ghost view = { λ q. q.line.table.shared.table_id };
}

impl LeafQueue {
    /// A queue of these leaves, the first at its front, and its first seat, which has the whole weight and has put them.
    pub fn new<W: Wait>(
        wait: &W,
        alloc: Global,
        shape: &Shape,
        least: u64,
        leaves: &[Part],
    ) -> Result<(LeafQueue, QueueSeat), NoMemory>
        requires leaves { All (IsLeaf shape.now least) leaves.now }
        ensures queue { IfOk result (λ r. r.1.queue ≡ r.0) }
        ensures weight { IfOk result (λ r. r.1.weight ≡ whole_weight) }
        ensures leaves { IfOk result (λ r. (r.1.shape ≡ shape.now) × (r.1.least ≡ least)) }
        ensures put { IfOk result (λ r. r.1.put ≡ leaves.now) }
        ensures taken { IfOk result (λ r. r.1.taken ≡ []) }
    {
        let (line, mut pass) = Line::ruled(alloc, leaves.len() + 1)?;
        tell::<Brand>(&line, &mut pass, shape, least);
        let pass = fill(wait, &line, pass, shape, least, leaves);
        let seat = QueueSeat {
            pass,
            weight: WHOLE,
        };
        Ok((LeafQueue { line }, seat))
    }

    /// Takes the part at the front, in one atomic step, or answers None where the queue was empty at one moment of the call.
    /// With the whole weight the part is the first of those that are left, and None comes exactly where all are taken.
    pub fn pop<W: Wait>(&self, wait: &W, seat: &mut QueueSeat) -> Option<Part>
        requires queue { seat.old.queue ≡ self.now }
        ensures queue { seat.new.queue ≡ seat.old.queue }
        ensures weight { seat.new.weight ≡ seat.old.weight }
        ensures leaves { (seat.new.shape ≡ seat.old.shape) × (seat.new.least ≡ seat.old.least) }
        ensures put { seat.new.put ≡ seat.old.put }
        ensures taken { IfSome result (λ part. seat.new.taken ≡ seat.old.taken ++ part ∷ []) }
        ensures leaf { IfSome result (λ part. IsLeaf seat.old.shape seat.old.least part) }
        ensures first { IfSome result (λ part. seat.old.weight ≡ whole_weight →
            slice_get seat.old.put (length seat.old.taken) ≡ Some part) }
        ensures none { IfNone result (seat.new.taken ≡ seat.old.taken) }
        ensures all { IfNone result (seat.old.weight ≡ whole_weight →
            IsPermutation seat.old.taken seat.old.put) }
        ensures whole { seat.new.weight ≡ whole_weight → AreFirst seat.new.put seat.new.taken }
    {
        self.line.pop_as::<Takes, W>(wait, &mut seat.pass)
    }

    /// A new seat, which gets half of the weight, rounded down, and has put and taken nothing.
    pub fn split(&self, seat: &mut QueueSeat) -> QueueSeat
        requires queue { seat.old.queue ≡ self.now }
        requires weight { 2 ≤ seat.old.weight }
        ensures queue { (seat.new.queue ≡ seat.old.queue) × (result.queue ≡ seat.old.queue) }
        ensures weight { (seat.new.weight ≡ seat.old.weight - seat.old.weight / 2)
            × (result.weight ≡ seat.old.weight / 2) }
        ensures leaves { (seat.new.shape ≡ seat.old.shape) × (seat.new.least ≡ seat.old.least)
            × (result.shape ≡ seat.old.shape) × (result.least ≡ seat.old.least) }
        ensures put { (seat.new.put ≡ seat.old.put) × (result.put ≡ []) }
        ensures taken { (seat.new.taken ≡ seat.old.taken) × (result.taken ≡ []) }
    {
        let half = seat.weight / 2;
        let pass = self.line.another::<Halves>(&mut seat.pass);
        seat.weight -= half;
        QueueSeat { pass, weight: half }
    }

    /// Puts two seats together: their weights are added, and the second's lists follow the first's.
    pub fn join(&self, seat: &mut QueueSeat, other: QueueSeat)
        requires queue { (seat.old.queue ≡ self.now) × (other.queue ≡ self.now) }
        ensures queue { seat.new.queue ≡ seat.old.queue }
        ensures weight { seat.new.weight ≡ seat.old.weight + other.weight }
        ensures leaves { (seat.new.shape ≡ seat.old.shape) × (seat.new.least ≡ seat.old.least) }
        ensures put { seat.new.put ≡ seat.old.put ++ other.put }
        ensures taken { seat.new.taken ≡ seat.old.taken ++ other.taken }
        ensures whole { seat.new.weight ≡ whole_weight → AreFirst seat.new.put seat.new.taken }
    {
        let QueueSeat {
            pass: other,
            weight,
        } = other;
        self.line.absorb::<Together>(&mut seat.pass, other);
        // A join tells nothing of the rule. This look does: the weights together are at most the whole.
        self.line.learn_as::<Looks>(&mut seat.pass);
        seat.weight += weight;
    }

    /// Ends the queue. What was taken are, as often, the first of the parts that were put.
    pub fn close(self, seat: QueueSeat)
        requires queue { seat.queue ≡ self }
        requires whole { seat.weight ≡ whole_weight }
        ensures { AreFirst seat.put seat.taken }
    {
        let _ = seat.weight;
    }
}
