//! The owner's end of a deque.

ghost use Rattle.std.specs.Prelude.{◌≡◌, ◌<◌, ◌≤◌, ◌↔◌, ◌++◌, ◌∷◌, [], length, IsNone, IfSome, IfErr, IfNone, OnOk, OnErr};
ghost use Rattle.std.specs.Vec.{vec_len};
ghost use Rattle.crossbeam_deque.specs.Handles.{worker_deque, worker_port, worker_view, worker_index, SameWorker};
ghost use Rattle.splittable.specs.Nodes.{IsNode};
ghost use Rattle.part_deque.specs.Rule.{whole_weight};
ghost use Rattle.part_deque.specs.Rights.{AreSpare};
ghost use Rattle.part_deque.specs.Steps.{with_rights};
ghost use Rattle.part_deque.specs.Ends.{SameOwner, AllStolen, AllTaken, after_push, after_pop, after_missed_pop, after_join};
ghost use Rattle.part_deque.specs.Ends.{first_capacity};

use crate::account::{Joining, Popping, Pushing, Right, RuledWorker, Weighing};
use crate::thief::PartThief;
use splittable::Part;
use std::marker::Model;

/// The end of a deque that pushes and pops, at the back. One thread has it.
///
/// Contracts see its `deque`, the crew's shape as `lens` and its `least` part size, its `weight`, the parts that it `pushed` and
/// has `taken`, the parts `kept` by its pushes and pops, how many of the taken ones were `stolen` by ends that it took in, and
/// its `misses`. At run time none of these lists is there.
#[derive(Drop)]
pub struct PartOwner {
    pub(crate) worker: RuledWorker,
    pub(crate) weight: u64,
    pub(crate) misses: u64,
}

impl Model for PartOwner {
    ghost use Rattle.part_deque.specs.Ends.{OwnerEnd};

    ghost Value = { OwnerEnd };

    ghost use Rattle.part_deque.specs.Fields.{owner_state, IsOwner};

    ghost view = { owner_state };

    ghost invariant = { IsOwner };
}

impl PartOwner {
    /// Pushes a part at the back, a node for the deque's shape and least part size.
    ///
    /// The first 64 pushes succeed. A later one may be refused, for want of memory; it gives the part back and changes nothing.
    pub fn push(&mut self, part: Part) -> Result<(), Part>
        requires node { IsNode self.old.lens self.old.least part }
        ensures same { SameOwner self.old self.new }
        ensures ok { OnOk result (self.new ≡ after_push self.old part) }
        ensures refused { OnErr result (self.new ≡ self.old) }
        ensures back { IfErr result (λ back. back ≡ part) }
        ensures full { OnErr result (first_capacity ≤ length self.old.pushed) }
    {
        self.worker.push_as::<Pushing>(part)
    }

    /// Pops a part at the back, the last of those that are kept. It is a node for the deque's shape and least part size.
    ///
    /// None raises `misses`. With the whole weight it comes exactly where all parts that are kept were stolen, and then what was
    /// taken is, as often, what was pushed.
    pub fn pop(&mut self) -> Option<Part>
        ensures same { SameOwner self.old self.new }
        ensures some { IfSome result (λ part. self.new ≡ after_pop self.old part self.new.kept) }
        ensures last { IfSome result (λ part. self.old.kept ≡ self.new.kept ++ part ∷ []) }
        ensures node { IfSome result (IsNode self.old.lens self.old.least) }
        ensures none { IfNone result (self.new ≡ after_missed_pop self.old) }
        ensures gone { self.old.weight ≡ whole_weight → IsNone result ↔ AllStolen self.old }
        ensures settled { self.old.weight ≡ whole_weight → IfNone result (AllTaken self.old) }
    {
        let part = self.worker.pop_as::<Popping>();
        if part.is_none() {
            self.misses = self.misses.saturating_add(1);
        }
        part
    }

    /// Takes in a thief's end of this deque: its weight, what it took and how many it stole. The thief's end is no more.
    pub fn join(&mut self, thief: PartThief)
        requires deque { thief.deque ≡ self.old.deque }
        ensures { self.new ≡ after_join self.old thief }
    {
        let weight = thief.weight();
        let PartThief {
            stealer: _,
            right,
            spare,
            misses: _,
        } = thief;
        self.worker.absorb::<Joining>(right);
        absorb_all(&mut self.worker, spare);
        self.worker.len_as::<Weighing>();
        self.weight += weight;
    }

    /// The end's weight, at least 1: how much it has of the right to know the whole deque. With 4,294,967,296 it has all of it.
    pub fn weight(&self) -> u64
        ensures value { result ≡ self.now.weight }
        ensures some { 1 ≤ result }
    {
        self.weight
    }

    /// How many pops gave nothing. The count stands still at 2^64 - 1.
    pub fn misses(&self) -> u64
        ensures { result ≡ self.now.misses }
    {
        self.misses
    }
}

// Takes in rights by which nothing was done.
fn absorb_all(worker: &mut RuledWorker, mut spare: Vec<Right>)
    requires owner { (worker_port worker.old ≡ 0) × (0 < (worker_view worker.old).weight) }
    requires spare { AreSpare (worker_deque worker.old) spare.items }
    ensures same { SameWorker worker.old worker.new }
    ensures index { worker_index worker.new ≡ worker_index worker.old }
    ensures view { worker_view worker.new ≡ with_rights (worker_view worker.old) (vec_len spare) }
{
    while let Some(right) = spare.pop() {
        worker.absorb::<Joining>(right);
    }
}
