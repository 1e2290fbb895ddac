//! A thief's end of a deque.

ghost use Rattle.std.specs.Prelude.{◌≡◌, ◌≤◌, ◌*◌, IfSome, IfNone, IfOk, OnOk, OnErr};
ghost use Rattle.splittable.specs.Nodes.{IsNode};
ghost use Rattle.part_deque.specs.Steps.{right_weight};
ghost use Rattle.part_deque.specs.Ends.{SameThief, after_steal, after_missed_steal, after_split, split_off};

use crate::account::{Right, RuledStealer, Stealing};
use crossbeam_deque::Steal;
use no_memory::NoMemory;
use splittable::Part;
use std::alloc::Global;
use std::marker::Model;

/// The weight of one right, 2,097,152. A thief's end that weighs less than twice this has a single right, and can't be split.
pub const RIGHT_WEIGHT: u64 = 2097152;

/// How many rights the thieves of one deque have together: there are at most as many such ends at a time.
pub const RIGHTS: u64 = 1024;

/// An end of a deque that takes parts at the front. Threads may have any number of them, up to [`RIGHTS`].
///
/// Contracts see its `deque`, the crew's shape as `lens` and its `least` part size, its `weight`, the parts that it has `taken`,
/// how many it has `stolen`, and its `misses`. At run time none of these lists is there.
#[derive(Drop)]
pub struct PartThief {
    pub(crate) stealer: RuledStealer,
    // The right by which it steals.
    pub(crate) right: Right,
    // Rights by which nothing was done, to give away. They take no bytes.
    pub(crate) spare: Vec<Right>,
    pub(crate) misses: u64,
}

impl Model for PartThief {
    ghost use Rattle.part_deque.specs.Ends.{ThiefEnd};

    ghost Value = { ThiefEnd };

    ghost use Rattle.part_deque.specs.Fields.{thief_state, IsThief};

    ghost view = { thief_state };

    ghost invariant = { IsThief };
}

impl PartThief {
    /// Takes the part at the front, a node for the deque's shape and least part size.
    ///
    /// None raises `misses`. It comes where the kit's deque found nothing or lost a race; no clause ties it to what the deque
    /// holds.
    pub fn steal(&mut self) -> Option<Part>
        ensures same { SameThief self.old self.new }
        ensures some { IfSome result (λ part. self.new ≡ after_steal self.old part) }
        ensures node { IfSome result (IsNode self.old.lens self.old.least) }
        ensures none { IfNone result (self.new ≡ after_missed_steal self.old) }
    {
        match self.stealer.steal_as::<Stealing>(&mut self.right) {
            Steal::Success(part) => Some(part),
            Steal::Empty | Steal::Retry => {
                self.misses = self.misses.saturating_add(1);
                None
            }
        }
    }

    /// A new end with half of this end's weight, rounded down, that took nothing yet.
    ///
    /// An end of a single right can't be split: it weighs [`RIGHT_WEIGHT`], and [`PartThief::weight`] is the test. Refused for
    /// want of memory, the end is as before.
    pub fn split(&mut self, _alloc: Global) -> Result<PartThief, NoMemory>
        requires rights { 2 * right_weight ≤ self.old.weight }
        ensures new { IfOk result (λ end. end ≡ split_off self.old) }
        ensures left { OnOk result (self.new ≡ after_split self.old) }
        ensures refused { OnErr result (self.new ≡ self.old) }
    {
        // The stealer's handle takes its memory from the deque's own heap.
        let stealer = self.stealer.clone()?;
        let mut spare = self.spare.split_off(self.spare.len() / 2)?;
        let Some(right) = spare.pop() else {
            unreachable!()
        };
        Ok(PartThief {
            stealer,
            right,
            spare,
            misses: 0,
        })
    }

    /// The end's weight, how much it has of the right to know the whole deque: [`RIGHT_WEIGHT`] for each of its rights.
    pub fn weight(&self) -> u64
        ensures value { result ≡ self.now.weight }
        ensures least { right_weight ≤ result }
    {
        (self.spare.len() as u64 + 1) * RIGHT_WEIGHT
    }

    /// How many steals gave nothing. The count stands still at 2^64 - 1.
    pub fn misses(&self) -> u64
        ensures { result ≡ self.now.misses }
    {
        self.misses
    }
}
