//! One deque's ends, with one thread and with several: what is pushed comes out once.

ghost use Rattle.std.specs.Prelude.{◌≡◌, ◌≤◌, ◌*◌, IfOk, OnOk, ℕ, List};
ghost use Rattle.std.specs.Thread.{IsSync};
ghost use Rattle.as_often.specs.AsOften.{AreAsOften};
ghost use Rattle.splittable.specs.Nodes.{IsNode};
ghost use Rattle.part_deque.specs.Rule.{whole_weight};
ghost use Rattle.part_deque.specs.Ends.{SameOwner, SameThief};

use no_memory::NoMemory;
use part_deque::{PartOwner, PartThief, RIGHT_WEIGHT};
use splittable::{Part, Splittable};
use std::alloc::Global;
use std::thread::{Threads, join};

#[cfg(test)]
mod tests;

/// Which of 64 parts came out, as bits by their first places, and how many parts that were.
#[derive(Clone, Copy, PartialEq, Eq, Debug)]
pub struct Took {
    pub places: u64,
    pub count: u64,
}

impl Took {
    /// Nothing.
    pub const NOTHING: Took = Took {
        places: 0,
        count: 0,
    };

    /// One part more.
    pub fn with(self, part: Part) -> Took {
        Took {
            places: self.places | 1 << ((part.first() - 1) % 64),
            count: u64::wrapping_add(self.count, 1),
        }
    }

    /// Both together.
    pub fn and(self, other: Took) -> Took {
        Took {
            places: self.places | other.places,
            count: u64::wrapping_add(self.count, other.count),
        }
    }
}

/// Pops until nothing comes. With the whole weight, what was taken is then, as often, what was pushed.
pub fn pop_all(owner: &mut PartOwner) -> Took
    ensures same { SameOwner owner.old owner.new }
    ensures pushed { owner.new.pushed ≡ owner.old.pushed }
    ensures all { owner.old.weight ≡ whole_weight → AreAsOften owner.new.taken owner.new.pushed }
{
    let mut took = Took::NOTHING;
    while let Some(part) = owner.pop() {
        took = took.with(part);
    }
    took
}

/// Steals so many times.
pub fn steal_often(thief: &mut PartThief, times: u64) -> Took
    ensures same { SameThief thief.old thief.new }
{
    let mut took = Took::NOTHING;
    for _ in 0..times {
        if let Some(part) = thief.steal() {
            took = took.with(part);
        }
    }
    took
}

/// Pushes the leaves of a part in order, for a least part size of 1, and says how many pushes were refused.
pub fn push_leaves(owner: &mut PartOwner, part: Part) -> u64
    requires lens { part.lens ≡ owner.old.lens }
    requires node { IsNode part.lens 1 part }
    requires least { owner.old.least ≡ 1 }
    requires some { 1 ≤ part.len }
    ensures same { SameOwner owner.old owner.new }
{
    match part.halve() {
        Some((left, right)) => {
            let refused = push_leaves(owner, left);
            u64::wrapping_add(refused, push_leaves(owner, right))
        }
        None => u64::from(owner.push(part).is_err()),
    }
}

/// Lets so many threads steal while the owner pops, and joins all ends again.
pub fn contend<R: Threads + Sync>(
    rt: &R,
    alloc: Global,
    mut owner: PartOwner,
    mut thief: PartThief,
    thieves: u64,
) -> Result<(PartOwner, Took), NoMemory>
    requires deque { thief.deque ≡ owner.deque }
    ensures deque { IfOk result (λ r. r.0.deque ≡ owner.deque) }
{
    if thieves == 0 || thief.weight() < 2 * RIGHT_WEIGHT {
        let took = steal_often(&mut thief, 3);
        owner.join(thief);
        let more = pop_all(&mut owner);
        return Ok((owner, took.and(more)));
    }
    let mut other = thief.split(alloc)?;
    let fewer = thieves - 1;
    let (left, right) = join(
        rt,
        move || -> Result<(PartOwner, Took), NoMemory>
            requires { IsSync R.row × (thief.deque ≡ owner.deque) }
            ensures { IfOk result (λ r. r.0.deque ≡ owner.deque) }
        { contend(rt, alloc, owner, thief, fewer) },
        move || -> (PartThief, Took)
            ensures { result.0.deque ≡ other.deque }
        {
            let took = steal_often(&mut other, 100);
            (other, took)
        },
    );
    let (mut owner, took) = left?;
    let (other, more) = right;
    owner.join(other);
    Ok((owner, took.and(more)))
}
