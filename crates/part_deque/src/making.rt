//! A new deque.

ghost use Rattle.std.specs.Prelude.{◌≡◌, ◌≤◌, ◌+◌, ℕ, [], IfOk, OnOk};
ghost use Rattle.std.specs.Vec.{vec_len};
ghost use Rattle.crossbeam_deque.specs.Handles.{worker_port, worker_view, worker_index, SameWorker};
ghost use Rattle.part_deque.specs.Rule.{whole_weight};
ghost use Rattle.part_deque.specs.Rights.{all_rights, AreCut, LostRights};
ghost use Rattle.part_deque.specs.Steps.{right_weight};
ghost use Rattle.part_deque.specs.Ends.{AreNew};

use crate::account::{Crew, Cutting, Opening, Right, RuledWorker};
use crate::owner::PartOwner;
use crate::thief::{PartThief, RIGHTS};
use no_memory::NoMemory;
use splittable::Shape;
use std::alloc::Global;
use std::marker::Brand;

/// How many parts the first ring of a deque takes. A deque that a crew fills and empties seldom needs another.
const CAPACITY: usize = 64;

/// Half of the weight of all ends.
const HALF: u64 = 2147483648;

/// An empty deque for the parts of a shape, with this least part size, which is at least 1. Each end has half of the weight of
/// 4,294,967,296, and no misses.
pub fn part_deque(
    alloc: Global,
    shape: &Shape,
    least: u64,
) -> Result<(PartOwner, PartThief), NoMemory>
    requires least { 1 ≤ least }
    ensures { IfOk result (λ ends. AreNew shape.now least ends.0 ends.1) }
{
    make::<Brand>(alloc, shape, least)
}

// The same, where the type of the deque's first step names the crew.
#[tactic(auto, using(crate::proofs::Keeps::begins))]
fn make<C: Crew>(
    alloc: Global,
    shape: &Shape,
    least: u64,
) -> Result<(PartOwner, PartThief), NoMemory>
    requires lens { C.lens ≡ shape.now }
    requires least { C.least ≡ least }
    ensures { IfOk result (λ ends. AreNew shape.now least ends.0 ends.1) }
{
    let mut worker = RuledWorker::lifo_as(alloc, CAPACITY)?;
    let stealer = worker.stealer()?;
    let right = worker.another::<Opening<C>>();
    let mut spare = Vec::new(alloc);
    cut_rights(&mut worker, &mut spare)?;
    let owner = PartOwner {
        worker,
        weight: HALF,
        misses: 0,
    };
    let thief = PartThief {
        stealer,
        right,
        spare,
        misses: 0,
    };
    Ok((owner, thief))
}

// Cuts all rights of the thieves but the first, which the making of the deque cut.
fn cut_rights(worker: &mut RuledWorker, spare: &mut Vec<Right>) -> Result<(), NoMemory>
    requires owner { worker_port worker.old ≡ 0 }
    requires weight { (worker_view worker.old).weight + right_weight ≡ whole_weight }
    requires none { spare.old.items ≡ [] }
    ensures same { OnOk result (SameWorker worker.old worker.new) }
    ensures index { OnOk result (worker_index worker.new ≡ worker_index worker.old) }
    ensures view { OnOk result (LostRights (worker_view worker.old) (worker_view worker.new)) }
    ensures spare { OnOk result (AreCut worker.old spare.new.items) }
    ensures many { OnOk result (vec_len spare.new + 1 ≡ all_rights) }
{
    for _ in 1..RIGHTS {
        spare.push(worker.another::<Cutting>())?;
    }
    Ok(())
}
