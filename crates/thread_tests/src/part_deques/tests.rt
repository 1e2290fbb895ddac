ghost use Rattle.std.specs.Prelude.{◌≡◌, ◌≤◌, IfOk};
ghost use Rattle.splittable.specs.Nodes.{IsNode};

use super::{Took, contend, pop_all, push_leaves, steal_often};
use no_memory::NoMemory;
use part_deque::{PartOwner, PartThief, RIGHT_WEIGHT, part_deque};
use splittable::{Part, Shape};
use std::alloc::Global;
use std::thread::Threads;

const WHOLE: u64 = 4294967296;

/// A deque for so many items and the least part size 1, and their whole.
fn deque_of(alloc: Global, items: u64) -> Result<(PartOwner, PartThief, Part), NoMemory>
    ensures lens { IfOk result (λ made. made.2.lens ≡ made.0.lens) }
    ensures node { IfOk result (λ made. IsNode made.2.lens 1 made.2) }
    ensures least { IfOk result (λ made. made.0.least ≡ 1) }
    ensures some { IfOk result (λ made. 1 ≤ made.2.len) }
    ensures one { IfOk result (λ made. made.1.deque ≡ made.0.deque) }
{
    let Ok(shape) = Shape::new(&[items.min(64)]) else {
        return Err(NoMemory);
    };
    let Some(whole) = shape.whole() else {
        return Err(NoMemory);
    };
    if whole.len() != items.min(64) {
        return Err(NoMemory);
    }
    let (owner, thief) = part_deque(alloc, &shape, 1)?;
    Ok((owner, thief, whole))
}

/// Splits an end that holds more than one right.
fn split_once(alloc: Global, thief: &mut PartThief) -> Result<PartThief, NoMemory>
    ensures { IfOk result (λ end. end.deque ≡ thief.old.deque) }
{
    if thief.weight() < 2 * RIGHT_WEIGHT {
        return Err(NoMemory);
    }
    thief.split(alloc)
}

#[test]
fn a_pop_takes_the_last_and_a_steal_the_first(rt: HostRuntime) -> Result<(), NoMemory> {
    let (mut owner, mut thief, whole) = deque_of(rt.alloc(), 8)?;
    assert_eq!(rt; push_leaves(&mut owner, whole), 0);
    let last = owner.pop().map(|part| (part.first(), part.len()));
    let first = thief.steal().map(|part| (part.first(), part.len()));
    assert_eq!(rt; (last, first), (Some((8, 1)), Some((1, 1))));
    assert_eq!(rt;
        steal_often(&mut thief, 2),
        Took {
            places: 0b110,
            count: 2
        }
    );
    assert_eq!(rt; (owner.weight(), thief.weight()), (WHOLE / 2, WHOLE / 2));
    owner.join(thief);
    assert_eq!(rt;
        pop_all(&mut owner),
        Took {
            places: 0b1111000,
            count: 4
        }
    );
    assert_eq!(rt; owner.weight(), WHOLE);
    Ok(())
}

#[test]
fn each_end_that_was_split_off_steals(rt: HostRuntime) -> Result<(), NoMemory> {
    let (mut owner, mut thief, whole) = deque_of(rt.alloc(), 4)?;
    assert_eq!(rt; push_leaves(&mut owner, whole), 0);
    let mut other = split_once(rt.alloc(), &mut thief)?;
    let mut third = split_once(rt.alloc(), &mut other)?;
    let first = other.steal().map(|part| part.first());
    let second = thief.steal().map(|part| part.first());
    let last = third.steal().map(|part| part.first());
    assert_eq!(rt; (first, second, last), (Some(1), Some(2), Some(3)));
    Ok(())
}

#[test]
fn an_owner_pops_with_more_than_half_of_the_weight(rt: HostRuntime) -> Result<(), NoMemory> {
    let (mut owner, mut thief, whole) = deque_of(rt.alloc(), 8)?;
    assert_eq!(rt; push_leaves(&mut owner, whole), 0);
    let other = split_once(rt.alloc(), &mut thief)?;
    owner.join(other);
    assert!(rt; WHOLE / 2 < owner.weight() && owner.weight() < WHOLE);
    let last = owner.pop().map(|part| part.first());
    let first = thief.steal().map(|part| part.first());
    assert_eq!(rt; (last, first), (Some(8), Some(1)));
    Ok(())
}

#[test]
fn misses_count_what_gave_nothing(rt: HostRuntime) -> Result<(), NoMemory> {
    let (mut owner, mut thief, whole) = deque_of(rt.alloc(), 8)?;
    assert_eq!(rt; (owner.misses(), thief.misses()), (0, 0));
    assert!(rt; owner.pop().is_none() && thief.steal().is_none() && thief.steal().is_none());
    assert_eq!(rt; (owner.misses(), thief.misses()), (1, 2));
    assert_eq!(rt; push_leaves(&mut owner, whole), 0);
    assert!(rt; owner.pop().is_some() && thief.steal().is_some());
    let other = split_once(rt.alloc(), &mut thief)?;
    assert_eq!(rt; (owner.misses(), thief.misses(), other.misses()), (1, 2, 0));
    Ok(())
}

#[test]
fn a_deque_takes_more_parts_than_its_first_capacity(rt: HostRuntime) -> Result<(), NoMemory> {
    let (mut owner, _thief, whole) = deque_of(rt.alloc(), 64)?;
    assert_eq!(rt; push_leaves(&mut owner, whole), 0);
    assert_eq!(rt; push_leaves(&mut owner, whole), 0);
    assert_eq!(rt;
        pop_all(&mut owner),
        Took {
            places: u64::MAX,
            count: 128
        }
    );
    Ok(())
}

#[test]
fn an_end_is_split_down_to_one_right(rt: HostRuntime) -> Result<(), NoMemory> {
    let (mut owner, mut thief, _) = deque_of(rt.alloc(), 8)?;
    let mut splits = 0;
    for _ in 0..100 {
        if thief.weight() < 2 * RIGHT_WEIGHT {
            break;
        }
        let other = thief.split(rt.alloc())?;
        assert_eq!(rt; other.weight(), thief.weight());
        splits = u64::wrapping_add(splits, 1);
    }
    assert_eq!(rt; (splits, thief.weight()), (10, RIGHT_WEIGHT));
    assert!(rt; owner.pop().is_none());
    Ok(())
}

/// How many of so many rounds brought each part out exactly once, with so many thieves.
fn rounds_without_loss<R: Threads + Sync>(
    rt: &R,
    alloc: Global,
    thieves: u64,
    rounds: u64,
) -> Result<u64, NoMemory> {
    let mut whole_rounds = 0;
    for _ in 0..rounds {
        let (mut owner, thief, whole) = deque_of(alloc, 64)?;
        let refused = push_leaves(&mut owner, whole);
        let (mut owner, took) = contend(rt, alloc, owner, thief, thieves)?;
        let took = took.and(pop_all(&mut owner));
        if refused == 0
            && took
                == (Took {
                    places: u64::MAX,
                    count: 64,
                })
            && owner.weight() == WHOLE
        {
            whole_rounds = u64::wrapping_add(whole_rounds, 1);
        }
    }
    Ok(whole_rounds)
}

#[test]
fn thieves_take_each_part_once(rt: HostRuntime) -> Result<(), NoMemory> {
    for thieves in [2, 4, 8] {
        assert_eq!(rt; rounds_without_loss(&rt, rt.alloc(), thieves, 200)?, 200);
    }
    Ok(())
}
