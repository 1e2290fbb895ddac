//! The example jobs, cut at every place, answer as the whole does.

ghost use Rattle.std.specs.Prelude.{◌≡◌, ◌≤◌, ◌<◌, ◌+◌, ◌^◌, ℕ, IfOk};
ghost use Rattle.fold_examples.specs.Sums.{SumUntilStands};

use crate::{ApartLoop, PlaceLoop, Sum, SumUntil};
use fold_seq::{End, Job, Reduced, combine, fold_seq};
use no_memory::NoMemory;
use splittable::{Shape, Splittable};
use std::alloc::Global;
use std::process::Abort;

/// The answer of the first items, combined with that of the rest.
fn in_two(alloc: Global, job: &SumUntil, cut: u64, rest: u64) -> Result<Reduced<u64>, NoMemory>
    requires { 1 + cut + rest < 2 ^ 64 }
    ensures { IfOk result (SumUntilStands job.now.at job.now.line job.now.fault 1 (cut + rest)) }
{
    let left = job.run(1, cut);
    let right = job.run(1 + cut, rest);
    combine(alloc, job, left, right)
}

/// Where and how the sum over the numbers 1 to 12 stops, and its answer.
type Case = (u64, Option<u8>, Reduced<u64>);

/// The answer of a sum that stops after adding the number `at`, from line 3.
fn stopped(at: u64, sum: u64) -> Case {
    let stop = Reduced::Stopped {
        at,
        line: 3,
        state: sum,
    };
    (at, None, stop)
}

/// The end and the place of a stop that the answer of such a sum must have.
fn check_end<H: Abort>(rt: &H, at: u64, fault: Option<u8>, want: &Reduced<u64>) {
    let end = match fault {
        _ if at > 12 => End::Going,
        None => End::Stopped { at, line: 3 },
        Some(kind) => End::Faulted { at, line: 3, kind },
    };
    assert!(rt; want.end() == end, "{at}");
    let stops = if at <= 12 { Some(at) } else { None };
    assert!(rt; want.stop_place() == stops, "{at}");
}

/// Checks a sum whole, and in two parts that are cut at each place.
fn check_sum<H: Abort>(rt: &H, alloc: Global, shape: Shape, case: &Case) -> Result<(), NoMemory> {
    let (at, fault, want) = case;
    let (at, fault) = (*at, *fault);
    let job = SumUntil {
        shape,
        at,
        line: 3,
        fault,
    };
    for cut in 0u64..13 {
        let have = in_two(alloc, &job, cut, 12 - cut)?;
        assert!(rt; have == *want, "{at} {cut}");
    }
    assert!(rt; fold_seq(alloc, &job)? == *want, "{at}");
    check_end(rt, at, fault, want);
    Ok(())
}

#[test]
fn a_sum_cut_at_every_place_is_the_whole(rt: HostRuntime) -> Result<(), NoMemory> {
    let Ok(shape) = Shape::new(&[3, 4]) else {
        assert!(rt; false);
        return Ok(());
    };
    let faulted = Reduced::Faulted {
        at: 5,
        line: 3,
        kind: 2,
    };
    let cases = [
        (13, None, Reduced::Going(78)),
        (13, Some(1), Reduced::Going(78)),
        stopped(12, 78),
        stopped(5, 15),
        stopped(1, 1),
        (5, Some(2), faulted),
    ];
    for case in &cases {
        check_sum(&rt, rt.alloc(), shape, case)?;
    }
    Ok(())
}

#[test]
fn a_sum_of_halves_is_the_whole(rt: HostRuntime) -> Result<(), NoMemory> {
    let Ok(shape) = Shape::new(&[3, 4]) else {
        assert!(rt; false);
        return Ok(());
    };
    let job = Sum { shape };
    assert!(rt; fold_seq(rt.alloc(), &job)? == Reduced::Going(78));
    if let Some(whole) = job.shape().whole()
        && let Some((left, right)) = whole.halve()
    {
        assert_eq!(rt; (left.len(), right.len()), (6, 6));
    }
    Ok(())
}

#[test]
fn an_empty_shape_gives_the_unit(rt: HostRuntime) -> Result<(), NoMemory> {
    let Ok(shape) = Shape::new(&[0, 4]) else {
        assert!(rt; false);
        return Ok(());
    };
    assert!(rt; fold_seq(rt.alloc(), &Sum { shape })? == Reduced::Going(0));
    let job = SumUntil {
        shape,
        at: 1,
        line: 3,
        fault: Some(1),
    };
    assert!(rt; fold_seq(rt.alloc(), &job)? == Reduced::Going(0));
    Ok(())
}

/// Parts of a loop that carries don't give together what the whole does, and it is no job.
#[test]
fn only_a_loop_that_carries_nothing_is_a_job(rt: HostRuntime) -> Result<(), NoMemory> {
    let Ok(shape) = Shape::new(&[3, 4]) else {
        assert!(rt; false);
        return Ok(());
    };
    let carrying = PlaceLoop {
        shape,
        carries: true,
    };
    assert_eq!(rt; carrying.run(1, 12), 144);
    assert_eq!(rt; (carrying.run(1, 6), carrying.run(7, 6)), (36, 102));
    assert!(rt; ApartLoop::new(carrying).is_none());
    let apart = PlaceLoop {
        shape,
        carries: false,
    };
    assert_eq!(rt; (apart.run(1, 6), apart.run(7, 6)), (21, 57));
    let Some(job) = ApartLoop::new(apart) else {
        assert!(rt; false);
        return Ok(());
    };
    assert!(rt; fold_seq(rt.alloc(), &job)? == Reduced::Going(78));
    Ok(())
}
