//! Stops and faults at every place of small shapes, and jobs drawn by chance: the fold answers as that on one thread does.

ghost use Rattle.std.specs.Prelude.{◌≤◌};

use fold_examples::SumUntil;
use fold_halves::fold_halves;
use fold_seq::fold_seq;
use fold_steal::fold_steal;
use no_memory::NoMemory;
use piece_ledger::OpenGate;
use splittable::Shape;
use std::alloc::Global;
use std::process::Abort;
use std::thread::Threads;

/// Checks one job with so many workers.
fn check_fold<R: Threads + Abort + Sync>(
    rt: &R,
    alloc: Global,
    job: &SumUntil,
    base: u64,
    workers: u32,
) -> Result<(), NoMemory>
    requires base { (1 ≤ base) × (base ≤ 4) }
    requires workers { (1 ≤ workers) × (workers ≤ 32) }
{
    let want = fold_seq(alloc, job)?;
    let (have, tally) = fold_steal(rt, alloc, job, base, workers, &OpenGate)?;
    assert!(rt; have == want, "steal {base} {workers}");
    // With one worker there is one lawful tally.
    if workers == 1 {
        let (_, halves) = fold_halves(rt, alloc, job, base, 1, &OpenGate)?;
        assert!(rt; tally == halves, "tallies {base}");
    }
    Ok(())
}

/// Checks all places at which a loop over a shape can stop or fault, and that where it does neither.
fn check_shape<R: Threads + Abort + Sync>(
    rt: &R,
    alloc: Global,
    shape: Shape,
) -> Result<(), NoMemory> {
    for at in 1..shape.count().min(30) + 2 {
        for fault in [None, Some(2)] {
            let job = SumUntil {
                shape,
                at,
                line: 3,
                fault,
            };
            for workers in [1, 2, 3] {
                check_fold(rt, alloc, &job, 1, workers)?;
            }
            check_fold(rt, alloc, &job, 3, 2)?;
        }
    }
    Ok(())
}

#[test]
fn a_fold_by_stealing_answers_as_one_thread_does(rt: HostRuntime) -> Result<(), NoMemory> {
    let lens: [&[u64]; 6] = [&[0], &[1], &[9], &[2, 3], &[3, 2, 2], &[2, 1, 3, 2]];
    for lens in lens {
        let Ok(shape) = Shape::new(lens) else {
            assert!(rt; false);
            return Ok(());
        };
        check_shape(&rt, rt.alloc(), shape)?;
    }
    Ok(())
}

/// The next number of a row that looks drawn by chance.
fn drawn(last: u64) -> u64 {
    last.wrapping_mul(6364136223846793005)
        .wrapping_add(1442695040888963407)
}

/// A job and a number of workers that look drawn by chance.
fn check_drawn<R: Threads + Abort + Sync>(
    rt: &R,
    alloc: Global,
    bits: u64,
    workers: u32,
) -> Result<(), NoMemory>
    requires { (1 ≤ workers) × (workers ≤ 32) }
{
    let lens = [bits % 40, bits / 40 % 5 + 1, bits / 200 % 4 + 1];
    let Ok(shape) = Shape::new(&lens) else {
        assert!(rt; false);
        return Ok(());
    };
    let fault = if bits / 800 % 2 == 0 { None } else { Some(2) };
    let job = SumUntil {
        shape,
        at: bits / 1600 % 1000 + 1,
        line: 3,
        fault,
    };
    check_fold(rt, alloc, &job, bits % 4 + 1, workers)
}

#[test]
fn jobs_drawn_by_chance_answer_alike(rt: HostRuntime) -> Result<(), NoMemory> {
    let mut last = 20261202u64;
    // A worker tries all other deques 10,000 times before it ends, so many workers are tried with few jobs.
    for workers in [1, 2, 3, 4, 2, 3, 4, 2, 3, 4, 5, 8, 16, 32] {
        last = drawn(last);
        check_drawn(&rt, rt.alloc(), last >> 20, workers)?;
    }
    Ok(())
}
