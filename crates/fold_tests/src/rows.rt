//! Worked rows: eight items with base 1, without a stop and with one at the third; one item, and none.

ghost use Rattle.std.specs.Prelude.{◌≤◌};

use crate::before::SumBefore;
use fold_examples::Sum;
use fold_halves::{fold_halves, halves_logs};
use fold_pool::{fold_pool, pool_logs};
use fold_seq::{Job, Reduced};
use no_memory::NoMemory;
use piece_ledger::{OpenGate, Outcome, OutcomeKind, Tally, WorkerLog};
use splittable::Shape;
use std::alloc::Global;
use std::process::Abort;
use std::sync::Wait;
use std::thread::Threads;

/// Checks both folds of a job with base 1 and so many workers.
fn check_folds<R: Threads + Wait + Abort + Sync, J: Job<State = u64> + Sync>(
    rt: &R,
    alloc: Global,
    job: &J,
    workers: u32,
    want: &(Reduced<u64>, Tally),
) -> Result<(), NoMemory>
    requires { (1 ≤ workers) × (workers ≤ 32) }
{
    let have = fold_halves(rt, alloc, job, 1, workers, &OpenGate)?;
    assert!(rt; have == *want, "halves {workers}");
    let have = fold_pool(rt, rt, alloc, job, 1, workers, &OpenGate)?;
    assert!(rt; have == *want, "pool {workers}");
    Ok(())
}

#[test]
fn all_parts_run_where_no_item_stops(rt: HostRuntime) -> Result<(), NoMemory> {
    // How many items there are, and their sum.
    for (items, sum) in [(8u64, 36u64), (1, 1), (0, 0)] {
        let Ok(shape) = Shape::new(&[items]) else {
            assert!(rt; false);
            return Ok(());
        };
        let all = Tally {
            ran: items,
            items_skipped: 0,
        };
        for workers in [1u32, 2, 3, 8, 32] {
            let want = (Reduced::Going(sum), all);
            check_folds(&rt, rt.alloc(), &Sum { shape }, workers, &want)?;
        }
    }
    Ok(())
}

/// A part's first place and length, and the number that was seen where it was skipped.
type Line = (u64, u64, Option<u64>);

/// What became of a part.
fn line_of(outcome: &Outcome<u64>) -> Line {
    let seen = match outcome.kind {
        OutcomeKind::Ran(_) => None,
        OutcomeKind::Skipped { seen } => Some(seen),
    };
    (outcome.part.first(), outcome.part.len(), seen)
}

/// Checks what became of parts, in the order in which they were logged.
fn check_log<H: Abort>(rt: &H, log: &WorkerLog<u64>, want: &[Line]) {
    assert_eq!(rt; log.as_slice().len(), want.len());
    for (outcome, line) in log.as_slice().iter().zip(want) {
        assert_eq!(rt; line_of(outcome), *line);
    }
}

#[test]
fn one_worker_skips_what_lies_right_of_the_stop(rt: HostRuntime) -> Result<(), NoMemory> {
    let Ok(shape) = Shape::new(&[8]) else {
        assert!(rt; false);
        return Ok(());
    };
    let job = SumBefore {
        shape,
        at: 3,
        line: 2,
    };
    let stopped = Reduced::Stopped {
        at: 3,
        line: 2,
        state: 3,
    };
    let tally = Tally {
        ran: 3,
        items_skipped: 5,
    };
    check_folds(&rt, rt.alloc(), &job, 1, &(stopped, tally))?;
    let logs = halves_logs(&rt, rt.alloc(), &job, 1, 1, &OpenGate)?;
    let [log] = logs.as_slice() else {
        assert!(rt; false);
        return Ok(());
    };
    let (three, leaves) = (Some(3u64), [(1u64, 1u64, None), (2, 1, None), (3, 1, None)]);
    check_log(
        &rt,
        log,
        &[
            leaves[0],
            leaves[1],
            leaves[2],
            (4, 1, three),
            (5, 4, three),
        ],
    );
    let logs = pool_logs(&rt, &rt, rt.alloc(), &job, 1, 1, &OpenGate)?;
    let [log, rest] = logs.as_slice() else {
        assert!(rt; false);
        return Ok(());
    };
    let skips = [
        (4u64, 1u64, three),
        (5, 1, three),
        (6, 1, three),
        (7, 1, three),
        (8, 1, three),
    ];
    check_log(
        &rt,
        log,
        &[
            leaves[0], leaves[1], leaves[2], skips[0], skips[1], skips[2], skips[3], skips[4],
        ],
    );
    check_log(&rt, rest, &[]);
    Ok(())
}
