//! Worked rows: crews of two workers over eight items, without a stop and with one at the third.

ghost use Rattle.std.specs.Prelude.{◌≤◌};

use crate::plays::{drained, finished};
use fold_examples::Sum;
use fold_seq::{Job, Reduced};
use fold_steal::Turn::{Idle, Ran, Skipped, Split};
use fold_steal::{Turn, fold_steal, steal_logs};
use fold_tests::before::SumBefore;
use no_memory::NoMemory;
use piece_ledger::{OpenGate, Outcome, OutcomeKind, Tally, WorkerLog};
use splittable::Shape;
use std::alloc::Global;
use std::process::Abort;

/// A seat's number, and what its turn does.
type Played = (usize, Turn);

/// Eight items with base 4: each seat runs its own part.
const OWN_PARTS: [Played; 4] = [(0, Ran), (1, Ran), (0, Idle), (1, Idle)];

/// With base 1 the seat 1 alone takes turns, and steals the other's part.
const SEAT_ONE_ALONE: [Played; 15] = [
    (1, Split),
    (1, Split),
    (1, Ran),
    (1, Ran),
    (1, Split),
    (1, Ran),
    (1, Ran),
    (1, Split),
    (1, Split),
    (1, Ran),
    (1, Ran),
    (1, Split),
    (1, Ran),
    (1, Ran),
    (1, Idle),
];

/// The seat 0 halves its part once, and the seat 1 steals both halves, the right one first.
const HALVES_STOLEN: [Played; 15] = [
    (0, Split),
    (1, Split),
    (1, Split),
    (1, Ran),
    (1, Ran),
    (1, Split),
    (1, Ran),
    (1, Ran),
    (1, Split),
    (1, Ran),
    (1, Ran),
    (1, Split),
    (1, Ran),
    (1, Ran),
    (1, Idle),
];

/// The third item stops: the seat 1 alone finds that out when only the fourth is left.
const STOP_FOUND_LATE: [Played; 15] = [
    (1, Split),
    (1, Split),
    (1, Ran),
    (1, Ran),
    (1, Split),
    (1, Ran),
    (1, Ran),
    (1, Split),
    (1, Split),
    (1, Ran),
    (1, Ran),
    (1, Split),
    (1, Ran),
    (1, Skipped),
    (1, Idle),
];

/// The seat 0 alone finds it out first, and skips the other's part whole.
const STOP_FOUND_EARLY: [Played; 9] = [
    (0, Split),
    (0, Split),
    (0, Ran),
    (0, Ran),
    (0, Split),
    (0, Ran),
    (0, Skipped),
    (0, Skipped),
    (0, Idle),
];

/// Checks that the turns do what is wanted, and what the crew gives when it is finished then.
fn check_turns<H: Abort, J: Job<State = u64>>(
    rt: &H,
    alloc: Global,
    job: &J,
    base: u64,
    turns: &[Played],
    want: &(Reduced<u64>, Tally),
) -> Result<(), NoMemory>
    requires { (1 ≤ base) × (base ≤ 4) }
{
    let (answer, tally, right) = finished(alloc, job, base, 2, turns)?;
    assert_eq!(rt; right, turns.len());
    assert!(rt; answer == want.0 && tally == want.1, "base {base}");
    // The same where nothing is left to the seats, and all to the end.
    let (answer, _, _) = finished(alloc, job, base, 2, &[])?;
    assert!(rt; answer == want.0, "base {base}");
    Ok(())
}

/// So many parts were run, and so many items skipped.
fn tally(ran: u64, items_skipped: u64) -> Tally {
    Tally { ran, items_skipped }
}

#[test]
fn seats_take_turns_as_worked_out(rt: HostRuntime) -> Result<(), NoMemory> {
    let Ok(shape) = Shape::new(&[8]) else {
        assert!(rt; false);
        return Ok(());
    };
    let job = Sum { shape };
    let (two, eight) = (tally(2, 0), tally(8, 0));
    let sum = Reduced::Going(36);
    check_turns(&rt, rt.alloc(), &job, 4, &OWN_PARTS, &(sum, two))?;
    let sum = Reduced::Going(36);
    check_turns(&rt, rt.alloc(), &job, 1, &SEAT_ONE_ALONE, &(sum, eight))?;
    let sum = Reduced::Going(36);
    check_turns(&rt, rt.alloc(), &job, 1, &HALVES_STOLEN, &(sum, eight))
}

/// Stopped at the third item of eight, whose sum before it is 3.
fn stopped() -> Reduced<u64> {
    Reduced::Stopped {
        at: 3,
        line: 2,
        state: 3,
    }
}

#[test]
fn seats_skip_right_of_a_stop(rt: HostRuntime) -> Result<(), NoMemory> {
    let Ok(shape) = Shape::new(&[8]) else {
        assert!(rt; false);
        return Ok(());
    };
    let job = SumBefore {
        shape,
        at: 3,
        line: 2,
    };
    check_turns(
        &rt,
        rt.alloc(),
        &job,
        1,
        &STOP_FOUND_LATE,
        &(stopped(), tally(7, 1)),
    )?;
    check_turns(
        &rt,
        rt.alloc(),
        &job,
        1,
        &STOP_FOUND_EARLY,
        &(stopped(), tally(3, 5)),
    )?;
    // One worker has the one lawful tally, as by halves.
    let (answer, counts) = fold_steal(&rt, rt.alloc(), &job, 1, 1, &OpenGate)?;
    assert!(rt; answer == stopped() && counts == tally(3, 5));
    Ok(())
}

/// A part's first place and length, and the number that was seen where it was skipped.
type Line = (u64, u64, Option<u64>);

/// What became of a part.
fn line_of(outcome: &Outcome<u64>) -> Line {
    let seen = match outcome.kind {
        OutcomeKind::Ran(_) => None,
        OutcomeKind::Skipped { seen } => Some(seen),
    };
    (outcome.part.first(), outcome.part.len(), seen)
}

/// Checks what became of parts, in the order in which they were logged.
fn check_log<H: Abort>(rt: &H, log: &WorkerLog<u64>, want: &[Line]) {
    assert_eq!(rt; log.as_slice().len(), want.len());
    for (outcome, line) in log.as_slice().iter().zip(want) {
        assert_eq!(rt; line_of(outcome), *line);
    }
}

#[test]
fn logs_hold_what_each_seat_did(rt: HostRuntime) -> Result<(), NoMemory> {
    let Ok(shape) = Shape::new(&[8]) else {
        assert!(rt; false);
        return Ok(());
    };
    let job = SumBefore {
        shape,
        at: 3,
        line: 2,
    };
    let three = Some(3u64);
    let early = [
        (1u64, 1u64, None),
        (2, 1, None),
        (3, 1, None),
        (4, 1, three),
        (5, 4, three),
    ];
    // By one worker, and by the first of two seats, alone.
    let logs = steal_logs(&rt, rt.alloc(), &job, 1, 1, &OpenGate)?;
    let [log] = logs.as_slice() else {
        assert!(rt; false);
        return Ok(());
    };
    check_log(&rt, log, &early);
    let logs = drained(rt.alloc(), &job, 1, 2, &STOP_FOUND_EARLY)?;
    let [first, second] = logs.as_slice() else {
        assert!(rt; false);
        return Ok(());
    };
    check_log(&rt, first, &early);
    check_log(&rt, second, &[]);
    // By the second seat alone.
    let logs = drained(rt.alloc(), &job, 1, 2, &STOP_FOUND_LATE)?;
    let [first, second] = logs.as_slice() else {
        assert!(rt; false);
        return Ok(());
    };
    check_log(&rt, first, &[]);
    let late = [
        (5u64, 1u64, None),
        (6, 1, None),
        (7, 1, None),
        (8, 1, None),
        (1, 1, None),
        (2, 1, None),
        (3, 1, None),
        (4, 1, three),
    ];
    check_log(&rt, second, &late);
    Ok(())
}
