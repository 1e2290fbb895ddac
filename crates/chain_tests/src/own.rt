//! Wrappers over a `Reducing` of a user's own, which may end by itself.

ghost use Rattle.std.specs.Prelude.{◌≡◌, Ok};
ghost use Rattle.chain_tests.specs.Own.{budget_answer, budget_left};

use loop_data::{Many, Value};
use no_memory::NoMemory;
use std::alloc::Global;
use transducer_kit::{KeepingSomething, MapSplatting, PassStop, Reducing, ReducingIf, StepEnd};

/// Counts items down from what is left, and ends on line 9 with the last of them. A negative item faults there, with kind 2, and
/// isn't counted.
#[derive(Drop)]
struct Budget {}

impl Reducing for Budget {
    type Item = i64;

    type State = u64;

    ghost takes = { λ _ _ _. Unit {0} };

    ghost gives = { λ _ left item answer new. (answer ≡ Ok (budget_answer left item)) × (new ≡ budget_left left item) };

    fn step(&self, _alloc: Global, left: &mut u64, item: i64) -> Result<StepEnd, NoMemory> {
        if item < 0 {
            return Ok(StepEnd::Fault { line: 9, kind: 2 });
        }
        if *left <= 1 {
            *left = 0;
            return Ok(StepEnd::Ended { line: 9 });
        }
        *left -= 1;
        Ok(StepEnd::Going)
    }
}

/// What is left, an item, the answer, and what is left then.
type Row = (u64, i64, StepEnd, u64);

/// Whether the item is over 20 from zero. Of zero it faults on line 4, with kind 1.
fn is_far(item: &i64) -> Result<bool, PassStop> {
    match *item {
        0 => Err(PassStop::Fault { line: 4, kind: 1 }),
        item => Ok(item > 20 || item < -20),
    }
}

#[test]
fn an_end_of_the_inner_function_comes_first(rt: HostRuntime) -> Result<(), NoMemory> {
    let own = StepEnd::Ended { line: 9 };
    let rows: [Row; 7] = [
        (5, 3, StepEnd::Going, 4),
        // its item passed, and counts
        (5, 21, StepEnd::Ended { line: 4 }, 4),
        // the inner function ends with it
        (1, 21, own, 0),
        (1, 3, own, 0),
        // and faults at it
        (5, -21, StepEnd::Fault { line: 9, kind: 2 }, 5),
        (5, -3, StepEnd::Fault { line: 9, kind: 2 }, 5),
        // the test has no answer
        (5, 0, StepEnd::Fault { line: 4, kind: 1 }, 5),
    ];
    let stage = ReducingIf::new(
        |x: &i64| -> Result<bool, PassStop> { is_far(x) },
        4,
        Budget {},
    );
    for (before, item, end, after) in rows {
        let mut left = before;
        let answer = stage.step(rt.alloc(), &mut left, item)?;
        assert_eq!(rt; (answer, left), (end, after), "{before} {item}");
    }
    Ok(())
}

/// Half of an even item. Of zero it faults on line 3, with kind 1.
fn half(item: i64) -> Result<Option<i64>, PassStop> {
    match item {
        0 => Err(PassStop::Fault { line: 3, kind: 1 }),
        item if item % 2 == 0 => Ok(Some(item / 2)),
        _ => Ok(None),
    }
}

#[test]
fn what_is_nothing_is_not_given_on(rt: HostRuntime) -> Result<(), NoMemory> {
    let rows: [Row; 5] = [
        (5, 4, StepEnd::Going, 4),
        (5, 3, StepEnd::Going, 5),
        (1, 4, StepEnd::Ended { line: 9 }, 0),
        (1, 3, StepEnd::Going, 1),
        (5, 0, StepEnd::Fault { line: 3, kind: 1 }, 5),
    ];
    let stage = KeepingSomething::new(
        |x: i64| -> Result<Option<i64>, PassStop> { half(x) },
        Budget {},
    );
    for (before, item, end, after) in rows {
        let mut left = before;
        let answer = stage.step(rt.alloc(), &mut left, item)?;
        assert_eq!(rt; (answer, left), (end, after), "{before} {item}");
    }
    Ok(())
}

/// The item, less the difference of its two parts. Where they are no two numbers it faults on line 2, with kind 3.
fn less_parts(item: i64, parts: &[Value]) -> Result<i64, PassStop> {
    match parts {
        [Value::Int(a), Value::Int(b)] => Ok(item.wrapping_sub(a.wrapping_sub(*b))),
        _ => Err(PassStop::Fault { line: 2, kind: 3 }),
    }
}

#[test]
fn parts_are_handed_over_in_order(rt: HostRuntime) -> Result<(), NoMemory> {
    let rows: [(i64, &[i64], StepEnd, u64); 4] = [
        (1, &[5, 3], StepEnd::Fault { line: 9, kind: 2 }, 5),
        (1, &[3, 5], StepEnd::Going, 4),
        (1, &[3], StepEnd::Fault { line: 2, kind: 3 }, 5),
        (1, &[], StepEnd::Fault { line: 2, kind: 3 }, 5),
    ];
    let stage = MapSplatting::new(
        |x: i64, parts: &[Value]| -> Result<i64, PassStop> { less_parts(x, parts) },
        Budget {},
    );
    for (item, parts, end, after) in rows {
        let mut left = 5;
        let mut values = Many::new(rt.alloc());
        for part in parts {
            values.push(rt.alloc(), Value::Int(*part))?;
        }
        let answer = stage.step(rt.alloc(), &mut left, (item, values))?;
        assert_eq!(rt; (answer, left), (end, after), "{item} {}", parts.len());
    }
    Ok(())
}
