//! Pipelines built by hand, each proved to be its stages on the whole list.

ghost use Rattle.std.specs.Prelude.{◌≡◌, ◌≢◌, ◌≤◌, ◌^◌, ◌*ℤ◌, [], int_lt, length, pos, IfOk, Ok, Err};
ghost use Rattle.std.specs.Int.{int_wrap, w64};
ghost use Rattle.loop_results.specs.Results.{sum_of};
ghost use Rattle.chain_tests.specs.Pipelines.{numbers_of, squares_of, told_number};

use loop_data::Many;
use no_memory::NoMemory;
use reducer_laws::{Listed, Sum};
use std::alloc::Global;
use transducer_kit::{
    Catting, Closed, Filtering, Mapping, PassStop, ReducingIf, StepEnd, step_all,
};

/// Folds numbers into a sum through a pipeline of these closures.
fn fold_squares<
    P: Fn(&i64) -> Result<bool, PassStop> + Drop,
    F: Fn(i64) -> Result<i64, PassStop> + Drop,
    Q: Fn(&i64) -> Result<bool, PassStop> + Drop,
>(
    alloc: Global,
    over: P,
    square: F,
    until: Q,
    sum: &mut i128,
    numbers: &[i64],
) -> Result<StepEnd, NoMemory>
    requires few { length numbers.now ≤ 2 ^ 62 }
    requires empty { sum.old ≡ pos 0 }
    requires over { (b : _) → P.pre over b }
    requires square { (x : _) → F.pre square x }
    requires until { (b : _) → Q.pre until b }
    requires is_over { (b : _) (r : _) → P.post over b r → r ≡ Ok (int_lt (pos 2) b.now) }
    requires is_square { (x : _) (r : _) → F.post square x r → r ≡ Ok (int_wrap w64 (x *ℤ x)) }
    requires is_until { (b : _) (r : _) → Q.post until b r → r ≡ Ok (int_lt (pos 20) b.now) }
    ensures end { result ≡ (squares_of numbers.now).1 }
    ensures total { sum.new ≡ sum_of (squares_of numbers.now).0 }
{
    let total = Closed::new(Sum::new());
    let ends = ReducingIf::new(until, 4, total);
    let squares = Mapping::new(square, ends);
    let pipeline = Filtering::new(over, squares);
    step_all(alloc, &pipeline, sum, numbers)
}

/// The sum of the squares of the numbers over 2, which ends on line 4 after the first square over 20. It begins at 0.
pub fn sum_of_squares(alloc: Global, sum: &mut i128, numbers: &[i64]) -> Result<StepEnd, NoMemory>
    requires few { length numbers.now ≤ 2 ^ 62 }
    requires empty { sum.old ≡ pos 0 }
    ensures end { result ≡ (squares_of numbers.now).1 }
    ensures total { sum.new ≡ sum_of (squares_of numbers.now).0 }
{
    fold_squares(
        alloc,
        |x: &i64| -> Result<bool, PassStop> { Ok(*x > 2) },
        |x: i64| -> Result<i64, PassStop> { Ok(x.wrapping_mul(x)) },
        |x: &i64| -> Result<bool, PassStop> { Ok(*x > 20) },
        sum,
        numbers,
    )
}

/// The k-th number of a list, counted from 1. Past its end it faults on line 1, with kind 1.
fn number_at(list: &[i64; 2], k: u64) -> Result<i64, PassStop>
    ensures { result ≡ told_number list.now k }
{
    match list.get(k.saturating_sub(1) as usize) {
        Some(number) => Ok(*number),
        None => Err(PassStop::Fault { line: 1, kind: 1 }),
    }
}

/// Folds lists into a list of their numbers, through this closure.
fn fold_lists<F: Fn(&[i64; 2], u64) -> Result<i64, PassStop> + Drop>(
    alloc: Global,
    number: F,
    state: &mut Many<i64>,
    lists: &[([i64; 2], u64)],
) -> Result<StepEnd, NoMemory>
    requires few { length (numbers_of lists.now).0 ≤ 2 ^ 62 }
    requires empty { state.old ≡ [] }
    requires number { (b : _) (k : _) → F.pre number b k }
    requires is_number { (b : _) (k : _) (r : _) → F.post number b k r → r ≡ told_number b.now k }
    ensures end { result ≢ Err (record {}) → result ≡ (numbers_of lists.now).1 }
    ensures numbers { result ≢ Err (record {}) → state.new ≡ (numbers_of lists.now).0 }
{
    let pipeline = Catting::new(number, Closed::new(Listed::new()));
    step_all(alloc, &pipeline, state, lists)
}

/// The numbers of lists, one list after another. A list comes with its length.
pub fn put_together(
    alloc: Global,
    lists: &[([i64; 2], u64)],
) -> Result<(Many<i64>, StepEnd), NoMemory>
    requires { length (numbers_of lists.now).0 ≤ 2 ^ 62 }
    ensures numbers { IfOk result (λ r. r.0 ≡ (numbers_of lists.now).0) }
    ensures end { IfOk result (λ r. Ok r.1 ≡ (numbers_of lists.now).1) }
{
    let mut state = Many::new(alloc);
    let end = fold_lists(
        alloc,
        |list: &[i64; 2], k: u64| -> Result<i64, PassStop> { number_at(list, k) },
        &mut state,
        lists,
    )?;
    Ok((state, end))
}
