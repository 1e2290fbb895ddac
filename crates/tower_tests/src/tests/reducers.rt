//! Each reducer through its bound: a list cut at each place, folded and merged, gives the state of the whole.

ghost use Rattle.std.specs.Prelude.{◌≡◌, ◌≤◌, ◌^◌, length, IfOk, count_by, nat_le};

use no_memory::NoMemory;
use reducer_laws::{
    AllOf, AnyOf, Both, Count, FirstOf, Greatest, GreatestAt, LastOf, Least, LeastAt, Prod,
    Reducer, Sum,
};
use std::alloc::Global;
use std::fmt::Debug;
use std::process::Abort;

/// Folds a list of inputs, first to last.
fn fold_slice<R: Reducer>(
    alloc: Global,
    reducer: &R,
    inputs: &[R::Input],
) -> Result<R::State, NoMemory>
where
    R::Input: Copy,
    requires few { length inputs.now ≤ 2 ^ 62 }
    requires accepts { (input : R.Input) → R.accepts reducer.now input }
    ensures { IfOk result (λ state. R.stands reducer.now state inputs.now) }
{
    let mut state = reducer.unit(alloc)?;
    for input in inputs {
        reducer.next(alloc, &mut state, *input)?;
    }
    Ok(state)
}

/// Folds the inputs before a place and those from it on, and merges the two.
fn fold_in_parts<R: Reducer>(
    alloc: Global,
    reducer: &R,
    inputs: &[R::Input],
    cut: usize,
) -> Result<R::State, NoMemory>
where
    R::Input: Copy,
    requires few { length inputs.now ≤ 2 ^ 62 }
    requires within { cut ≤ length inputs.now }
    requires accepts { (input : R.Input) → R.accepts reducer.now input }
    ensures { IfOk result (λ state. R.stands reducer.now state inputs.now) }
{
    let left = fold_slice(alloc, reducer, &inputs[..cut])?;
    let right = fold_slice(alloc, reducer, &inputs[cut..])?;
    reducer.merge(alloc, left, right)
}

/// Checks that the inputs cut at each place give the wanted state.
fn check_cuts<R: Reducer, H: Abort>(
    rt: &H,
    alloc: Global,
    reducer: &R,
    inputs: &[R::Input],
    want: R::State,
) -> Result<(), NoMemory>
where
    R::Input: Copy,
    R::State: PartialEq + Debug,
    requires few { length inputs.now ≤ 2 ^ 62 }
    requires accepts { (input : R.Input) → R.accepts reducer.now input }
{
    for cut in 0..inputs.len() + 1 {
        let have = fold_in_parts(alloc, reducer, inputs, cut)?;
        assert!(rt; have == want, "{cut}: {have:?}");
    }
    Ok(())
}

#[test]
fn sums_are_exact(rt: HostRuntime) -> Result<(), NoMemory> {
    let most = [i64::MAX, i64::MAX, i64::MAX, i64::MAX, i64::MAX, i64::MAX];
    check_cuts(&rt, rt.alloc(), &Sum::new(), &most, 55340232221128654842)?;
    let least = [i64::MIN, i64::MIN, i64::MIN, i64::MIN, i64::MIN, i64::MIN];
    check_cuts(&rt, rt.alloc(), &Sum::new(), &least, -55340232221128654848)?;
    check_cuts(&rt, rt.alloc(), &Sum::new(), &[], 0)
}

#[test]
fn products_wrap(rt: HostRuntime) -> Result<(), NoMemory> {
    check_cuts(&rt, rt.alloc(), &Prod::new(), &[3, -5, 7, 2, 1, -4], 840)?;
    let large = [i64::MAX, 2, 1, 1, 3, 1];
    check_cuts(&rt, rt.alloc(), &Prod::new(), &large, -6)?;
    check_cuts(&rt, rt.alloc(), &Prod::new(), &[], 1)
}

#[test]
fn inputs_are_counted(rt: HostRuntime) -> Result<(), NoMemory> {
    check_cuts(&rt, rt.alloc(), &Count::new(), &[(), (), (), (), (), ()], 6)
}

#[test]
fn extremes_are_found(rt: HostRuntime) -> Result<(), NoMemory> {
    let numbers = [5i64, 2, 9, 2, 9, 4];
    check_cuts(&rt, rt.alloc(), &Least::new(), &numbers, Some(2))?;
    check_cuts(&rt, rt.alloc(), &Greatest::new(), &numbers, Some(9))?;
    check_cuts(&rt, rt.alloc(), &Least::<i64>::new(), &[], None)
}

#[test]
fn extremes_are_found_at_the_least_place(rt: HostRuntime) -> Result<(), NoMemory> {
    let placed = [(4i64, 1), (7, 2), (2, 6), (7, 3), (2, 4), (2, 5)];
    check_cuts(&rt, rt.alloc(), &LeastAt::new(), &placed, Some((2, 4)))?;
    check_cuts(&rt, rt.alloc(), &GreatestAt::new(), &placed, Some((7, 2)))?;
    check_cuts(&rt, rt.alloc(), &LeastAt::<i64>::new(), &[], None)
}

/// Cups are told apart by their numbers, and ordered by their sizes alone.
#[derive(Clone, Copy, Debug)]
#[derive_where(PartialEq, Eq, PartialOrd, Ord)]
struct Cup {
    size: u8,
    #[derive_where(skip(EqHashOrd))]
    number: u8,
}

#[test]
fn of_equals_the_first_is_kept(rt: HostRuntime) -> Result<(), NoMemory> {
    let cup = |size, number| Cup { size, number };
    let cups = [
        cup(2, 1),
        cup(1, 2),
        cup(3, 3),
        cup(1, 4),
        cup(3, 5),
        cup(2, 6),
    ];
    for cut in 0..7 {
        let least = fold_in_parts(rt.alloc(), &Least::new(), &cups, cut)?;
        assert_eq!(rt; least.map(|cup| cup.number), Some(2));
        let greatest = fold_in_parts(rt.alloc(), &Greatest::new(), &cups, cut)?;
        assert_eq!(rt; greatest.map(|cup| cup.number), Some(3));
    }
    Ok(())
}

#[test]
fn ends_are_kept(rt: HostRuntime) -> Result<(), NoMemory> {
    let letters = ['a', 'b', 'c', 'd', 'e', 'f'];
    check_cuts(&rt, rt.alloc(), &FirstOf::new(), &letters, Some('a'))?;
    check_cuts(&rt, rt.alloc(), &LastOf::new(), &letters, Some('f'))?;
    check_cuts(&rt, rt.alloc(), &LastOf::<char>::new(), &[], None)
}

#[test]
fn any_and_all_are_told(rt: HostRuntime) -> Result<(), NoMemory> {
    let mixed = [false, false, true, false, true, false];
    check_cuts(&rt, rt.alloc(), &AnyOf::new(), &mixed, true)?;
    check_cuts(&rt, rt.alloc(), &AllOf::new(), &mixed, false)?;
    check_cuts(&rt, rt.alloc(), &AnyOf::new(), &[], false)?;
    check_cuts(&rt, rt.alloc(), &AllOf::new(), &[], true)
}

#[test]
fn two_reducers_take_their_halves(rt: HostRuntime) -> Result<(), NoMemory> {
    let both = Both::new(Sum::new(), Both::new(LastOf::new(), Count::new()));
    let inputs = [(4, ('a', ())), (-9, ('b', ())), (1, ('c', ()))];
    check_cuts(&rt, rt.alloc(), &both, &inputs, (-4, (Some('c'), 3)))
}

/// Counts the inputs that are no smaller than a limit: a reducer of a user's own.
struct AtLeast {
    limit: u64,
}

impl Reducer for AtLeast {
    type Input = u64;

    type State = u64;

    ghost stands = { λ own state xs. state ≡ count_by (λ x. nat_le own.limit x) xs };

    ghost accepts = { λ _ _. Unit {0} };

    ghost is_free = { λ _. Unit {0} };

    ghost unit_is_free = { λ _. Unit {0} };

    fn unit(&self, _alloc: Global) -> Result<u64, NoMemory> {
        Ok(0)
    }

    fn next(&self, _alloc: Global, state: &mut u64, input: u64) -> Result<(), NoMemory> {
        if self.limit <= input {
            *state += 1;
        }
        Ok(())
    }

    fn merge(&self, _alloc: Global, left: u64, right: u64) -> Result<u64, NoMemory> {
        Ok(left + right)
    }
}

#[test]
fn a_user_writes_a_reducer(rt: HostRuntime) -> Result<(), NoMemory> {
    let inputs = [3, 10, 12, 9, 10, 40];
    check_cuts(&rt, rt.alloc(), &AtLeast { limit: 10 }, &inputs, 4)
}
