//! The calls of `group` and `both`, over whatever reducers their inner towers are.

ghost use Rattle.std.specs.Prelude.{◌≡◌, true, [], IfOk, OnOk};
ghost use Rattle.loop_data.specs.declared.value.Value.{Value};
ghost use Rattle.loop_data.specs.ValueParts.{left_of, right_of};
ghost use Rattle.loop_values.specs.Fits.{is_pair};
ghost use Rattle.reducer_laws.specs.Standing.{MayTake, MayMerge, TakesNext, TakesTogether};
ghost use Rattle.reducer_tower.specs.Inputs.{is_keyed};
ghost use Rattle.reducer_tower.specs.Stands.{Standing, GroupedStand, BothStand};

use crate::TowerState;
use crate::inputs::{key_and_input, parts_of_pair};
use loop_data::{Boxed, Value};
use no_memory::NoMemory;
use reducer_laws::{Groups, Reducer};
use std::alloc::Global;

/// A reducer of values whose states are those of towers: `Reducer` with its types fixed. Calls that lead back to themselves
/// through another crate's generic get their proof over a trait that has no associated types, and so over this one.
pub trait Nested {
    /// The state stands for this list of inputs.
    ghost stands: { Self → Standing };

    /// This input is taken.
    ghost accepts: { Self → Value → Type 0 };

    /// A state that stands for no inputs.
    fn unit(&self, alloc: Global) -> Result<TowerState, NoMemory>
        ensures { IfOk result (λ state. stands self.now state []) };

    /// Takes one more input.
    fn next(&self, alloc: Global, state: &mut TowerState, input: Value) -> Result<(), NoMemory>
        requires room { MayTake (stands self.now) state.old }
        requires accepts { accepts self.now input }
        ensures { OnOk result (TakesNext (stands self.now) state.old input state.new) };

    /// Puts two states together.
    fn merge(
        &self,
        alloc: Global,
        left: TowerState,
        right: TowerState,
    ) -> Result<TowerState, NoMemory>
        requires { MayMerge (stands self.now) left right }
        ensures { IfOk result (TakesTogether (stands self.now) left right) };
}

/// What is lent, as a reducer.
#[derive(Drop)]
struct By<'a, N> {
    inner: &'a N,
}

impl<'a, N: Nested> Reducer for By<'a, N> {
    type Input = Value;

    type State = TowerState;

    ghost stands = { λ by. N.stands by.inner.now };

    ghost accepts = { λ by. N.accepts by.inner.now };

    ghost is_free = { λ _. ⊥ };

    ghost unit_is_free = { λ _. ⊥ };

    fn unit(&self, alloc: Global) -> Result<TowerState, NoMemory> {
        self.inner.unit(alloc)
    }

    fn next(&self, alloc: Global, state: &mut TowerState, input: Value) -> Result<(), NoMemory> {
        self.inner.next(alloc, state, input)
    }

    fn merge(
        &self,
        alloc: Global,
        left: TowerState,
        right: TowerState,
    ) -> Result<TowerState, NoMemory> {
        self.inner.merge(alloc, left, right)
    }
}

pub(crate) fn grouped_unit<N: Nested>(alloc: Global, inner: &N) -> Result<TowerState, NoMemory>
    ensures { IfOk result (λ state. GroupedStand (N.stands inner.now) state []) }
{
    let _ = inner;
    Ok(TowerState::Grouped(Groups::new(alloc)))
}

/// Takes an input by its key. Where the key is there, its state takes the inner input in its place: key and inner input are
/// moved, and no memory is taken but the inner reducer's.
pub(crate) fn grouped_next<N: Nested>(
    alloc: Global,
    inner: &N,
    state: &mut TowerState,
    input: Value,
) -> Result<(), NoMemory>
    requires room { MayTake (GroupedStand (N.stands inner.now)) state.old }
    requires keyed { is_keyed input ≡ true }
    requires accepts { N.accepts inner.now (right_of input) }
    ensures { OnOk result (TakesNext (GroupedStand (N.stands inner.now)) state.old input state.new) }
{
    match state {
        TowerState::Grouped(groups) => match key_and_input(input) {
            Some((key, input)) => groups.take(alloc, &By { inner }, key, input),
            None => Ok(()),
        },
        _ => Ok(()),
    }
}

/// Puts two states together. The states of keys are moved; an empty left is answered by the right, and no unit is made.
pub(crate) fn grouped_merge<N: Nested>(
    alloc: Global,
    inner: &N,
    left: TowerState,
    right: TowerState,
) -> Result<TowerState, NoMemory>
    requires { MayMerge (GroupedStand (N.stands inner.now)) left right }
    ensures { IfOk result (TakesTogether (GroupedStand (N.stands inner.now)) left right) }
{
    match left {
        TowerState::Grouped(left) => match right {
            TowerState::Grouped(right) => {
                Ok(TowerState::Grouped(Groups::merge(alloc, &By { inner }, left, right)?))
            }
            right => Ok(right),
        },
        left => Ok(left),
    }
}

pub(crate) fn both_unit<N: Nested>(
    alloc: Global,
    left: &N,
    right: &N,
) -> Result<TowerState, NoMemory>
    ensures { IfOk result (λ state. BothStand (N.stands left.now) (N.stands right.now) state []) }
{
    let left = Boxed::new(alloc, left.unit(alloc)?)?;
    let right = Boxed::new(alloc, right.unit(alloc)?)?;
    Ok(TowerState::Both(left, right))
}

pub(crate) fn both_next<N: Nested>(
    alloc: Global,
    left: &N,
    right: &N,
    state: &mut TowerState,
    input: Value,
) -> Result<(), NoMemory>
    requires room { MayTake (BothStand (N.stands left.now) (N.stands right.now)) state.old }
    requires pair { is_pair input ≡ true }
    requires left_accepts { N.accepts left.now (left_of input) }
    requires right_accepts { N.accepts right.now (right_of input) }
    ensures { OnOk result (TakesNext (BothStand (N.stands left.now) (N.stands right.now))
        state.old input state.new) }
{
    match state {
        TowerState::Both(one, other) => match parts_of_pair(input) {
            Some((left_input, right_input)) => {
                left.next(alloc, one.get_mut(), left_input)?;
                right.next(alloc, other.get_mut(), right_input)
            }
            None => Ok(()),
        },
        _ => Ok(()),
    }
}

pub(crate) fn both_merge<N: Nested>(
    alloc: Global,
    left: &N,
    right: &N,
    before: TowerState,
    after: TowerState,
) -> Result<TowerState, NoMemory>
    requires { MayMerge (BothStand (N.stands left.now) (N.stands right.now)) before after }
    ensures { IfOk result (TakesTogether (BothStand (N.stands left.now) (N.stands right.now))
        before after) }
{
    match before {
        TowerState::Both(one, other) => match after {
            TowerState::Both(next_one, next_other) => {
                let one = left.merge(alloc, one.into_inner(), next_one.into_inner())?;
                let other = right.merge(alloc, other.into_inner(), next_other.into_inner())?;
                Ok(TowerState::Both(Boxed::new(alloc, one)?, Boxed::new(alloc, other)?))
            }
            after => Ok(after),
        },
        before => Ok(before),
    }
}
