//! The calls of the towers that have no inner tower, each by the reducer of its kind. Where a state isn't of the kind's form it
//! stands for no list: it is left as it is.

ghost use Rattle.std.specs.Prelude.{◌≡◌, Bool, true, [], IfOk, OnOk};
ghost use Rattle.loop_values.specs.Fits.{is_placed};
ghost use Rattle.reducer_laws.specs.Standing.{MayTake, MayMerge, TakesNext, TakesTogether};
ghost use Rattle.reducer_tower.specs.Stands.{SumStands, ProdStands, CountStands, ListStands};
ghost use Rattle.reducer_tower.specs.Stands.{TruthStands, FoundStands, PlacedStands};
ghost use Rattle.reducer_tower.specs.Inputs.{at_place};

use crate::TowerState;
use crate::inputs::value_and_place;
use loop_data::Value;
use no_memory::NoMemory;
use reducer_laws::{Count, Listed, Prod, Reducer, Sum};
use std::alloc::Global;

pub(crate) fn sum_unit(alloc: Global) -> Result<TowerState, NoMemory>
    ensures { IfOk result (λ state. SumStands state []) }
{
    Ok(TowerState::Sum(Sum::new().unit(alloc)?))
}

pub(crate) fn sum_next(alloc: Global, state: &mut TowerState, input: Value) -> Result<(), NoMemory>
    requires { MayTake SumStands state.old }
    ensures { OnOk result (TakesNext SumStands state.old input state.new) }
{
    match state {
        TowerState::Sum(total) => Sum::new().next(alloc, total, input.as_int()),
        _ => Ok(()),
    }
}

pub(crate) fn sum_merge(
    alloc: Global,
    left: TowerState,
    right: TowerState,
) -> Result<TowerState, NoMemory>
    requires { MayMerge SumStands left right }
    ensures { IfOk result (TakesTogether SumStands left right) }
{
    match left {
        TowerState::Sum(left) => match right {
            TowerState::Sum(right) => Ok(TowerState::Sum(Sum::new().merge(alloc, left, right)?)),
            right => Ok(right),
        },
        left => Ok(left),
    }
}

pub(crate) fn prod_unit(alloc: Global) -> Result<TowerState, NoMemory>
    ensures { IfOk result (λ state. ProdStands state []) }
{
    Ok(TowerState::Prod(Prod::new().unit(alloc)?))
}

pub(crate) fn prod_next(alloc: Global, state: &mut TowerState, input: Value) -> Result<(), NoMemory>
    requires { MayTake ProdStands state.old }
    ensures { OnOk result (TakesNext ProdStands state.old input state.new) }
{
    match state {
        TowerState::Prod(product) => Prod::new().next(alloc, product, input.as_int()),
        _ => Ok(()),
    }
}

pub(crate) fn prod_merge(
    alloc: Global,
    left: TowerState,
    right: TowerState,
) -> Result<TowerState, NoMemory>
    requires { MayMerge ProdStands left right }
    ensures { IfOk result (TakesTogether ProdStands left right) }
{
    match left {
        TowerState::Prod(left) => match right {
            TowerState::Prod(right) => {
                Ok(TowerState::Prod(Prod::new().merge(alloc, left, right)?))
            }
            right => Ok(right),
        },
        left => Ok(left),
    }
}

pub(crate) fn count_unit(alloc: Global) -> Result<TowerState, NoMemory>
    ensures { IfOk result (λ state. CountStands state []) }
{
    Ok(TowerState::Count(Count::new().unit(alloc)?))
}

pub(crate) fn count_next(
    alloc: Global,
    state: &mut TowerState,
    input: Value,
) -> Result<(), NoMemory>
    requires { MayTake CountStands state.old }
    ensures { OnOk result (TakesNext CountStands state.old input state.new) }
{
    let _ = input;
    match state {
        TowerState::Count(n) => Count::new().next(alloc, n, ()),
        _ => Ok(()),
    }
}

pub(crate) fn count_merge(
    alloc: Global,
    left: TowerState,
    right: TowerState,
) -> Result<TowerState, NoMemory>
    requires { MayMerge CountStands left right }
    ensures { IfOk result (TakesTogether CountStands left right) }
{
    match left {
        TowerState::Count(left) => match right {
            TowerState::Count(right) => {
                Ok(TowerState::Count(Count::new().merge(alloc, left, right)?))
            }
            right => Ok(right),
        },
        left => Ok(left),
    }
}

pub(crate) fn list_unit(alloc: Global) -> Result<TowerState, NoMemory>
    ensures { IfOk result (λ state. ListStands state []) }
{
    Ok(TowerState::Listed(Listed::<Value>::new().unit(alloc)?))
}

pub(crate) fn list_next(alloc: Global, state: &mut TowerState, input: Value) -> Result<(), NoMemory>
    requires { MayTake ListStands state.old }
    ensures { OnOk result (TakesNext ListStands state.old input state.new) }
{
    match state {
        TowerState::Listed(inputs) => Listed::new().next(alloc, inputs, input),
        _ => Ok(()),
    }
}

pub(crate) fn list_merge(
    alloc: Global,
    left: TowerState,
    right: TowerState,
) -> Result<TowerState, NoMemory>
    requires { MayMerge ListStands left right }
    ensures { IfOk result (TakesTogether ListStands left right) }
{
    match left {
        TowerState::Listed(left) => match right {
            TowerState::Listed(right) => {
                Ok(TowerState::Listed(Listed::new().merge(alloc, left, right)?))
            }
            right => Ok(right),
        },
        left => Ok(left),
    }
}

// ---- `any` and `all`, by the reducer that is passed

pub(crate) fn truth_unit<R: Reducer<Input = bool, State = bool>>(
    alloc: Global,
    by: &R,
) -> Result<TowerState, NoMemory>
    ensures { IfOk result (λ state. TruthStands (R.stands by.now) state []) }
{
    Ok(TowerState::Truth(by.unit(alloc)?))
}

pub(crate) fn truth_next<R: Reducer<Input = bool, State = bool>>(
    alloc: Global,
    by: &R,
    state: &mut TowerState,
    input: Value,
) -> Result<(), NoMemory>
    requires room { MayTake (TruthStands (R.stands by.now)) state.old }
    requires accepts { (b : Bool) → R.accepts by.now b }
    ensures { OnOk result (TakesNext (TruthStands (R.stands by.now)) state.old input state.new) }
{
    match state {
        TowerState::Truth(truth) => by.next(alloc, truth, input.as_bool()),
        _ => Ok(()),
    }
}

pub(crate) fn truth_merge<R: Reducer<Input = bool, State = bool>>(
    alloc: Global,
    by: &R,
    left: TowerState,
    right: TowerState,
) -> Result<TowerState, NoMemory>
    requires { MayMerge (TruthStands (R.stands by.now)) left right }
    ensures { IfOk result (TakesTogether (TruthStands (R.stands by.now)) left right) }
{
    match left {
        TowerState::Truth(left) => match right {
            TowerState::Truth(right) => Ok(TowerState::Truth(by.merge(alloc, left, right)?)),
            right => Ok(right),
        },
        left => Ok(left),
    }
}

// ---- `min`, `max`, `first` and `last`, by the reducer that is passed

pub(crate) fn found_unit<R: Reducer<Input = Value, State = Option<Value>>>(
    alloc: Global,
    by: &R,
) -> Result<TowerState, NoMemory>
    ensures { IfOk result (λ state. FoundStands (R.stands by.now) state []) }
{
    Ok(TowerState::Found(by.unit(alloc)?))
}

pub(crate) fn found_next<R: Reducer<Input = Value, State = Option<Value>>>(
    alloc: Global,
    by: &R,
    state: &mut TowerState,
    input: Value,
) -> Result<(), NoMemory>
    requires room { MayTake (FoundStands (R.stands by.now)) state.old }
    requires accepts { R.accepts by.now input }
    ensures { OnOk result (TakesNext (FoundStands (R.stands by.now)) state.old input state.new) }
{
    match state {
        TowerState::Found(found) => by.next(alloc, found, input),
        _ => Ok(()),
    }
}

pub(crate) fn found_merge<R: Reducer<Input = Value, State = Option<Value>>>(
    alloc: Global,
    by: &R,
    left: TowerState,
    right: TowerState,
) -> Result<TowerState, NoMemory>
    requires { MayMerge (FoundStands (R.stands by.now)) left right }
    ensures { IfOk result (TakesTogether (FoundStands (R.stands by.now)) left right) }
{
    match left {
        TowerState::Found(left) => match right {
            TowerState::Found(right) => Ok(TowerState::Found(by.merge(alloc, left, right)?)),
            right => Ok(right),
        },
        left => Ok(left),
    }
}

// ---- `argmin` and `argmax`, by the reducer that is passed

pub(crate) fn placed_unit<R: Reducer<Input = (Value, u64), State = Option<(Value, u64)>>>(
    alloc: Global,
    by: &R,
) -> Result<TowerState, NoMemory>
    ensures { IfOk result (λ state. PlacedStands (R.stands by.now) state []) }
{
    Ok(TowerState::FoundAt(by.unit(alloc)?))
}

pub(crate) fn placed_next<R: Reducer<Input = (Value, u64), State = Option<(Value, u64)>>>(
    alloc: Global,
    by: &R,
    state: &mut TowerState,
    input: Value,
) -> Result<(), NoMemory>
    requires room { MayTake (PlacedStands (R.stands by.now)) state.old }
    requires accepts { R.accepts by.now (at_place input) }
    requires fits { is_placed input ≡ true }
    ensures { OnOk result (TakesNext (PlacedStands (R.stands by.now)) state.old input state.new) }
{
    match state {
        TowerState::FoundAt(found) => match value_and_place(input) {
            Some(input) => by.next(alloc, found, input),
            None => Ok(()),
        },
        _ => Ok(()),
    }
}

pub(crate) fn placed_merge<R: Reducer<Input = (Value, u64), State = Option<(Value, u64)>>>(
    alloc: Global,
    by: &R,
    left: TowerState,
    right: TowerState,
) -> Result<TowerState, NoMemory>
    requires { MayMerge (PlacedStands (R.stands by.now)) left right }
    ensures { IfOk result (TakesTogether (PlacedStands (R.stands by.now)) left right) }
{
    match left {
        TowerState::FoundAt(left) => match right {
            TowerState::FoundAt(right) => Ok(TowerState::FoundAt(by.merge(alloc, left, right)?)),
            right => Ok(right),
        },
        left => Ok(left),
    }
}
