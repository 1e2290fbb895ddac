//! What a tower gathers, and copies of it.

ghost use Rattle.std.specs.Prelude.{◌≡◌, IfOk};

use loop_data::{Boxed, Many, Value};
use no_memory::NoMemory;
use reducer_laws::Groups;
use std::alloc::Global;

/// The state of a tower: that of the reducer of its kind.
#[derive(Drop)]
pub enum TowerState {
    /// Of `sum`: the exact sum.
    Sum(i128),
    /// Of `prod`: the product, wrapped to 64 bits.
    Prod(i64),
    /// Of `count`: the number of inputs.
    Count(u64),
    /// Of `any` and `all`: whether any, whether all are true.
    Truth(bool),
    /// Of `min`, `max`, `first` and `last`: that input, or none where there are none.
    Found(Option<Value>),
    /// Of `argmin` and `argmax`: the value with its place, or none where there are none.
    FoundAt(Option<(Value, u64)>),
    /// Of `list`: the inputs in order.
    Listed(Many<Value>),
    /// Of `group`: the state of each key.
    Grouped(Groups<TowerState>),
    /// Of `both`: the states of its sides.
    Both(Boxed<TowerState>, Boxed<TowerState>),
}

impl TowerState {
    /// The same once more. Refused only for want of memory.
    #[cycle(copies)]
    pub fn copy(&self, alloc: Global) -> Result<TowerState, NoMemory>
        ensures { IfOk result (λ s. s ≡ self.now) }
    {
        match self {
            TowerState::Sum(total) => Ok(TowerState::Sum(*total)),
            TowerState::Prod(product) => Ok(TowerState::Prod(*product)),
            TowerState::Count(n) => Ok(TowerState::Count(*n)),
            TowerState::Truth(b) => Ok(TowerState::Truth(*b)),
            TowerState::Found(found) => Ok(TowerState::Found(copy_found(alloc, found)?)),
            TowerState::FoundAt(found) => Ok(TowerState::FoundAt(copy_placed(alloc, found)?)),
            TowerState::Listed(inputs) => Ok(TowerState::Listed(inputs.copy(alloc)?)),
            TowerState::Grouped(groups) => Ok(TowerState::Grouped(copy_groups(alloc, groups)?)),
            TowerState::Both(one, other) => {
                let one = Boxed::new(alloc, one.get().copy(alloc)?)?;
                let other = Boxed::new(alloc, other.get().copy(alloc)?)?;
                Ok(TowerState::Both(one, other))
            }
        }
    }
}

/// The same groups once more.
#[cycle(copies)]
fn copy_groups(alloc: Global, groups: &Groups<TowerState>) -> Result<Groups<TowerState>, NoMemory>
    ensures { IfOk result (λ g. g ≡ groups.now) }
{
    let mut copies = Groups::new(alloc);
    for (key, state) in groups.iter() {
        copies.insert(key.copy(alloc)?, state.copy(alloc)?)?;
    }
    Ok(copies)
}

/// The same value once more, if there is one.
fn copy_found(alloc: Global, found: &Option<Value>) -> Result<Option<Value>, NoMemory>
    ensures { IfOk result (λ f. f ≡ found.now) }
{
    match found {
        Some(value) => Ok(Some(value.copy(alloc)?)),
        None => Ok(None),
    }
}

/// The same value with its place once more, if there is one.
fn copy_placed(
    alloc: Global,
    found: &Option<(Value, u64)>,
) -> Result<Option<(Value, u64)>, NoMemory>
    ensures { IfOk result (λ f. f ≡ found.now) }
{
    match found {
        Some((value, place)) => Ok(Some((value.copy(alloc)?, *place))),
        None => Ok(None),
    }
}
