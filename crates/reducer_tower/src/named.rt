//! A tower with its name and its start value.

ghost use Rattle.std.specs.Prelude.{◌≡◌, ◌++◌, true, List, IfOk};
ghost use Rattle.loop_data.specs.declared.value.Value.{Value};
ghost use Rattle.reducer_laws.specs.Standing.{MayTake};
ghost use Rattle.reducer_tower.specs.Rows.{start_fits, started_by};
ghost use Rattle.reducer_tower.specs.Stands.{Stands};

use crate::{Tower, TowerState};
use loop_data::{TextValue, Value};
use no_memory::NoMemory;
use reducer_laws::Reducer;
use std::alloc::Global;

/// A tower of a row, with its name. It prints as `explain` writes it: `total: sum from 100`.
#[derive(Drop)]
pub struct Named {
    /// The name.
    pub name: TextValue,
    /// The tower.
    pub tower: Tower,
    /// The input before all others, where there is one.
    pub start: Option<Value>,
}

impl Named {
    /// The state with the start value, where there is one, before its inputs; without one it is moved. Refused only for want
    /// of memory.
    pub fn with_start(&self, alloc: Global, state: TowerState) -> Result<TowerState, NoMemory>
        requires fits { start_fits self.now ≡ true }
        requires room { MayTake (Stands self.now.tower.kind) state }
        ensures { IfOk result (λ whole. (inputs : List Value) → Stands self.now.tower.kind state inputs →
            Stands self.now.tower.kind whole (started_by self.now.start ++ inputs)) }
    {
        match &self.start {
            Some(start) => {
                let mut first = self.tower.unit(alloc)?;
                self.tower.next(alloc, &mut first, start.copy(alloc)?)?;
                self.tower.merge(alloc, first, state)
            }
            None => Ok(state),
        }
    }
}
