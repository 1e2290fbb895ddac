//! Many towers side by side.

ghost use Rattle.std.specs.Prelude.{◌≡◌, ◌^◌, ◌<◌, ◌≤◌, true, length, IfSome};
ghost use Rattle.std.specs.List.{list_all};
ghost use Rattle.reducer_tower.specs.Rows.{number_of, start_fits};

use crate::{Named, Tower, TowerState};
use loop_data::{Kind, TextValue, Value};
use no_memory::NoMemory;
use reducer_laws::Reducer;
use std::alloc::Global;

/// An input of one of a row's towers, which count from 0.
#[derive(Drop)]
pub struct Emitted {
    /// The tower's number.
    pub tower: u32,
    /// Its input.
    pub value: Value,
}

/// A list of named towers, each with a start value or without.
#[derive(Drop)]
pub struct Row {
    /// The towers by their numbers, from 0 on.
    pub towers: Vec<Named>,
    pub ghost few: { length towers.items ≤ 2 ^ 32 },
    pub ghost starts_fit: { list_all start_fits towers.items ≡ true },
}

/// The states of a row's towers.
#[derive(Drop)]
pub struct RowState {
    /// A state a tower, by its number.
    pub states: Vec<TowerState>,
}

/// Why a row has no text of a name.
#[derive(Clone, Copy, Debug, PartialEq, Eq)]
pub enum RowStop {
    /// No tower of the row has the name.
    NoSuchName,
    /// Memory ran out.
    NoMemory,
}

impl From<NoMemory> for RowStop {
    ghost use Rattle.reducer_tower.specs.declared.row.RowStop.TheVariants as stop;

    ghost from_gives = { λ _ s. s ≡ stop.NoMemory };

    fn from(_error: NoMemory) -> RowStop {
        RowStop::NoMemory
    }
}

impl Row {
    ghost use Rattle.std.specs.Prelude.{◌++◌, [], ◌∷◌, ◌↔◌, List, None, Some, Err, IfOk, OnOk, OnErr};
    ghost use Rattle.reducer_tower.specs.declared.row.Emitted.{Emitted};
    ghost use Rattle.reducer_tower.specs.declared.row.RowStop.TheVariants.{NoSuchName};
    ghost use Rattle.reducer_tower.specs.Rows.{RowStands, fits_start};
    ghost use Rattle.reducer_tower.specs.Rows.{named_tower, StandWithStarts, IsTextOf};

    /// A row without towers. It takes no memory.
    pub fn new(alloc: Global) -> Row
        ensures { result.towers.items ≡ [] }
    {
        Row {
            towers: Vec::new(alloc),
        }
    }

    /// Puts a tower last. No other has its name, the start value fits the kind, and there are fewer than 4,294,967,296 towers.
    /// Refused only for want of memory: then the row is as before, and the start value is given up.
    pub fn add(
        &mut self,
        alloc: Global,
        name: &str,
        kind: &Kind,
        start: Option<Value>,
    ) -> Result<(), NoMemory>
        requires new { number_of name.now self.old.towers.items ≡ None }
        requires fits { fits_start kind.now start ≡ true }
        requires few { length self.old.towers.items < 2 ^ 32 }
        ensures ok { OnOk result (self.new.towers.items ≡
            self.old.towers.items ++ named_tower name.now kind.now start ∷ []) }
        ensures err { OnErr result (self.new.towers.items ≡ self.old.towers.items) }
    {
        let name = TextValue::new(alloc, name)?;
        let tower = Tower::new(alloc, kind)?;
        self.towers.push(Named { name, tower, start })?;
        Ok(())
    }

    /// The number of the tower of a name, and `None` exactly where no tower has it. It takes no memory.
    pub fn tower(&self, name: &str) -> Option<u32>
        ensures { result ≡ number_of name.now self.now.towers.items }
    {
        let number = number_of(self.towers.as_slice(), name)?;
        Some(number as u32)
    }

    /// The states with each tower's start value, where it has one, before its inputs. Other towers' states are moved. It is
    /// asked of states that stand for a list of at most 2^61 inputs. Refused only for want of memory.
    pub fn with_starts(&self, alloc: Global, state: RowState) -> Result<RowState, NoMemory>
        requires { (inputs : List Emitted) ×
            RowStands self.now.towers.items state.states.items inputs × (length inputs ≤ 2 ^ 61) }
        ensures { IfOk result (λ whole.
            StandWithStarts self.now.towers.items state.states.items whole.states.items) }
    {
        let RowState { states: before } = state;
        let mut states = Vec::new(alloc);
        let mut rest = before.into_iter();
        for named in &self.towers {
            let Some(state) = rest.next() else {
                return Ok(RowState { states });
            };
            states.push(named.with_start(alloc, state)?)?;
        }
        Ok(RowState { states })
    }

    /// The text of what the inputs of the tower of a name come to, without a line end. It is asked of states that stand for
    /// some list.
    ///
    /// `NoSuchName` is answered exactly where no tower has the name, and `NoMemory` only for want of memory.
    pub fn text(&self, alloc: Global, state: &RowState, name: &str) -> Result<Vec<u8>, RowStop>
        requires { (inputs : List Emitted) ×
            RowStands self.now.towers.items state.now.states.items inputs }
        ensures no_such_name { (result ≡ Err NoSuchName) ↔
            (number_of name.now self.now.towers.items ≡ None) }
        ensures text { IfOk result (λ text. IsTextOf self.now.towers.items
            state.now.states.items name.now text.items) }
    {
        let Some(number) = self.tower(name) else {
            return Err(RowStop::NoSuchName);
        };
        match state.states.get(number as usize) {
            Some(state) => Ok(state.text(alloc)?),
            None => unreachable!(),
        }
    }

    /// The same states once more, which stand for each list that these stand for. Refused only for want of memory.
    pub fn copy_state(&self, alloc: Global, state: &RowState) -> Result<RowState, NoMemory>
        ensures { IfOk result (λ copy. copy.states.items ≡ state.now.states.items) }
    {
        let mut states = Vec::with_capacity(alloc, state.states.len())?;
        for state in &state.states {
            states.push(state.copy(alloc)?)?;
        }
        Ok(RowState { states })
    }
}

/// The number of the first of the towers that has the name.
fn number_of(towers: &[Named], name: &str) -> Option<usize>
    ensures first { result ≡ number_of name.now towers.now }
    ensures within { IfSome result (λ number. number < length towers.now) }
{
    towers.iter().position(|named| named.name.as_str() == name)
}

impl Reducer for Row {
    ghost use Rattle.reducer_tower.specs.Rows.{RowStands, Takes};

    type Input = Emitted;

    type State = RowState;

    ghost stands = { λ row state. RowStands row.towers.items state.states.items };

    ghost accepts = { λ row. Takes row.towers.items };

    ghost is_free = { λ _. ⊥ };

    ghost unit_is_free = { λ _. ⊥ };

    fn unit(&self, alloc: Global) -> Result<RowState, NoMemory> {
        let mut states = Vec::new(alloc);
        for named in &self.towers {
            states.push(named.tower.unit(alloc)?)?;
        }
        Ok(RowState { states })
    }

    fn next(&self, alloc: Global, state: &mut RowState, input: Emitted) -> Result<(), NoMemory> {
        let Emitted { tower, value } = input;
        let i = tower as usize;
        let Some(named) = self.towers.get(i) else {
            return Ok(());
        };
        match state.states.get_mut(i) {
            Some(slot) => named.tower.next(alloc, slot, value),
            None => Ok(()),
        }
    }

    fn merge(&self, alloc: Global, left: RowState, right: RowState) -> Result<RowState, NoMemory> {
        let RowState { states: left } = left;
        let RowState { states: right } = right;
        let mut states = Vec::new(alloc);
        let mut lefts = left.into_iter();
        let mut rights = right.into_iter();
        for named in &self.towers {
            let Some(before) = lefts.next() else {
                return Ok(RowState { states });
            };
            let Some(after) = rights.next() else {
                return Ok(RowState { states });
            };
            states.push(named.tower.merge(alloc, before, after)?)?;
        }
        Ok(RowState { states })
    }
}
