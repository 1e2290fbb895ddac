//! Emitted pairs, put into the states of a row.

ghost use Rattle.std.specs.Prelude.{◌≡◌, [], true, OnOk, length};
ghost use Rattle.reducer_tower.specs.Rows.{number_of};
ghost use Rattle.program_rows.specs.Pairs.{HaveRoom, TakeBehind, input_for, numbered, pair_fits, pairs_fit};

use loop_data::Many;
use loop_meaning::Pair;
use no_memory::NoMemory;
use reducer_laws::Reducer;
use reducer_tower::{Emitted as Input, Row, RowState};
use std::alloc::Global;

/// The states with one more pair, for the reducer of its name.
fn add_pair(alloc: Global, row: &Row, state: &mut RowState, pair: Pair) -> Result<(), NoMemory>
    requires fits { pair_fits row.now.towers.items pair ≡ true }
    requires room { HaveRoom row.now.towers.items state.old 1 }
    ensures { OnOk result (TakeBehind row.now.towers.items state.old state.new
        (input_for (number_of pair.name row.now.towers.items) pair.input)) }
{
    let Pair { name, input } = pair;
    match row.tower(name.as_str()) {
        Some(tower) => row.next(
            alloc,
            state,
            Input {
                tower,
                value: input,
            },
        ),
        None => Ok(()),
    }
}

/// Folds these pairs into the states, in their order, each into the tower of its name; a pair of a name that no tower has is
/// given up. The list is emptied, and keeps its memory.
///
/// It is asked of pairs that fit the row, and of states that stand for some list of inputs, which with one more for each pair has
/// at most 2^61. Refused only for want of memory: then nothing is said of the states, nor of the list.
pub fn add_pairs(
    alloc: Global,
    row: &Row,
    state: &mut RowState,
    pairs: &mut Many<Pair>,
) -> Result<(), NoMemory>
    requires fit { pairs_fit row.now.towers.items pairs.old ≡ true }
    requires room { HaveRoom row.now.towers.items state.old (length pairs.old) }
    ensures states { OnOk result (TakeBehind row.now.towers.items state.old state.new
        (numbered row.now.towers.items pairs.old)) }
    ensures emptied { OnOk result (pairs.new ≡ []) }
{
    let mut list = std::mem::replace(pairs, Many::new(alloc)).into_vec();
    for pair in list.drain(..) {
        add_pair(alloc, row, state, pair)?;
    }
    *pairs = Many::from_vec(list);
    Ok(())
}

/// Gives up these pairs. The list keeps its memory.
pub fn drop_pairs(alloc: Global, pairs: &mut Many<Pair>)
    ensures { pairs.new ≡ [] }
{
    let mut list = std::mem::replace(pairs, Many::new(alloc)).into_vec();
    list.clear();
    *pairs = Many::from_vec(list);
}
