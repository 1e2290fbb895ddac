//! Laws of towers and rows, each the contract of a function that does nothing, and what threads share.

ghost use Rattle.reducer_tower.specs.Laws.{SaysTheResult, StartsComeFirst};

use crate::{Emitted, Row, RowState, Tower, TowerState};
use loop_data::laws::is_shared;

/// Whichever list of inputs a state stands for, the state's text is the result text of that list.
pub fn a_state_says_the_result_of_its_inputs()
    ensures { SaysTheResult }
{}

/// Behind the start values of a row, the inputs of each tower are its start value, where it has one, and then its own.
pub fn start_values_come_first()
    ensures { StartsComeFirst }
{}

/// Threads share towers, rows and their states, and hand them to each other.
pub fn threads_share_towers() {
    is_shared::<Tower>();
    is_shared::<TowerState>();
    is_shared::<Row>();
    is_shared::<RowState>();
    is_shared::<Emitted>();
}
