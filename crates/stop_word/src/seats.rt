//! What one thread steps with.

ghost use Rattle.std.specs.Prelude.{◌≡◌, ◌<◌, ◌≤◌};
ghost use Rattle.stop_word.specs.Numbers.{whole_weight, AreAmong};

use super::views::StopView;
use atomic_table::Seat;
use std::marker::Model;

/// A seat of a stop word, for one thread at a time: each step on the word is made by one.
///
/// Contracts see which `word` it is of, its `weight`, the places that it has `reported` and the numbers that it has `seen`,
/// each list in order of its steps. At run time it is a weight alone.
#[derive(Drop)]
pub struct StopSeat {
    pub(crate) seat: Seat<(), StopView>,
    pub(crate) weight: u64,
}

impl Model for StopSeat {
    ghost use Rattle.stop_word.specs.Seats.{SeatState, seat_state_coded};

    ghost Value = { SeatState };

    ghost coded = { seat_state_coded };

    ghost use Rattle.stop_word.specs.Fields.{seat_state, IsSeat};

    ghost view = { seat_state };

    ghost invariant = { IsSeat };
}

impl StopSeat {
    /// The seat's weight, from 1 to [`WHOLE`](crate::WHOLE). A seat of weight 1 can't be split; one of the whole weight can
    /// close the word, and has itself reported each number that it has seen, but [`NONE`](crate::NONE).
    pub fn weight(&self) -> u64
        ensures value { result ≡ self.now.weight }
        ensures some { 0 < result }
        ensures most { result ≤ whole_weight }
        ensures whole { result ≡ whole_weight → AreAmong self.now.reported self.now.seen }
    {
        self.weight
    }
}
