//! What one thread draws with.

ghost use Rattle.std.specs.Prelude.{◌≡◌, ◌≤◌, ◌+◌, length, IsPermutation};
ghost use Rattle.loop_batch.specs.Numbers.{whole_weight, numbers_below};

use super::views::ClaimView;
use atomic_table::Seat;
use std::marker::Model;

/// A seat of a claim, for one thread at a time: each number is drawn by one.
///
/// Contracts see which `claim` it is of, its `weight`, and the numbers that it has `drawn`, in order. At run time it is a weight
/// alone.
#[derive(Drop)]
pub struct ClaimSeat {
    pub(crate) seat: Seat<(), ClaimView>,
    pub(crate) weight: u64,
}

impl Model for ClaimSeat {
    ghost use Rattle.loop_batch.specs.Seats.{SeatState, seat_state_coded};

    ghost Value = { SeatState };

    ghost coded = { seat_state_coded };

    ghost use Rattle.loop_batch.specs.Fields.{seat_state, IsSeat};

    ghost view = { seat_state };

    ghost invariant = { IsSeat };
}

impl ClaimSeat {
    /// How many numbers the seat can still draw, from 0 to [`WHOLE`](crate::WHOLE). A seat of weight 1 can't be split. A seat
    /// whose weight and draws together are the whole has drawn each number from 0 on, as many as it has drawn.
    pub fn weight(&self) -> u64
        ensures value { result ≡ self.now.weight }
        ensures most { result + length self.now.drawn ≤ whole_weight }
        ensures whole { result + length self.now.drawn ≡ whole_weight →
            IsPermutation self.now.drawn (numbers_below (length self.now.drawn)) }
    {
        self.weight
    }
}
