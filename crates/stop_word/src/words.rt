//! The word that threads share.

ghost use Rattle.std.specs.Prelude.{◌≡◌, ◌≢◌, ◌<◌, ◌≤◌, ◌+◌, ◌-◌, ◌/◌, [], ◌∷◌, ◌++◌, IfOk};
ghost use Rattle.stop_word.specs.Numbers.{no_stop, whole_weight, least_of, AreAmong, IsAtMost};

use super::seats::StopSeat;
use super::views::{Halves, Leftmost, Loads, Looks, Reports, StopView, Together};
use super::{NONE, WHOLE};
use atomic_table::Table;
use no_memory::NoMemory;
use std::alloc::Global;
use std::marker::Model;

/// The leftmost stop that was reported so far. Threads share it by reference, each with a [`StopSeat`] of its own.
///
/// Contracts see which word it is, and nothing of what it holds at a moment, since any thread may change that. Each call asks
/// that the seats are this word's.
#[derive(Drop)]
pub struct StopWord {
    table: Table<(), StopView, (), Leftmost, Global>,
}

impl Model for StopWord {
    ghost use Rattle.std.specs.Prelude.{◌≡◌};
    ghost use Rattle.atomic_table.specs.Seated.{TableId, table_id_coded};

    ghost Value = { TableId };

    ghost coded = { table_id_coded };

    ghost view = { λ w. w.table.shared.table_id };

    ghost invariant = { λ w. (w.table.shared.table_id.words ≡ 1) × (w.table.shared.table_id.slots ≡ 0) };
}

impl StopWord {
    /// A word that is [`NONE`], and its first seat, which has the whole weight and has reported and seen nothing. It is the one
    /// call here that takes memory.
    pub fn new(alloc: Global) -> Result<(StopWord, StopSeat), NoMemory>
        ensures word { IfOk result (λ r. r.1.word ≡ r.0) }
        ensures weight { IfOk result (λ r. r.1.weight ≡ whole_weight) }
        ensures reported { IfOk result (λ r. r.1.reported ≡ []) }
        ensures seen { IfOk result (λ r. r.1.seen ≡ []) }
    {
        let (table, seat) = Table::of_words(alloc, &[NONE], &())?;
        let seat = StopSeat {
            seat,
            weight: WHOLE,
        };
        Ok((StopWord { table }, seat))
    }

    /// Reads the word, in one atomic step: [`NONE`], or the least place that was reported so far, by whichever seat.
    ///
    /// The answer is at most each number that the seat had reported or seen. With the whole weight it is the least place that
    /// the seat has reported, or [`NONE`] where there is none.
    pub fn seen(&self, seat: &mut StopSeat) -> u64
        requires word { seat.old.word ≡ self.now }
        ensures word { seat.new.word ≡ seat.old.word }
        ensures weight { seat.new.weight ≡ seat.old.weight }
        ensures reported { seat.new.reported ≡ seat.old.reported }
        ensures seen { seat.new.seen ≡ seat.old.seen ++ result ∷ [] }
        ensures least_reported { IsAtMost result seat.old.reported }
        ensures least_seen { IsAtMost result seat.old.seen }
        ensures exact { seat.old.weight ≡ whole_weight → result ≡ least_of seat.old.reported }
        ensures whole { seat.new.weight ≡ whole_weight → AreAmong seat.new.reported seat.new.seen }
    {
        self.table.shared.load::<Loads>(&mut seat.seat, 0)
    }

    /// Reports a stop at a place, which is below [`NONE`], in one atomic step: the word becomes the lesser of itself and the
    /// place. The answer is the old word.
    ///
    /// The answer is at most each number that the seat had reported or seen. With the whole weight it is the least place that
    /// the seat had reported, or [`NONE`] where there was none.
    pub fn report(&self, seat: &mut StopSeat, at: u64) -> u64
        requires word { seat.old.word ≡ self.now }
        requires place { at < no_stop }
        ensures word { seat.new.word ≡ seat.old.word }
        ensures weight { seat.new.weight ≡ seat.old.weight }
        ensures reported { seat.new.reported ≡ seat.old.reported ++ at ∷ [] }
        ensures seen { seat.new.seen ≡ seat.old.seen ++ result ∷ [] }
        ensures least_reported { IsAtMost result seat.old.reported }
        ensures least_seen { IsAtMost result seat.old.seen }
        ensures exact { seat.old.weight ≡ whole_weight → result ≡ least_of seat.old.reported }
        ensures whole { seat.new.weight ≡ whole_weight → AreAmong seat.new.reported seat.new.seen }
    {
        self.table
            .shared
            .fetch_min::<Reports>(&mut seat.seat, 0, at)
    }

    /// A new seat, which gets half of the weight, rounded down, and has reported and seen nothing. A seat of weight 1 can't be
    /// split: [`StopSeat::weight`] is the test.
    pub fn split(&self, seat: &mut StopSeat) -> StopSeat
        requires word { seat.old.word ≡ self.now }
        requires weight { 2 ≤ seat.old.weight }
        ensures word { seat.new.word ≡ seat.old.word }
        ensures weight { seat.new.weight ≡ seat.old.weight - seat.old.weight / 2 }
        ensures reported { seat.new.reported ≡ seat.old.reported }
        ensures seen { seat.new.seen ≡ seat.old.seen }
        ensures new_word { result.word ≡ seat.old.word }
        ensures new_weight { result.weight ≡ seat.old.weight / 2 }
        ensures new_reported { result.reported ≡ [] }
        ensures new_seen { result.seen ≡ [] }
    {
        let half = seat.weight / 2;
        let new = self.table.shared.split_seat::<Halves>(&mut seat.seat);
        seat.weight -= half;
        StopSeat {
            seat: new,
            weight: half,
        }
    }

    /// Puts two seats together: their weights are added, and the other's lists follow the seat's own. The other is no more.
    pub fn join(&self, seat: &mut StopSeat, other: StopSeat)
        requires word { (seat.old.word ≡ self.now) × (other.word ≡ self.now) }
        ensures word { seat.new.word ≡ seat.old.word }
        ensures weight { seat.new.weight ≡ seat.old.weight + other.weight }
        ensures reported { seat.new.reported ≡ seat.old.reported ++ other.reported }
        ensures seen { seat.new.seen ≡ seat.old.seen ++ other.seen }
        ensures whole { seat.new.weight ≡ whole_weight → AreAmong seat.new.reported seat.new.seen }
    {
        let StopSeat {
            seat: other,
            weight,
        } = other;
        self.table
            .shared
            .join_seat::<Together>(&mut seat.seat, other);
        // A join tells nothing of the rule. This load does: the weights together are at most the whole.
        self.table.shared.load::<Looks>(&mut seat.seat, 0);
        seat.weight += weight;
    }

    /// The word at its end: the least place that was reported, by whichever seat, or [`NONE`] where none was. The seat has the
    /// whole weight, so all other seats were joined to it.
    pub fn close(self, seat: StopSeat) -> u64
        requires word { seat.word ≡ self }
        requires whole { seat.weight ≡ whole_weight }
        ensures least { result ≡ least_of seat.reported }
        ensures known { AreAmong seat.reported seat.seen }
    {
        let StopWord { table } = self;
        let StopSeat { seat, weight: _ } = seat;
        let closed = table.close_with(seat);
        let word = closed.word(0);
        closed.free();
        word
    }
}
