//! The word that numbers are drawn from.

ghost use Rattle.std.specs.Prelude.{◌≡◌, ◌≤◌, ◌+◌, ◌-◌, ◌/◌, [], ◌∷◌, ◌++◌, length, IfOk, IsPermutation};
ghost use Rattle.loop_batch.specs.Numbers.{whole_weight, numbers_below, IsAbove};

use super::WHOLE;
use super::seats::ClaimSeat;
use super::views::{ClaimView, Draws, Halves, Looks, Once, Together};
use atomic_table::Table;
use no_memory::NoMemory;
use std::alloc::Global;
use std::marker::Model;

/// A word from which threads draw the numbers 0, 1, 2 and so on, each once. Threads share it by reference, each with a
/// [`ClaimSeat`] of its own.
///
/// Contracts see which claim it is, and nothing of what the word is at a moment, since any thread may change that. Each call
/// asks that the seats are this claim's.
#[derive(Drop)]
pub struct Claim {
    table: Table<(), ClaimView, (), Once, Global>,
}

impl Model for Claim {
    ghost use Rattle.std.specs.Prelude.{◌≡◌};
    ghost use Rattle.atomic_table.specs.Seated.{TableId, table_id_coded};

    ghost Value = { TableId };

    ghost coded = { table_id_coded };

    ghost view = { λ w. w.table.shared.table_id };

    ghost invariant = { λ w. (w.table.shared.table_id.words ≡ 1) × (w.table.shared.table_id.slots ≡ 0) };
}

impl Claim {
    /// A claim of which nothing is drawn, and its first seat, which has the whole weight. It is the one call here that takes
    /// memory.
    pub fn new(alloc: Global) -> Result<(Claim, ClaimSeat), NoMemory>
        ensures claim { IfOk result (λ r. r.1.claim ≡ r.0) }
        ensures weight { IfOk result (λ r. r.1.weight ≡ whole_weight) }
        ensures drawn { IfOk result (λ r. r.1.drawn ≡ []) }
    {
        let (table, seat) = Table::of_words(alloc, &[0], &())?;
        let seat = ClaimSeat {
            seat,
            weight: WHOLE,
        };
        Ok((Claim { table }, seat))
    }

    /// Draws the next number, in one atomic step: the word, which grows by 1. It costs one weight.
    ///
    /// The number is above each that the seat had drawn, and at least as large as how many these are. Where the seat's weight
    /// and draws were the whole it is how often the seat had drawn.
    pub fn draw(&self, seat: &mut ClaimSeat) -> u64
        requires claim { seat.old.claim ≡ self.now }
        requires weight { 1 ≤ seat.old.weight }
        ensures claim { seat.new.claim ≡ seat.old.claim }
        ensures weight { seat.new.weight ≡ seat.old.weight - 1 }
        ensures drawn { seat.new.drawn ≡ seat.old.drawn ++ result ∷ [] }
        ensures above { IsAbove result seat.old.drawn }
        ensures many { length seat.old.drawn ≤ result }
        ensures exact { seat.old.weight + length seat.old.drawn ≡ whole_weight →
            result ≡ length seat.old.drawn }
        ensures whole { seat.new.weight + length seat.new.drawn ≡ whole_weight →
            IsPermutation seat.new.drawn (numbers_below (length seat.new.drawn)) }
    {
        let number = self.table.shared.fetch_add::<Draws>(&mut seat.seat, 0, 1);
        seat.weight -= 1;
        number
    }

    /// A new seat, which gets half of the weight, rounded down, and has drawn nothing. A seat of weight 1 can't be split:
    /// [`ClaimSeat::weight`] is the test.
    pub fn split(&self, seat: &mut ClaimSeat) -> ClaimSeat
        requires claim { seat.old.claim ≡ self.now }
        requires weight { 2 ≤ seat.old.weight }
        ensures claim { seat.new.claim ≡ seat.old.claim }
        ensures weight { seat.new.weight ≡ seat.old.weight - seat.old.weight / 2 }
        ensures drawn { seat.new.drawn ≡ seat.old.drawn }
        ensures new_claim { result.claim ≡ seat.old.claim }
        ensures new_weight { result.weight ≡ seat.old.weight / 2 }
        ensures new_drawn { result.drawn ≡ [] }
    {
        let half = seat.weight / 2;
        let new = self.table.shared.split_seat::<Halves>(&mut seat.seat);
        seat.weight -= half;
        ClaimSeat {
            seat: new,
            weight: half,
        }
    }

    /// Puts two seats together: their weights are added, and the other's numbers follow the seat's own. The other is no more.
    pub fn join(&self, seat: &mut ClaimSeat, other: ClaimSeat)
        requires claim { (seat.old.claim ≡ self.now) × (other.claim ≡ self.now) }
        ensures claim { seat.new.claim ≡ seat.old.claim }
        ensures weight { seat.new.weight ≡ seat.old.weight + other.weight }
        ensures drawn { seat.new.drawn ≡ seat.old.drawn ++ other.drawn }
        ensures whole { seat.new.weight + length seat.new.drawn ≡ whole_weight →
            IsPermutation seat.new.drawn (numbers_below (length seat.new.drawn)) }
    {
        let ClaimSeat {
            seat: other,
            weight,
        } = other;
        self.table
            .shared
            .join_seat::<Together>(&mut seat.seat, other);
        // A join tells nothing of the rule. This load does: the weights together are at most the whole.
        self.table.shared.load::<Looks>(&mut seat.seat, 0);
        seat.weight += weight;
    }

    /// The word at its end: how many numbers were drawn. The seat's weight and draws are the whole, so all other seats were
    /// joined to it, and it has drawn each number below the word once.
    pub fn close(self, seat: ClaimSeat) -> u64
        requires claim { seat.claim ≡ self }
        requires whole { seat.weight + length seat.drawn ≡ whole_weight }
        ensures count { result ≡ length seat.drawn }
        ensures drawn { IsPermutation seat.drawn (numbers_below result) }
    {
        let Claim { table } = self;
        let ClaimSeat { seat, weight: _ } = seat;
        let closed = table.close_with(seat);
        let word = closed.word(0);
        closed.free();
        word
    }
}
