//! What the claim's rule is over, and what each step tells.

use atomic_table::{Join, Play, Split, TableRule};
use std::collections::LinkedList;

/// What a seat knows: its weight, and the numbers that it has drawn. No value of it is made.
pub struct ClaimView {
    pub weight: u64,
    pub drawn: LinkedList<u64>,
}

/// Each number below the word was drawn once.
pub struct Once;

impl TableRule<(), ClaimView, ()> for Once {
    ghost use Rattle.loop_batch.specs.Rule.{KeepsRule};
    ghost use Rattle.loop_batch.specs.Steps.{first_view};

    ghost holds = { λ _. KeepsRule };

    ghost first = { λ _. first_view };
}

/// A `fetch_add` of 1.
pub struct Draws;

impl Play<(), ClaimView> for Draws {
    ghost use Rattle.loop_batch.specs.Tells.{draws};

    ghost then = { draws };
}

/// A load that isn't kept.
pub struct Looks;

impl Play<(), ClaimView> for Looks {
    ghost use Rattle.loop_batch.specs.Tells.{looks};

    ghost then = { looks };
}

/// The new seat has half the weight, rounded down, and an empty list.
pub struct Halves;

impl Split<ClaimView> for Halves {
    ghost use Rattle.loop_batch.specs.Steps.{left_view, right_view};

    ghost left = { left_view };

    ghost right = { right_view };
}

/// The weights are added and the lists put together.
pub struct Together;

impl Join<ClaimView> for Together {
    ghost use Rattle.loop_batch.specs.Steps.{both_view, spent_view};

    ghost both = { both_view };

    ghost spent = { spent_view };
}
