//! What the word's rule is over, and what each step tells.

ghost use Rattle.std.specs.Prelude.{◌≡◌};

use atomic_table::{Join, Play, Split, TableRule};
use std::collections::LinkedList;

/// What a seat knows: its weight, the places that it has reported and the numbers that it has seen. No value of it is made.
pub struct StopView {
    pub weight: u64,
    pub reported: LinkedList<u64>,
    pub seen: LinkedList<u64>,
}

/// The word is the leftmost stop that was reported.
pub struct Leftmost;

impl TableRule<(), StopView, ()> for Leftmost {
    ghost use Rattle.stop_word.specs.Rule.{KeepsRule};
    ghost use Rattle.stop_word.specs.Steps.{first_view};

    ghost holds = { λ _. KeepsRule };

    ghost first = { λ _. first_view };
}

/// A load.
pub struct Loads;

impl Play<(), StopView> for Loads {
    ghost use Rattle.stop_word.specs.Tells.{loads};

    ghost then = { loads };
}

/// A `fetch_min`.
pub struct Reports;

impl Play<(), StopView> for Reports {
    ghost use Rattle.stop_word.specs.Tells.{reports};

    ghost then = { reports };
}

/// A load that isn't kept.
pub struct Looks;

impl Play<(), StopView> for Looks {
    ghost use Rattle.stop_word.specs.Tells.{looks};

    ghost then = { looks };
}

/// The new seat has half the weight, rounded down, and empty lists.
pub struct Halves;

impl Split<StopView> for Halves {
    ghost use Rattle.stop_word.specs.Steps.{left_view, right_view};

    ghost left = { left_view };

    ghost right = { right_view };
}

/// The weights are added and the lists put together.
pub struct Together;

impl Join<StopView> for Together {
    ghost use Rattle.stop_word.specs.Steps.{both_view, spent_view};

    ghost both = { both_view };

    ghost spent = { spent_view };
}
