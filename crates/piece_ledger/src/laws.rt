//! Laws of outcomes and logs, each the contract of a function that does nothing. An executor cites them where its own logs are
//! kept by [`begin_part`](crate::begin_part).

ghost use Rattle.piece_ledger.specs.Laws.{WholeHasLawfulTally, NeighboursHoldEachOnce, SeenAreStops};
ghost use Rattle.piece_ledger.specs.Laws.{EmptyIsKept, BeginningKeeps, OneIsKept, BothAreKept};
ghost use Rattle.piece_ledger.specs.Laws.{NextIsKept, NextIsOrdered, KeptAreWhole, KeptAreRight};
ghost use Rattle.piece_ledger.specs.Laws.{OrderedRunsNoneRight, WholeCanBeCollected};

use crate::{Tally, WorkerLog};
use fold_seq::Job;

/// Logs that are whole, and in which each skip lies right of a stop, have a lawful tally. With one worker the tally is exact
/// where no part was run that lies right of a stop.
pub fn whole_logs_have_a_lawful_tally<S>()
    ensures { WholeHasLawfulTally S }
{}

/// What one seat logs that begins nodes is kept: its stops are what the seat has reported, each skip saw a number left of its
/// part, and no part was run after a stop left of it. Each call of [`begin_part`](crate::begin_part) keeps that.
pub fn beginning_keeps_a_log<J: Job>()
    ensures none { (job : J) → EmptyIsKept (J.stands job) (J.lens job) }
    ensures more { (job : J) → BeginningKeeps (J.stands job) (J.lens job) }
{}

/// The logs of seats that are joined are kept together, one seat's after the other's, so the lists of the joined seat speak of
/// all logs. What the joined seat logs afterwards follows, and is ordered after all stops before it.
pub fn logs_of_joined_seats_are_kept<J: Job>()
    ensures one { (job : J) → OneIsKept (J.stands job) (J.lens job) }
    ensures both { (job : J) → BothAreKept (J.stands job) (J.lens job) }
    ensures next { (job : J) → NextIsKept (J.stands job) (J.lens job) }
    ensures order { (job : J) → NextIsOrdered (J.stands job) (J.lens job) }
{}

/// Kept logs, whose parts are in some order all places from left to right, are whole. In them each skip lies right of a stop,
/// where each number that the seats have seen was reported, as the seat of the whole weight knows.
pub fn kept_logs_are_whole<J: Job>()
    ensures whole { (job : J) → KeptAreWhole (J.stands job) (J.lens job) }
    ensures right { (job : J) → KeptAreRight (J.stands job) (J.lens job) }
{}

/// Where the stops of outcomes are what seats have reported, each number that these seats have seen was reported, and each skip
/// saw a number left of its part, each skip lies right of a stop.
pub fn seen_numbers_are_stops<S>()
    ensures { SeenAreStops S }
{}

/// In a log whose parts lie next to each other from left to right no part was run that lies right of a stop, where none was run
/// after a stop left of it. That is the log of one worker.
pub fn a_log_from_left_to_right_runs_none_right_of_a_stop<J: Job>()
    ensures { (job : J) → OrderedRunsNoneRight (J.stands job) (J.lens job) }
{}

/// Where the parts of outcomes are, in some order, parts that lie next to each other from the first place to the last, each item
/// lies in exactly one outcome.
pub fn neighbours_hold_each_item_once<S>()
    ensures { NeighboursHoldEachOnce S }
{}

/// Logs that are whole, in which each answer stands for its part and each skip lies right of a stop, can be collected.
pub fn whole_logs_can_be_collected<J: Job>()
    ensures { (job : J) → WholeCanBeCollected (J.stands job) (J.lens job) }
{}

fn is_shared<T: Send + Sync>() {}

fn is_handed_over<T: Send>() {}

/// Threads hand logs to each other, and share tallies.
pub fn threads_hand_logs_over<S: Send>() {
    is_handed_over::<WorkerLog<S>>();
    is_shared::<Tally>();
}
