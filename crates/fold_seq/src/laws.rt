//! Laws of what a job's answers stand for, each the contract of a function that does nothing. They follow from the laws of
//! [`Job`](crate::Job), and are what a fold in parts rests on, in whatever order it runs them.

ghost use Rattle.fold_seq.specs.Standing.{StopLies, EndsAlike};
ghost use Rattle.fold_seq.specs.Laws.{BothStand, KnownStand, FirstEndDecides, StopStandsForLonger};

use crate::{End, Job, Reduced};

/// Answers of two neighbouring stretches, combined, stand for both together.
pub fn combining_stands_for_both<J: Job>()
    ensures { (job : J) → BothStand (J.stands job) (J.merges job) }
{}

/// Of stretches next to each other, one has no answer only where one before it stopped or faulted. Then the answers that there
/// are, combined from left to right, stand for all stretches together, and the first that stopped or faulted decides how they
/// end.
pub fn known_answers_stand_for_all<J: Job>()
    ensures stands { (job : J) → KnownStand (J.stands job) (J.merges job) }
    ensures end { (job : J) → FirstEndDecides (J.merges job) }
{}

/// What stopped or faulted stands for each longer stretch from the same place: what lies right of a stop decides nothing.
pub fn a_stop_stands_for_longer_stretches<J: Job>()
    ensures { (job : J) → StopStandsForLonger (J.stands job) }
{}

/// A stretch stops or faults at one of its own items.
pub fn a_stop_lies_in_its_stretch<J: Job>()
    ensures { (job : J) → StopLies (J.stands job) }
{}

/// All answers of one stretch have the same end: the same kind, at the same place and line, with the same fault.
pub fn answers_end_alike<J: Job>()
    ensures { (job : J) → EndsAlike (J.stands job) }
{}

fn is_handed_over<T: Send>() {}

fn is_shared<T: Send + Sync>() {}

/// Threads hand answers to each other where they may hand over states, and share ends.
pub fn threads_hand_answers_over<S: Send>() {
    is_handed_over::<Reduced<S>>();
    is_shared::<End>();
}
