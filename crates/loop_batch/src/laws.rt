//! What holds of a claim whatever the steps are: laws, each the contract of a function that does nothing.

ghost use Rattle.loop_batch.specs.Laws.{StepsKeepRule, RuleAlwaysHolds, NextIsNew, WholeKnowsAll};

use crate::{Claim, ClaimSeat};

/// Each kind of step keeps the rule from each state that meets it; so it holds after any steps that follow a making.
pub fn steps_keep_the_rule()
    ensures step { StepsKeepRule }
    ensures always { RuleAlwaysHolds }
{}

/// No seat has drawn the number that the next draw gives.
pub fn the_next_number_is_new()
    ensures { NextIsNew }
{}

/// A seat whose weight and draws are the whole has drawn each number below the word once, and no other seat has drawn any.
pub fn the_whole_knows_all()
    ensures { WholeKnowsAll }
{}

fn is_shared<T: Sync>() {}

fn is_handed_over<T: Send>() {}

/// Threads share claims, and hand claims and seats to each other.
pub fn threads_share_claims() {
    is_shared::<Claim>();
    is_handed_over::<Claim>();
    is_handed_over::<ClaimSeat>();
}
