//! What holds of a deque whatever the steps are: laws, each the contract of a function that does nothing.

ghost use Rattle.part_deque.specs.Laws.{StepsKeepRule, RuleAlwaysHolds, WholeWeightKnowsAll};

use crate::{PartOwner, PartThief};

/// Each kind of step keeps the rule from each state that meets it; so it holds after any steps that follow a making.
pub fn steps_keep_the_rule()
    ensures step { StepsKeepRule }
    ensures always { RuleAlwaysHolds }
{}

/// The owner that has the whole weight knows what the deque holds, and that nothing pushed was lost or came out twice.
pub fn the_whole_weight_knows_all()
    ensures { WholeWeightKnowsAll }
{}

fn is_handed_over<T: Send>() {}

/// Threads hand the ends of a deque to each other.
pub fn threads_hand_on_ends() {
    is_handed_over::<PartOwner>();
    is_handed_over::<PartThief>();
}
