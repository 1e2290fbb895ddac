//! What holds of a queue whatever the steps are: laws, each the contract of a function that does nothing.

ghost use Rattle.fold_pool.specs.Laws.{StepsKeepRule, RuleAlwaysHolds, WholeWeightKnowsAll};

use crate::{LeafQueue, QueueSeat};

/// Each kind of step keeps the rule from each state that meets it; so it holds after any steps that follow a making.
pub fn steps_keep_the_rule()
    ensures step { StepsKeepRule }
    ensures always { RuleAlwaysHolds }
{}

/// Who has the whole weight knows what is left in the queue: what was put without as many of the first as were taken, which
/// are, as often, what was taken.
pub fn the_whole_weight_knows_all()
    ensures { WholeWeightKnowsAll }
{}

fn is_shared<T: Sync>() {}

fn is_handed_over<T: Send>() {}

/// Threads share queues, and hand seats to each other.
pub fn threads_share_queues() {
    is_shared::<LeafQueue>();
    is_handed_over::<LeafQueue>();
    is_handed_over::<QueueSeat>();
}
