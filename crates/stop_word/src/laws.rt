//! What holds of a stop word whatever the steps are, and what the least place is: laws, each the contract of a function
//! that does nothing.

ghost use Rattle.std.specs.Prelude.{◌≡◌, []};
ghost use Rattle.stop_word.specs.Numbers.{no_stop, least_of};
ghost use Rattle.stop_word.specs.Laws.{StepsKeepRule, RuleAlwaysHolds, WordNeverRises, WholeWeightKnowsAll, LeastIsOne};
ghost use Rattle.stop_word.specs.Laws.{LeastIsLeast};

use crate::{StopSeat, StopWord};

/// Each kind of step keeps the rule from each state that meets it; so it holds after any steps that follow a making.
pub fn steps_keep_the_rule()
    ensures step { StepsKeepRule }
    ensures always { RuleAlwaysHolds }
{}

/// The word only falls.
pub fn the_word_never_rises()
    ensures { WordNeverRises }
{}

/// Who has the whole weight has all that was reported and seen, and each number seen but [`NONE`](crate::NONE) was reported.
pub fn the_whole_weight_knows_all()
    ensures { WholeWeightKnowsAll }
{}

/// The least of no places is [`NONE`](crate::NONE). The least of some places is one of them, and at most each of them.
pub fn least_is_the_least()
    ensures none { least_of [] ≡ no_stop }
    ensures one { LeastIsOne }
    ensures least { LeastIsLeast }
{}

fn is_shared<T: Sync>() {}

fn is_handed_over<T: Send>() {}

/// Threads share words, and hand words and seats to each other.
pub fn threads_share_words() {
    is_shared::<StopWord>();
    is_handed_over::<StopWord>();
    is_handed_over::<StopSeat>();
}
