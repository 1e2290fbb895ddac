//! What holds of chains over lists of elements, for readers and for callers' proofs: each function is empty, and its contract is
//! the law.

ghost use Rattle.chain_stages.specs.Laws.{ChainsInTurn, EndStandsLast, FewLeave, NamesFollow, OneByOne, OneElement, TwoLists};

use crate::Stage;
use loop_data::laws::is_shared;

/// What a chain makes of two lists one after another is what it makes of the first and, where that comes to no end, what it
/// makes of the second. The end that came in stands after the last element that is left.
pub fn a_chain_takes_two_lists()
    ensures both { TwoLists }
    ensures end { EndStandsLast }
{}

/// What a chain makes of one element is what its further stages make of what the first lets through, and two chains one after
/// the other are one.
pub fn a_chain_goes_stage_by_stage()
    ensures one { OneElement }
    ensures two { ChainsInTurn }
{}

/// Whether each stage takes the whole list before the next begins, or each element goes through all stages before the next
/// element does, up to the first that brings an end: it comes to the same.
pub fn a_chain_goes_element_by_element()
    ensures { OneByOne }
{}

/// Of one item at most 64,000,000 pairs leave a chain whose stages hold at most 64 `@reduce` lines, where each `Cat` comes right
/// after the stage that sets its range.
pub fn few_pairs_leave_a_chain()
    ensures { FewLeave }
{}

/// Where each `Cat` comes right after the stage that sets the inner range of its name, it comes right after one that sets a range.
pub fn cats_of_their_names_follow()
    ensures { NamesFollow }
{}

/// Threads share stages, and hand them to each other.
pub fn threads_share_stages() {
    is_shared::<Stage>();
}
