//! What holds of chains, for callers' proofs: each function is empty, and its contract is the law. Those of a chain's output
//! alone stand in chain_stages.

ghost use Rattle.transducer_kit.specs.ChainLaws.{FewMayFold};

use crate::Chain;
use loop_data::laws::is_shared;

/// States that stand for at most 2^61 - 64,000,000 inputs have room for the pairs of one item, where each `Cat` comes right after
/// a range and the stages hold at most 64 `@reduce` lines.
pub fn few_pairs_may_be_folded()
    ensures { FewMayFold }
{}

/// Threads share a chain, and hand it to each other.
pub fn threads_share_chains() {
    is_shared::<Chain>();
}
