//! What follows from the definitions, each the contract of a function that does nothing, and what threads share.

ghost use Rattle.loop_items.specs.Laws.{AxesCountItems, NeighboursHaveItems, NoneIsRefused, PartsHaveItemsOfPlaces};
ghost use Rattle.loop_items.specs.Laws.{RefusalsHaveReasons, RefusalsHaveTheLine, WholeHasAllItems};

use crate::{HeadItems, Walk};
use loop_data::laws::is_shared;

/// A head has as many items as the product of its axes' lengths.
pub fn axes_count_items()
    ensures { AxesCountItems }
{}

/// A head has no refusal exactly where a loop may run over it: each range has a step and not too many numbers, each column is
/// there, and there are not too many items. Each refusal has its reason, and the line of the `for`.
pub fn refusals_have_reasons()
    ensures none { NoneIsRefused }
    ensures reason { RefusalsHaveReasons }
    ensures line { RefusalsHaveTheLine }
{}

/// The items of a part are those at its places; the whole has all; those of two parts next to each other, one after the other,
/// are those of both.
pub fn parts_have_items()
    ensures places { PartsHaveItemsOfPlaces }
    ensures whole { WholeHasAllItems }
    ensures neighbours { NeighboursHaveItems }
{}

/// Threads share open heads and walks, and hand them to each other.
pub fn threads_share_heads<'h, 't: 'h>() {
    is_shared::<HeadItems<'t>>();
    is_shared::<Walk<'h, 't>>();
}
