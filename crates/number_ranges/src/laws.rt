//! What the definitions of ranges give: laws, each the contract of a function that does nothing.

ghost use Rattle.number_ranges.specs.Laws.{ItemsLieBetween, ItemsFit, CountsAreBounded, HoldsWhatIsNotPast, ItemsAreCounted};
ghost use Rattle.number_ranges.specs.Laws.{LengthIsCount, ItemsByPlace, NoItems, FirstThenRest, ItemsOfNeighbours, StepsAdd};

/// Each item of a range lies between its first and its last, and so fits 64 bits where they do.
pub fn items_lie_between()
    ensures between { ItemsLieBetween }
    ensures fit { ItemsFit }
{}

/// A range of 64-bit numbers has at most 2^64 items.
pub fn counts_are_bounded()
    ensures { CountsAreBounded }
{}

/// A range holds the number so many steps on from its first exactly where it doesn't lie past the last, as the step goes.
pub fn ranges_hold_what_is_not_past_their_last()
    ensures { HoldsWhatIsNotPast }
{}

/// The items of a range are as many as its count.
pub fn items_are_counted()
    ensures range { ItemsAreCounted }
    ensures length { LengthIsCount }
{}

/// The item behind `k` others is the first and `k` steps.
pub fn items_by_place()
    ensures { ItemsByPlace }
{}

/// The items are the first, and then those from the number one step on.
pub fn items_one_by_one()
    ensures none { NoItems }
    ensures some { FirstThenRest }
{}

/// A list of items that is cut in two: the second part begins as many steps on as the first part has items.
pub fn items_of_neighbours()
    ensures items { ItemsOfNeighbours }
    ensures steps { StepsAdd }
{}
