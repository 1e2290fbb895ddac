//! Laws of what states stand for, each the contract of a function that does nothing, and what threads share.

ghost use Rattle.reducer_laws.specs.Laws.{MergingIsAssociative, UnitsAddNothing, StatesAreBest, StatesAreUnbeaten};
ghost use Rattle.reducer_laws.specs.Laws.{LeastIsHeldAtLeastPlace, GreatestIsHeldAtLeastPlace, SumsAreWithinBounds};
ghost use Rattle.reducer_laws.specs.Laws.{LeastStatesSayResults, GreatestStatesSayResults};
ghost use Rattle.reducer_laws.specs.Laws.{GroupsHaveKeysOfInputs, EachGroupStands};

use crate::{
    AllOf, AnyOf, Both, Count, FirstOf, Greatest, GreatestAt, Grouped, Groups, LastOf, Least,
    LeastAt, Listed, Preference, Prod, Reducer, Sum,
};
use loop_data::Many;
use loop_data::laws::is_shared;

/// Three states merged either way stand for their three lists together.
pub fn merging_is_associative<R: Reducer>()
    ensures { (r : R) → MergingIsAssociative (R.stands r) }
{}

/// A state merged with a unit, on either side, stands for what it stood for.
pub fn a_unit_adds_nothing<R: Reducer>()
    ensures { (r : R) → UnitsAddNothing (R.stands r) }
{}

/// What a best state holds is the best of its inputs, one that no input beats. It holds none exactly where there are none.
pub fn the_best_is_an_unbeaten_input<P: Preference>()
    ensures best { StatesAreBest P.beats }
    ensures unbeaten { StatesAreUnbeaten P.beats }
{}

/// The smallest value is held with the least place where a value stands that is equal to it.
pub fn the_least_stands_at_its_least_place<T: Ord>()
    ensures { LeastIsHeldAtLeastPlace T.cmp }
{}

/// The greatest value is held with the least place where a value stands that is equal to it.
pub fn the_greatest_stands_at_its_least_place<T: Ord>()
    ensures { GreatestIsHeldAtLeastPlace T.cmp }
{}

/// A state of an extreme with its place says what a tower's result says, whose places are integers of the loop language.
pub fn a_state_with_its_place_says_the_result<T: Ord>()
    ensures least { LeastStatesSayResults T.cmp }
    ensures greatest { GreatestStatesSayResults T.cmp }
{}

/// The sum of at most 2^62 inputs is at most 2^125 from zero.
pub fn a_sum_is_within_bounds()
    ensures { SumsAreWithinBounds }
{}

/// Groups that stand for a list have the keys of the list, each once and by rising bytes, and the state of each stands for the
/// inputs of that key.
pub fn groups_have_the_keys_of_their_inputs<R: Reducer>()
    ensures keys { (r : R) → GroupsHaveKeysOfInputs (R.stands r) }
    ensures states { (r : R) → EachGroupStands (R.stands r) }
{}

/// Threads share these reducers, and hand them to each other.
pub fn threads_share_reducers<T: Ord + Send + Sync, A: Send + Sync, B: Send + Sync>() {
    is_shared::<Sum>();
    is_shared::<Prod>();
    is_shared::<Count>();
    is_shared::<Least<T>>();
    is_shared::<Greatest<T>>();
    is_shared::<LeastAt<T>>();
    is_shared::<GreatestAt<T>>();
    is_shared::<FirstOf<T>>();
    is_shared::<LastOf<T>>();
    is_shared::<AnyOf>();
    is_shared::<AllOf>();
    is_shared::<Both<A, B>>();
}

/// Threads share the reducers of lists and groups and their states, and hand them to each other.
pub fn threads_share_lists_and_groups<T: Send + Sync, R: Send + Sync>() {
    is_shared::<Listed<T>>();
    is_shared::<Many<T>>();
    is_shared::<Grouped<R>>();
    is_shared::<Groups<T>>();
}
