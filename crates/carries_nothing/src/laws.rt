//! What holds of legal loops, for readers and for callers' proofs: each function is empty, and its contract is the law.

ghost use Rattle.carries_nothing.specs.Blocks.{BlocksKeepAlike};
ghost use Rattle.carries_nothing.specs.Laws.{BodiesAreSame, InnerItemsKeep, LastingNamesStay, LegalCarriesNothing};
ghost use Rattle.carries_nothing.specs.Laws.{OthersAreUnseen, PartsEndAsWhole, PartsLeaveAlike, RangesAreSame};
ghost use Rattle.carries_nothing.specs.Laws.{ReachedIsAlike, ReachedRunsAsStart, ReachedStepsAsStart, RunningSumCarries};
ghost use Rattle.carries_nothing.specs.Laws.{RunningSumIsIllegal, RunsReachStores, SometimesWrittenCarries};
ghost use Rattle.carries_nothing.specs.Laws.{SometimesWrittenIsIllegal, SpelledNamesLast, StartIsStore, StepsAreSame};
ghost use Rattle.carries_nothing.specs.Laws.{StepsLeaveStores, StopIsItsItems, StopsLeftmost};

/// From two body runs that agree but for names that may differ, a block none of whose paths reaches a read of one of these does
/// the same. Where it goes on, the names that may still differ are those that aren't surely written.
pub fn blocks_keep_runs_alike()
    ensures { BlocksKeepAlike }
{}

/// The body of a legal loop does the same from names that agree but for unseen ones: those that are neither `place`, nor of the
/// store, nor bound by a head, `let` or `@keep`, nor assigned (a reducer's is among these), and the scratches that some line
/// assigns. So do the ranges of its inner heads. No step binds or assigns a name that lasts. Where a text spells the program,
/// each item of an inner head leaves the names before it, but for unseen ones.
pub fn bodies_see_nothing_carried()
    ensures bodies { BodiesAreSame }
    ensures ranges { RangesAreSame }
    ensures lasting { LastingNamesStay }
    ensures kept { InnerItemsKeep }
{}

/// In a program that a text spells a name lasts exactly where it is an outer variable, or a scratch that no line assigns. A text
/// that is neither a name nor `place` is unseen.
pub fn spelled_names_last()
    ensures last { SpelledNamesLast }
    ensures others { OthersAreUnseen }
{}

/// The loop begins in a store, and a step from a store leaves one.
pub fn steps_leave_stores()
    ensures start { StartIsStore }
    ensures step { StepsLeaveStores }
{}

/// From two stores that are alike, one step of a legal loop, of one item at one place, emits the same pairs, ends in the same
/// way, and leaves each store alike with the one that it began from.
pub fn steps_from_alike_stores_are_same()
    ensures { StepsAreSame }
{}

/// A legal loop carries nothing. Its run from the start over a list, with one store that lives on, gives what the run from the
/// start over the left part of any cut gives, and where that ran to its end, this followed by what the run from the start over
/// the right part gives: the pairs, the number of skipped faults, and the stop. Each part has the place of its first item. The
/// stores that they leave are alike.
pub fn legal_loop_carries_nothing()
    ensures parts { LegalCarriesNothing }
    ensures stores { PartsLeaveAlike }
    ensures end { PartsEndAsWhole }
{}

/// From a store that is reached each run leaves one. In a legal loop each of them is alike with the start; from it the loop runs
/// as it does from the start, and the step of an item emits and ends so: what it does depends on the item and its place alone.
pub fn reached_stores_are_as_the_start()
    ensures reached { RunsReachStores }
    ensures alike { ReachedIsAlike }
    ensures runs { ReachedRunsAsStart }
    ensures steps { ReachedStepsAsStart }
{}

/// A legal loop stops at the least place whose own step from the start stops it, and nowhere where there is none. It stops there
/// as the run from the start over that item alone does: with the same line, and a fault with the same kind.
pub fn leftmost_stop_decides()
    ensures place { StopsLeftmost }
    ensures stop { StopIsItsItems }
{}

/// The rule on scratches is needed: a loop with one path on which the scratch that is read isn't written gives another answer in
/// two parts. It isn't legal.
pub fn scratch_on_unwritten_path_carries()
    ensures carries { SometimesWrittenCarries }
    ensures illegal { SometimesWrittenIsIllegal }
{}

/// So is the rule on outer variables: a loop that assigns one gives another answer in two parts. It isn't legal.
pub fn assigned_variable_carries()
    ensures carries { RunningSumCarries }
    ensures illegal { RunningSumIsIllegal }
{}
