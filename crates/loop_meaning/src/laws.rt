//! What holds of the definitions, for readers and for callers' proofs: each function is empty, and its contract is the law.

ghost use Rattle.loop_meaning.specs.Assigned.{OthersStay};
ghost use Rattle.loop_meaning.specs.Laws.{AxesAreCounted, BlocksEmitBehind, FaultStopsHaveKinds, FaultsHaveKinds};
ghost use Rattle.loop_meaning.specs.Laws.{HeadsEmitBehind, InputsAreFew, ItemsAreCounted, LeftmostStops, NoneStops};
ghost use Rattle.loop_meaning.specs.Laws.{NoneStopsBefore, NothingFollowsAStop, ProductHeads, ProductHoldsDigits};
ghost use Rattle.loop_meaning.specs.Laws.{RunsEmitFew, RunsFollowEachOther, RunsStopLeftmost, SkipsAtMostItems, SkipsNone};
ghost use Rattle.loop_meaning.specs.Laws.{StepsEmitAtMost, StepsEmitFew, StopsAmongItems, StopsCutTheList, StoreStays};
ghost use Rattle.loop_meaning.specs.Laws.{ZipAxes, ZipHeads, ZipHoldsItems};

/// The run over two lists is the run over the first and, where that ran to its end, then over the second. What follows a stop
/// doesn't count, and a run that stops is the run up to its stop.
pub fn runs_follow_each_other()
    ensures both { RunsFollowEachOther }
    ensures stop { NothingFollowsAStop }
    ensures cut { StopsCutTheList }
{}

/// A fault's kind is from 1 to 5.
pub fn faults_have_kinds()
    ensures steps { FaultsHaveKinds }
    ensures runs { FaultStopsHaveKinds }
{}

/// A run stops at the place of one of its items.
pub fn stops_among_items()
    ensures { StopsAmongItems }
{}

/// A run skips at most as many faults as it has items, and none without `on fault skip`.
pub fn skips_few()
    ensures most { SkipsAtMostItems }
    ensures none { SkipsNone }
{}

/// The leftmost stop is the least place at which an item stops. Where there are neither outer variables nor scratches, the run
/// from the start stops there.
pub fn leftmost_stop_is_least()
    ensures stops { LeftmostStops }
    ensures least { NoneStopsBefore }
    ensures none { NoneStops }
    ensures runs { RunsStopLeftmost }
{}

/// Where there are neither outer variables nor scratches a step leaves the store as it is.
pub fn store_stays()
    ensures { StoreStays }
{}

/// A name that a step neither binds nor assigns has the same value in the store afterwards.
pub fn others_stay()
    ensures { OthersStay }
{}

/// What was emitted before changes nothing of what a block, or the body runs of inner heads, do, and stands before what they
/// emit.
pub fn emitted_stands_behind()
    ensures blocks { BlocksEmitBehind }
    ensures heads { HeadsEmitBehind }
{}

/// A step emits at most 1,000,000 inputs for each `@reduce` line, and a run so many for each item. So a step of a program of at
/// most 64 such lines emits at most 64,000,000, and a name has below 2^58 inputs in a run over at most 2^32 items.
pub fn few_are_emitted()
    ensures steps { StepsEmitFew }
    ensures most { StepsEmitAtMost }
    ensures runs { RunsEmitFew }
    ensures inputs { InputsAreFew }
{}

/// Item k of a head that is a product is the tuple that holds each axis's item at the digits of k - 1, plus 1, in the mixed base
/// of the axes' counts, the first axis fastest; there is none beyond the product of the counts. The same of lists, with so many
/// choices before.
pub fn product_holds_digits()
    ensures heads { ProductHeads }
    ensures lists { ProductHoldsDigits }
{}

/// Item k of a head that is a zip is the tuple that holds each part's item k; there is none beyond the shortest part. The same of
/// each axis that is a zip, as one of a product's, and of lists, with so many rows before.
pub fn zip_holds_items()
    ensures heads { ZipHeads }
    ensures axes { ZipAxes }
    ensures lists { ZipHoldsItems }
{}

/// There are as many items as the counts of the head's axes say: a range has its count, a column its rows, a zip as many as its
/// shortest part, a product the product of its axes' counts.
pub fn items_are_counted()
    ensures items { ItemsAreCounted }
    ensures axes { AxesAreCounted }
{}
