//! What holds of the row of a program, for readers and for callers' proofs: each function is empty, and its contract is the law.

ghost use Rattle.program_rows.specs.Laws.{OthersHaveNoTower, RowHasInputs, RowHasReducers, RowKeepsFirstLines};
ghost use Rattle.program_rows.specs.Laws.{FittingPairsFitRow, NoMoreInputsThanPairs, PairsFitTogether, PairsFollowEachOther};

/// A program's row has a tower for each of its reducers, in their order, with the kind and the start value of the reducer's first
/// `@reduce` line, and no other tower.
pub fn row_has_the_reducers()
    ensures names { RowHasReducers }
    ensures towers { RowKeepsFirstLines }
    ensures others { OthersHaveNoTower }
{}

/// The inputs of the tower under a name, start values first, are the inputs of this name in the plain loop.
pub fn row_has_the_inputs()
    ensures { RowHasInputs }
{}

/// Pairs that fit their reducers fit the towers of the row.
pub fn fitting_pairs_fit_the_row()
    ensures { FittingPairsFitRow }
{}

/// The pairs of two lists are the inputs of the first and then those of the second, and fit where those of each do. There is at
/// most one input a pair.
pub fn pairs_follow_each_other()
    ensures inputs { PairsFollowEachOther }
    ensures fit { PairsFitTogether }
    ensures few { NoMoreInputsThanPairs }
{}
