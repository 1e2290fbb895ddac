//! What holds of legal loops, for readers and for callers' proofs: each function does nothing, and its contract is the law.

ghost use Rattle.fitting_inputs.specs.Laws.{BlocksFit, ItemsFit, LegalEntriesFit, LegalHeadsHaveKinds};
ghost use Rattle.fitting_inputs.specs.Laws.{LegalStepsFit, LegalRunsFit, LegalStretchesFit, FittingPairsAreNamed};
ghost use Rattle.fitting_inputs.specs.Laws.{LegalSitesAreFew, LegalStepsEmitFew, LegalRunsEmitFew, LegalPartsEmitFew};
ghost use Rattle.fitting_inputs.specs.Laws.{LegalExpressionsHaveKinds, LegalRunsAreStrict};
ghost use Rattle.fitting_inputs.specs.Laws.{LegalStartsFit, LinesAreSites, ReducersAgree, ReduceLinesAreFew};

use legality_check::laws::legal_inputs_fit;

/// From a body run whose names fit the kinds of the names in scope, a block whose lines fit leaves such a body run.
pub fn blocks_keep_runs_fitting()
    ensures { BlocksFit }
{}

/// Each item of a head over a table fits the kind of the head's items.
pub fn items_fit_their_kind()
    ensures { ItemsFit }
{}

/// A legal head has a kind of items, which its pattern takes.
pub fn legal_heads_have_kinds()
    ensures { LegalHeadsHaveKinds }
{}

/// Each line of a legal program fits: what it says fits the kinds of the names in scope, and what it emits the tower of its
/// reducer.
pub fn legal_lines_fit()
    ensures { LegalEntriesFit }
{}

/// Of each item that fits the kind of the head's items, at each place of an item, all that its step from the start emits fits the
/// towers of the reducers, however the step ends: also where it faults.
pub fn legal_steps_emit_fitting()
    ensures { LegalStepsFit }
{}

/// All that the run of a legal loop over the items of its head, at most 4,294,967,296, emits from the start and place 1 fits the
/// towers of the reducers.
pub fn legal_runs_emit_fitting()
    ensures { LegalRunsFit }
{}

/// So does what the run over each stretch of these items emits, from the start, also right of an item that stops the loop.
pub fn legal_stretches_emit_fitting()
    ensures { LegalStretchesFit }
{}

/// An emitted pair that fits has the name of a reducer.
pub fn fitting_pairs_are_named()
    ensures { FittingPairsAreNamed }
{}

/// Each expression on the lines of a legal program has a kind under those of the names in scope.
pub fn legal_expressions_have_kinds()
    ensures { LegalExpressionsHaveKinds }
{}

/// No expression that the run of a legal loop over its items, at most 4,294,967,296, or over a stretch of them, may evaluate asks
/// for a default: the evaluator without defaults gives its value or its fault.
pub fn legal_runs_ask_for_no_default()
    ensures { LegalRunsAreStrict }
{}

/// A step of a legal program emits at most 64,000,000 pairs, a run so many for each item, and a run over at most 2^32 items at
/// most 2^58. It has at most 64 `@reduce` lines, as its runs count them.
pub fn legal_runs_emit_few()
    ensures sites { LegalSitesAreFew }
    ensures steps { LegalStepsEmitFew }
    ensures runs { LegalRunsEmitFew }
    ensures parts { LegalPartsEmitFew }
{}

/// In a legal program all `@reduce` lines of a name have the tower of the first, each start value fits it, and there are at most
/// 64 such lines.
pub fn legal_reducers_have_one_tower()
    ensures towers { ReducersAgree }
    ensures starts { LegalStartsFit }
    ensures few { ReduceLinesAreFew }
{
    // that start values fit is a part of that law
    legal_inputs_fit();
}

/// The `@reduce` lines are those by which the inputs of a name are told.
pub fn reduce_lines_are_sites()
    ensures { LinesAreSites }
{}
