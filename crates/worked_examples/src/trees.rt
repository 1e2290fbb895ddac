//! Trees written by hand, tried against the test of well-formed trees by computing it.

ghost use Rattle.worked_examples.specs.Trees.{PassesWhole, RefusesNames, RefusesLiterals, RefusesParts, RefusesOrder};
ghost use Rattle.worked_examples.specs.Trees.{RefusesBranches, RefusesDepth};

/// A tree written by hand passes the test, so that it is a program; and for each point of the test one is refused.
pub fn trees_tried()
    ensures passes { PassesWhole }
    ensures names { RefusesNames }
    ensures literals { RefusesLiterals }
    ensures parts { RefusesParts }
    ensures order { RefusesOrder }
    ensures branches { RefusesBranches }
    ensures depth { RefusesDepth }
{}
