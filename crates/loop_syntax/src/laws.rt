//! Laws of texts and programs: public functions with no body, whose contracts are the laws; and what threads share.

ghost use Rattle.loop_syntax.specs.Laws.{OneProgram, OneRefusal, NeverBoth, NeverNeither, ProgramsAreWellFormed};
ghost use Rattle.loop_syntax.specs.Laws.{WellFormedIsSpelled, FewParentheses};

use crate::Program;
use loop_data::laws::is_shared;

/// A text spells one program at most.
pub fn one_program()
    ensures { OneProgram }
{}

/// A text has one first refusal at most.
pub fn one_refusal()
    ensures { OneRefusal }
{}

/// No text is both spelled and refused.
pub fn never_both()
    ensures { NeverBoth }
{}

/// No text is neither spelled nor refused.
pub fn never_neither()
    ensures { NeverNeither }
{}

/// Every program passes the test of well-formed trees.
pub fn programs_are_well_formed()
    ensures { ProgramsAreWellFormed }
{}

/// The canonical text of every well-formed tree spells that tree, line numbers included, so that a tree is shown to be a
/// program by computing the test. The text may be longer than a loop file may be.
pub fn well_formed_is_spelled()
    ensures { WellFormedIsSpelled }
{}

/// At no place of what is written of a line are more parentheses open than the line has other tokens, for each line whose
/// parts are well formed.
pub fn few_parentheses()
    ensures { FewParentheses }
{}

/// Threads share programs, and hand them to each other.
pub fn threads_share_programs() {
    is_shared::<Program>();
}
