//! Laws of answers: public functions with no body, whose contracts are the laws.

ghost use Rattle.floop_run.specs.Answers.{OneAnswer, SomeAnswer};
/// Words over files have one answer at most.
pub fn one_answer()
    ensures { OneAnswer }
{}

/// No words over files are without an answer.
pub fn some_answer()
    ensures { SomeAnswer }
{}
