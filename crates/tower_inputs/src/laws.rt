//! What holds of the definitions, for readers and for callers' proofs: each function is empty, and its contract is the law.

ghost use Rattle.tower_inputs.specs.Laws.{InputFitsTower, StartFitsTower, InputDependsOnItsNames, InputKindsDependOnTheirNames};
ghost use Rattle.tower_inputs.specs.Laws.{InputKindsArePlain, InputsHaveThreeFaults, InputKindsDifferOnly};

/// What `eval_input` gives fits the kind of the tower, where `types_of_input` gives kinds, the values of names fit their kinds
/// and `place` is bound to a place.
pub fn input_fits_tower()
    ensures { InputFitsTower }
{}

/// A start value that fits the kind of a tower's input fits the tower, but for `argmin` and `argmax`.
pub fn start_fits_tower()
    ensures { StartFitsTower }
{}

/// What `eval_input` gives depends on the values of the names in the tower alone.
pub fn input_depends_on_its_names()
    ensures { InputDependsOnItsNames }
{}

/// What `types_of_input` gives depends on the kinds of the names that the tower reads alone.
pub fn input_kinds_depend_on_their_names()
    ensures { InputKindsDependOnTheirNames }
{}

/// No kind that `types_of_input` gives has Maybe in it, where the kinds of names are well formed.
pub fn input_kinds_are_plain()
    ensures { InputKindsArePlain }
{}

/// An input's faults are `DivideError`, `NotANumber` and `TextTooLong`.
pub fn inputs_have_three_faults()
    ensures { InputsHaveThreeFaults }
{}

/// Where a tower has no kinds of input, the definition says `Differs`.
pub fn input_kinds_differ_only()
    ensures { InputKindsDifferOnly }
{}
