//! What holds of the definitions, for readers and for callers' proofs: each function is empty, and its contract is the law.

ghost use Rattle.loop_data.specs.declared.value.Value as value;
ghost use Rattle.loop_data.specs.declared.value.ValueKind as value_kind;
ghost use Rattle.loop_values.specs.Laws.{ValueFitsKind, NoDefaultIsAsked, ValueDependsOnItsNames, KindDependsOnItsNames};
ghost use Rattle.loop_values.specs.Laws.{KindsAreWellFormed, NotNothingFits, FittingIsPlain, TuplesFitByParts};
ghost use Rattle.loop_values.specs.Laws.{ValuesHaveThreeFaults, RangesHaveFiveFaults, KindsDifferOnly};
ghost use Rattle.loop_values.specs.Laws.{RangesStandForTheirItems, ItemsAreCounted, ItemsLieBetween, RangeDependsOnItsNames};
ghost use Rattle.loop_values.specs.Laws.{BoundNameHasItsValue, OtherNamesKeepTheirs, NamesBindInEitherOrder};
ghost use Rattle.loop_values.specs.Laws.{DecimalSpellsItsNumber, ModuloSplits};

use crate::{Env, EvalStop, InnerRange, TypeStop, Types};
use loop_data::laws::is_shared;

/// What `eval` gives fits the kind that `type_of` gives, where the values of names fit their kinds and `place`, where the
/// expression holds it, is bound to a number.
pub fn value_fits_kind()
    ensures { ValueFitsKind }
{}

/// There the definition's defaults are never asked for: each operand is of a kind that its operation takes.
pub fn no_default_is_asked()
    ensures { NoDefaultIsAsked }
{}

/// What `eval` gives depends on the values of the names in the expression alone.
pub fn value_depends_on_its_names()
    ensures { ValueDependsOnItsNames }
{}

/// What `type_of` gives depends on the kinds of the names that the expression reads alone.
pub fn kind_depends_on_its_names()
    ensures { KindDependsOnItsNames }
{}

/// A kind that `type_of` gives has Maybe only on the outside, and tuples of 2 to 4 parts, where the kinds of names have.
pub fn kinds_are_well_formed()
    ensures { KindsAreWellFormed }
{}

/// What fits Maybe of a kind and isn't nothing fits that kind.
pub fn not_nothing_fits()
    ensures { NotNothingFits }
{}

/// What fits a well-formed kind that isn't Maybe has nothing nowhere, and tuples of 2 to 4 parts.
pub fn fitting_is_plain()
    ensures { FittingIsPlain }
{}

/// What fits a tuple of kinds is a tuple whose parts fit them one by one.
pub fn tuples_fit_by_parts()
    ensures { TuplesFitByParts }
{}

/// An expression's faults are `DivideError`, `NotANumber` and `TextTooLong`.
pub fn values_have_three_faults()
    ensures { ValuesHaveThreeFaults }
{}

/// A range's faults are those and `TooManyInner` and `StepZero`.
pub fn ranges_have_five_faults()
    ensures { RangesHaveFiveFaults }
{}

/// Where an expression has no kind, the definition says `Differs`.
pub fn kinds_differ_only()
    ensures { KindsDifferOnly }
{}

/// The first, the step and the count of a range stand for its items, which are as many as the count.
pub fn ranges_stand_for_their_items()
    ensures items { RangesStandForTheirItems }
    ensures count { ItemsAreCounted }
{}

/// Each item of a range lies between its first and its last.
pub fn items_lie_between()
    ensures { ItemsLieBetween }
{}

/// What `eval_range` gives depends on the values of the names in the bounds alone.
pub fn range_depends_on_its_names()
    ensures { RangeDependsOnItsNames }
{}

/// A name that is bound has that value or kind, and each other name keeps its own.
pub fn bound_name_has_its_value()
    ensures value { BoundNameHasItsValue value.Value }
    ensures kind { BoundNameHasItsValue value_kind.ValueKind }
    ensures other_value { OtherNamesKeepTheirs value.Value }
    ensures other_kind { OtherNamesKeepTheirs value_kind.ValueKind }
{}

/// Two names that differ may be bound in either order.
pub fn names_bind_in_either_order()
    ensures value { NamesBindInEitherOrder value.Value }
    ensures kind { NamesBindInEitherOrder value_kind.ValueKind }
{}

/// The decimal text of a number of 64 bits spells that number.
pub fn decimal_text_spells_its_number()
    ensures { DecimalSpellsItsNumber }
{}

/// What `mod` gives for a divisor that isn't 0 lies between 0 and the divisor, and leaves a multiple of it.
pub fn modulo_splits()
    ensures { ModuloSplits }
{}

/// Threads share bindings, kinds of names and ranges, and hand them to each other.
pub fn threads_share_bindings() {
    is_shared::<Env>();
    is_shared::<Types>();
    is_shared::<InnerRange>();
    is_shared::<EvalStop>();
    is_shared::<TypeStop>();
}
