//! What holds of programs that keep to the rules, for readers and for callers' proofs: functions with no body, whose contracts
//! are the laws; and what threads share.

ghost use Rattle.legality_check.specs.Laws.{KindsInScopeAreWellFormed, LegalInputsFit};

use crate::LegalProgram;
use loop_data::laws::is_shared;

/// On every line of a program the kinds of the names in scope are well formed.
pub fn kinds_in_scope_are_well_formed()
    ensures { KindsInScopeAreWellFormed }
{}

/// In a legal program each input of an `@reduce` line fits its tower, a start value too, where the values of names fit the
/// kinds of the names in scope and `place` is bound to a place.
pub fn legal_inputs_fit()
    ensures { LegalInputsFit }
{}

/// Threads share legal programs, and hand them to each other.
pub fn threads_share_legal_programs() {
    is_shared::<LegalProgram>();
}
