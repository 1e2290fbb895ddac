//! What the rules of legal loops ask of kinds: those of expressions, patterns, literals and the items of heads, and those of
//! the inputs of `@reduce` lines.
//!
//! The kinds themselves are defined in the crates `loop_values` and `tower_inputs`, and the rules in `legality_rules`.
#![tactic(auto)]

mod kinds;
mod sites;

pub use kinds::{
    are_ints, fits_pattern, has_kind_of, is_bool, item_kind, kind_in, literal_kind, pattern_kinds,
    pattern_parts, takes_items,
};
pub use sites::{first_site, inputs_fit, is_other, may_start, site_of};
