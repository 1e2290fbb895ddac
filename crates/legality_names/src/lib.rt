//! The names that the lines of a program read, bind, assign and reduce into, what the rules of legal loops ask of them, and the
//! refusal of a line at a name.
//!
//! The rules are defined in the crate `legality_rules`.
#![tactic(auto)]

mod deeds;
mod names;
mod reads;

pub use deeds::{Deed, names_done};
pub use names::{
    first_among, illegal, is_in, loop_variable, mistyped, one_of, outer_variable, refuse, repeated,
    sort_in, taken, try_names, unknown,
};
pub use reads::{
    bounds_of, first_bounds, head_names, inner_bounds, name_and_reads, reads_of, reads_of_each,
    tower_reads,
};
