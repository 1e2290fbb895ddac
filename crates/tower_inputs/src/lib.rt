//! What `@reduce` lines emit: the kind of a tower of expressions, its input under the values of names, and the kinds of its
//! input under the kinds of names.
//!
//! The definitions stand in specs/: `kind_of_tower` (Towers), `input_of` (Inputs), `kinds_of_input` (InputKinds), and what
//! follows from them in [`laws`]. The functions compute them: [`kind_of_tower`], [`eval_input`] and [`types_of_input`].
#![tactic(auto)]

mod inputs;
pub mod laws;
mod towers;
mod types;

pub use inputs::{MOST_SITES, eval_input};
pub use towers::{is_same_tower, kind_of_tower};
pub use types::{are_same_kinds, types_of_input};
