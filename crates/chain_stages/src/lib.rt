//! Stages of a chain, and what a chain of them makes of a list of elements.
//!
//! An [`Element`] is one item on its way: the values of all names, and what was emitted so far. A [`Stage`] lets elements through,
//! changed or not, or brings an end. What a stage and a chain make of a whole list of elements is defined in specs/ (Stages,
//! Chains), and what follows from that in [`laws`]. The code that takes elements through a chain stands in the crate above.
#![tactic(auto)]

mod cats;
mod element;
pub mod laws;
mod stages;
mod step_end;

pub use cats::cats_follow;
pub use element::{Element, Mark};
pub use stages::{Doing, Source, Stage, Test};
pub use step_end::StepEnd;
