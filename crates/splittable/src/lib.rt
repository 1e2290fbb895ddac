//! Ranges, shapes and parts: collections that are cut in two, the halves being the whole in order.
//!
//! A [`Range`] is a list of numbers by Julia's rule. A [`Shape`] is a product of up to four axes, whose items are counted
//! from 1, the first axis changing fastest. A [`Part`] is a stretch of a shape's places, and is what is handed from thread
//! to thread. No call of this crate takes memory.
#![tactic(auto)]

mod halving;
pub mod laws;
mod parts;
mod ranges;
mod shapes;

pub use halving::Splittable;
pub use parts::{Part, least_part};
pub use ranges::{Range, RangeRefusal};
pub use shapes::{Shape, ShapeRefusal};
