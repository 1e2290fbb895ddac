//! One worker's deque of parts, under a rule that holds between any two steps.
//!
//! [`part_deque`] gives two ends. The [`PartOwner`] pushes and pops at the back, and a [`PartThief`] takes parts at the front,
//! from any thread; it can be split into as many ends as there are threads. Nothing is lost and nothing comes out twice: what
//! was pushed is, as often, what was taken and what the deque holds. Each end knows what it took itself; once all ends
//! are joined to the owner's, it has the whole weight and knows all of it.
//!
//! A `pop` or `steal` that gives nothing raises the `misses` of its end, a count that nothing else raises. No call waits.
//!
//! # Example
//!
//! Eight leaves are pushed from left to right; a test of thread_tests runs it:
//!
//! ```
//! let last = owner.pop().map(|part| (part.first(), part.len()));
//! let first = thief.steal().map(|part| (part.first(), part.len()));
//! assert_eq!(rt; (last, first), (Some((8, 1)), Some((1, 1))));
//! ```
#![tactic(auto)]

mod account;
pub mod laws;
mod making;
mod owner;
mod thief;

pub use making::part_deque;
pub use owner::PartOwner;
pub use thief::{PartThief, RIGHT_WEIGHT, RIGHTS};
