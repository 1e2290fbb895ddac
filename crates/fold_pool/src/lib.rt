//! The pool: a fold whose workers take leaves from one queue.
//!
//! [`pool_logs`] fills a queue with all leaves from left to right, lets the workers empty it, and takes what they left. It gives
//! what became of each leaf, in the logs of the workers and one more. [`fold_pool`] collects them to the answer of the whole.
//!
//! ```text
//! // Parts of 1,024 items at least, by four workers.
//! let (answer, tally) = fold_pool(&rt, &wait, alloc, &job, 1024, 4, &OpenGate)?;
//! ```
//!
//! The queue's rule is over what each seat knows. A [`QueueSeat`] is what one thread steps with. It has a weight, and contracts
//! see the parts that it has put and taken, and the shape and the least part size for which each part of the queue is a leaf.
//! All weights together are [`WHOLE`], so who holds the whole weight again knows what all seats have taken. Only filling the
//! queue and taking from it wait.
#![tactic(auto)]

mod crews;
mod filling;
mod folds;
pub mod laws;
mod leaf_lists;
mod queues;
mod seats;
mod views;
mod workers;

pub use folds::{fold_pool, pool_logs};
pub use leaf_lists::leaves;
pub use queues::LeafQueue;
pub use seats::QueueSeat;

/// The weight of the first seat, and of all seats together.
pub const WHOLE: u64 = 4294967296;
