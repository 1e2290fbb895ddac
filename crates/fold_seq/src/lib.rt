//! What a part of a loop answers, and the fold on one thread.
//!
//! A [`Job`] answers for each part of a shape's items: that they ran to their end, with a state, or where they stopped or
//! faulted. Its meaning is the relation between a stretch of items and the answers that stand for it. The laws of that
//! relation are all that a fold needs to know of a job, in whatever order parts are run.
//!
//! # Example
//!
//! Two stretches next to each other, combined, are the whole; fold_examples has the job `SumUntil` and runs it, cut at each place:
//!
//! ```
//! let left = job.run(1, cut);
//! let right = job.run(1 + cut, rest);
//! combine(alloc, job, left, right)
//! ```
//!
//! and the fold on one thread answers the same:
//!
//! ```
//! assert!(rt; fold_seq(alloc, &job)? == *want, "{at}");
//! ```
#![tactic(auto)]

mod answers;
mod folds;
mod jobs;
pub mod laws;

pub use answers::{End, Reduced};
pub use folds::{combine, fold_seq};
pub use jobs::Job;
