//! Divide and conquer: a fold that halves its parts, and runs the halves of the topmost on threads of their own.
//!
//! [`halves_logs`] gives what became of each part, in the logs of all seats. [`fold_halves`] collects them to the answer of the
//! whole. Where no item stops, each leaf is run. Where one does, what lies right of it may be skipped, whole nodes at a time.
//!
//! ```text
//! // Parts of 1,024 items at least, on four threads.
//! let (answer, tally) = fold_halves(&rt, alloc, &job, 1024, 4, &OpenGate)?;
//! ```
#![tactic(auto)]

mod folds;
mod forks;
mod nodes;

pub use folds::{fold_halves, halves_logs};
