//! What became of the parts of a fold: outcomes, the logs of workers, and the whole that they give.
//!
//! A worker begins parts by [`begin_part`], which looks at the stop word once, and logs what became of each part. [`collect`]
//! puts the logs of all workers together. It answers what stands for the whole, whatever the order in which outcomes came
//! and however they lie over the logs: logs that are whole, in which each skip lies right of a stop, leave nothing open.
//!
//! ```text
//! match begin_part(alloc, job, least, &part, &word, &mut seat, &mut log, worker, &gate)? {
//!     Begun::Longer => .., // begin its halves
//!     Begun::Ran | Begun::Skipped => .., // it is logged
//! }
//! // when every part is begun, and all seats are joined
//! let (answer, tally) = collect(alloc, job, logs)?;
//! ```
#![tactic(auto)]

mod beginning;
mod collecting;
mod gates;
pub mod laws;
mod outcomes;
mod tallies;

pub use beginning::{Begun, begin_part};
pub use collecting::collect;
pub use gates::{Gate, OpenGate};
pub use outcomes::{Outcome, OutcomeKind, WorkerLog};
pub use tallies::Tally;
