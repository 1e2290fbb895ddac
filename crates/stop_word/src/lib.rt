//! The leftmost stop that is known so far: one word that threads share, and a seat for each of them.
//!
//! A worker that finds that its items end early at a place reports it, and each worker looks at the word before it begins
//! a part: what lies right of the word needn't be run. The word is [`NONE`] or the least place that some seat has
//! reported, and only falls.
//!
//! A [`StopSeat`] is what one thread steps with. It has a weight, and contracts see the places that it has reported and the
//! numbers that it has seen. All weights together are [`WHOLE`], so who holds the whole weight again knows all that was
//! reported. No call but [`StopWord::new`] takes memory, and none waits.
//!
//! # Example
//!
//! One seat reports two places; a test of thread_tests runs it:
//!
//! ```
//! let at_first = word.seen(&mut seat);
//! let before_seven = word.report(&mut seat, 7);
//! let before_nine = word.report(&mut seat, 9);
//! let at_last = word.seen(&mut seat);
//! assert!(rt; [at_first, before_seven, before_nine, at_last] == [NONE, NONE, 7, 7]);
//! assert!(rt; word.close(seat) == 7);
//! ```
//!
//! With two threads each has a seat of its own, by `split`; `lesser_of_two` there shows it, with its proof.
#![tactic(auto)]

pub mod laws;
mod seats;
mod views;
mod words;

pub use seats::StopSeat;
pub use words::StopWord;

/// What the word is while no place is reported: 2^64 - 1. No place is so large.
pub const NONE: u64 = u64::MAX;

/// The weight of the first seat, and of all seats together: 2^32. So there can be that many seats.
pub const WHOLE: u64 = 4294967296;
