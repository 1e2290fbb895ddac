//! Many works, each done once, by as many workers as are asked for: each worker draws the number of its next work from a word
//! that all share.
//!
//! [`Claim`] is the word. A [`ClaimSeat`] is what one thread draws with. It has a weight, which each draw lessens by 1, and
//! contracts see the numbers that it has drawn. All weights and draws together are [`WHOLE`], so whoever has that much again
//! has drawn all that was drawn, each number once.
#![tactic(auto)]

mod claims;
pub mod laws;
mod seats;
mod views;

pub use claims::Claim;
pub use seats::ClaimSeat;

/// The weight of the first seat, and the weight and the draws of all seats together: 2^32.
pub const WHOLE: u64 = 4294967296;
