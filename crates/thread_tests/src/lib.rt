//! Callers of the stop word and of one worker's deque of parts, with one thread and with several, and their tests.
//!
//! They stand here and not in the crates that they call, so that a change of a test proves nothing else again.
#![tactic(auto)]

pub mod part_deques;
pub mod stop_words;
