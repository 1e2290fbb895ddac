//! Want of memory, the one error that every crate of floop shares.
//!
//! It stands in a crate of its own, below all others, so that what the edge of the program does can change without a
//! change in them.
#![tactic(auto)]

use std::alloc::{AllocError, AllocFailed};

/// Memory ran out: an allocation was refused. It stands for nothing else, and nothing else for it.
#[derive(Clone, Copy, Debug, PartialEq, Eq)]
pub struct NoMemory;

impl From<AllocError> for NoMemory {
    fn from(_error: AllocError) -> NoMemory {
        NoMemory
    }
}

impl<T: Drop> From<AllocFailed<T>> for NoMemory {
    fn from(_error: AllocFailed<T>) -> NoMemory {
        NoMemory
    }
}
