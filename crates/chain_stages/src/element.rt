//! What goes through a chain.

use loop_data::Many;
use loop_meaning::Pair;
use loop_values::{Env, InnerRange};

/// How the last statements of an element ended.
#[derive(Clone, Copy, Debug, PartialEq, Eq)]
pub enum Mark {
    /// What follows is done.
    Going,
    /// At a `break`.
    Broke,
    /// At a `continue`, or at an `@keep` of nothing.
    Ended,
}

/// An element of a chain: one item, or one body run of it, on its way through the stages.
#[derive(Debug, Drop)]
pub struct Element {
    /// The values of all names.
    pub env: Env,
    /// How many body runs the inner ranges so far make of one item.
    pub width: u64,
    pub mark: Mark,
    /// The inner range over whose items the element is about to be spread.
    pub inner: InnerRange,
    /// The inputs that the `@reduce` lines emitted, in order.
    pub emitted: Many<Pair>,
}
