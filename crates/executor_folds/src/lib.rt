//! A job folded in the way that is asked for, on one thread or on several, without waiting: one function over all executors.
//!
//! [`fold_by`] answers what the whole job gives, whichever executor folds it, and a report that is lawful for that executor.
#![tactic(auto)]

mod folds;

pub use folds::fold_by;
