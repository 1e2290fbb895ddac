//! What a loop means, as it is read from top to bottom: its items, one step of its body, its run, and the inputs of its
//! reducers. The store of outer variables and scratches lives on from item to item.
//!
//! The definitions stand in specs/: `start_store` (Stores), `items_of` (Items), what a statement does (Statements), `body_step`
//! (Steps), `loop_run` (Runs), `inputs_of` and `plain_end` (Reducers), `StopsAt` and `leftmost_stop` (Stops), and what follows
//! from them in [`laws`]. The calls compute them, one function for each definition.
#![tactic(auto)]

pub mod bounds;
mod heads;
mod items;
pub mod laws;
mod reducers;
mod runs;
mod statements;
mod steps;
mod stores;

pub use items::{ItemList, items_of};
pub use reducers::{Site, run_plain};
pub use runs::{Named, PlainEnd, PlainStop, Run, is_skipped};
pub use statements::{bind_pattern, run_block, run_statement};
pub use steps::{BodyEnd, BodyRun, Flow, Pair, step_plain};
pub use stores::{start_store, variables};
