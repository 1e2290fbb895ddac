//! A loop as a job: work over the items of its head that can be done in parts.
//!
//! [`lower`] makes a [`LoopJob`] of a legal program and a table. Its `run_part` makes the items of a part along a walk and takes
//! each through the chain of stages to which the body is lowered; what leaves the chain goes into the states of the loop's
//! reducers. So each way to fold a job gives what the plain loop gives that reads the items in order.
#![tactic(auto)]

mod ends;
mod item;
mod job;
pub mod laws;
mod lowering;
mod part;

pub use ends::LoopEnd;
pub use job::LoopJob;
pub use loop_standing::LoopState;
pub use lowering::{LowerRefusal, lower};
