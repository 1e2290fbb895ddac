//! The words of the program: a command, and its settings as `name=value`.
//!
//! [`request_of`] reads them: it gives a [`Request`], or the first [`Refusal`]. Which commands there are, which settings each has
//! and what a value must be stands in two tables, [`Command`] and [`Setting`]: a further command is one more variant with
//! its rows, and so is a further setting; an executor is one more variant of [`Executor`] with its row.
#![tactic(auto)]

mod command;
mod executor;
mod number;
mod refusal;
mod request;
mod setting;
mod values;

pub use command::{Call, Command};
pub use executor::Executor;
pub use refusal::Refusal;
pub use request::{Request, request_of};
pub use setting::{Rule, Setting};
