//! The form of a line of fields, as a table for plotting has it.
//!
//! A line is its fields parted by commas, followed by LF. A field that holds a comma, a double quote, a CR or an LF stands between
//! double quotes, with each of its own double quotes written twice; every other field stands as it is. The form is this project's
//! own, and [`laws::lines_are_read_in_one_way`] says that a reader can take each line apart again.
//!
//! # Example
//!
//! A line is begun with its first field, and ended with its LF, as [`line_of`] does:
//!
//! ```
//! let mut line = begin_line(alloc, first)?;
//! for field in more {
//!     add_field(&mut line, field.as_slice())?;
//! }
//! end_line(&mut line)?;
//! ```
#![tactic(auto)]

mod fields;
pub mod laws;
mod lines;

pub use fields::push_field;
pub use lines::{add_field, begin_line, end_line, line_of};
