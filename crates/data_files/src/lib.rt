//! The data files of a call, read one after another into one table.
//!
//! [`read_data`] reads each file by its name and takes it into the table before the next one is read, so that the bytes of
//! one file at a time are held besides the table. The first file that can't be taken ends it, with a [`DataStop`] that says
//! why.
#![tactic(auto)]

pub mod laws;
mod read;
mod stop;

pub use read::read_data;
pub use stop::{DataFile, DataRefusal, DataStop};
