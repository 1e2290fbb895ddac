//! Tables of text, read from the bytes of CSV files.
//!
//! A [`Table`] is the records of its files: the first of each is the header, which all files share, the others are the rows,
//! file after file. It is whole and checked once it is read: each field is UTF-8, and each row has a field for each column. It
//! is shared by threads, which read a [`Column`]'s texts by their row in a time that doesn't grow with the rows.
#![tactic(auto)]

mod chunk;
mod column;
mod header;
pub mod laws;
mod limit;
mod records;
mod refusal;
mod table;
mod texts;

pub use column::Column;
pub use refusal::TableRefusal;
pub use table::Table;

/// How many columns a header has at most.
pub const MAX_COLUMNS: u64 = 1024;

/// How many fields the files of a table have together at most, the headers included.
pub const MAX_FIELDS: u64 = 16_777_216;
