//! The first head of a program over a table: opened once, refused where no loop may run over it, and read by place, with no
//! list of its items.
//!
//! The definitions stand in specs/: which collections a head names (Collected), its first refusal (Refusals), and what contracts
//! see of an open head and of a walk (Heads). What follows from them stands in [`laws`].
//!
//! ```text
//! let head = HeadItems::open(alloc, &program, &table)?;
//! let mut walk = head.walk(&part);
//! for _ in 0..part.len() {
//!     if let Some(item) = walk.next(alloc)? { .. }
//! }
//! ```
#![tactic(auto)]

mod axes;
mod collections;
mod heads;
pub mod laws;
mod refusal;
mod walk;

pub use heads::HeadItems;
pub use refusal::HeadRefusal;
pub use walk::Walk;
