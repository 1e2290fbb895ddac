//! Folds of one item at a time that may end early, and the stages that stand before them.
//!
//! A [`Reducing`] takes items into a state. Its meaning is a relation of the old state, the item, the answer and the new
//! state. A wrapper is a `Reducing` around another: what its closure makes of an item is what the inner one takes. So a
//! pipeline is read from the outside in, and an item goes through all of it before the next one is made.
#![tactic(auto)]

mod actions;
mod answers;
mod catting;
mod chain;
pub mod chain_laws;
mod closed;
mod filtering;
mod folding;
mod keeping_something;
pub mod laws;
mod map_splatting;
mod mapping;
mod reducing;
mod reducing_if;
mod spread;
mod take;
mod taking;

pub use answers::PassStop;
pub use catting::Catting;
pub use chain::Chain;
pub use chain_stages::StepEnd;
pub use closed::Closed;
pub use filtering::Filtering;
pub use folding::step_all;
pub use keeping_something::KeepingSomething;
pub use map_splatting::MapSplatting;
pub use mapping::Mapping;
pub use reducing::Reducing;
pub use reducing_if::ReducingIf;
pub use taking::Taking;
