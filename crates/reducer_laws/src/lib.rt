//! Reducers: what folds inputs into a state, in parts, so that two states merged stand for both lists of inputs together.
//!
//! A [`Reducer`] has one relation: this state stands for this list of inputs. It is said of the list as a whole, as the exact
//! sum or the first input. Each call keeps it, and that is all that a fold in parts needs to know of a reducer.
#![tactic(auto)]

mod both;
mod counts;
mod ends;
mod extremes;
mod grouped;
pub mod laws;
mod listed;
mod numbers;
mod orders;
mod reducer;
mod truths;

pub use both::Both;
pub use counts::Count;
pub use ends::{FirstOf, LastOf};
pub use extremes::{Best, Greatest, GreatestAt, Least, LeastAt};
pub use grouped::{Grouped, Groups};
pub use listed::Listed;
pub use numbers::{Prod, Sum};
pub use orders::{Greater, GreaterAt, Preference, Smaller, SmallerAt};
pub use reducer::Reducer;
pub use truths::{AllOf, AnyOf};
