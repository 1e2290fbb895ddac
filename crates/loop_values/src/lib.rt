//! What expressions of the loop language mean: the values of names, the value of an expression, its kind, and inner ranges.
//!
//! The definitions stand in specs/: `value_of` (Values), `kind_of` (Kinds) and `inner_items` (InnerItems). The functions
//! compute them: [`eval`], [`type_of`] and [`eval_range`].
#![tactic(auto)]

mod entries;
mod env;
mod kinds;
pub mod laws;
mod operations;
mod ranges;
mod seen;
mod spelling;
mod stop;
mod types;
mod values;

pub use env::Env;
pub use kinds::{is_same_kind, type_of};
pub use loop_data::{
    Axis, Binding, Boxed, Branch, CopyIn, Expr, HeadLine, Inner, Kind, Many, Op, PrintLine,
    RangeExpr, Statement, TextValue, TowerExpr, Value, ValueKind, Word,
};
pub use ranges::{InnerRange, eval_range};
pub use stop::{EvalStop, TypeStop};
pub use types::Types;
pub use values::eval;
