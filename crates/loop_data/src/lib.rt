//! The data of the loop language: values and their kinds, expressions, towers, statements and the lines of a program.
//!
//! Contracts see a tree of these types as plain data, with no pointer in it: a [`TextValue`] is its bytes, a [`Many`] its
//! list and a [`Boxed`] what it holds. So a `copy` equals what it was called on, for the whole tree.
#![tactic(auto)]

mod boxed;
mod display;
mod expr;
mod head;
pub mod laws;
mod many;
mod statement;
mod text;
mod tower;
mod value;

pub use boxed::Boxed;
pub use expr::{Expr, Op, RangeExpr, Word};
pub use head::{Axis, Binding, HeadLine, Inner, PrintLine};
pub use many::{CopyIn, Many};
pub use statement::{Branch, Statement, copy_block, copy_start};
pub use text::TextValue;
pub use tower::{Kind, TowerExpr};
pub use value::{Value, ValueKind};
