use crate::{Many, RangeExpr, TextValue, Value};

/// What one axis of the first head goes over.
#[derive(Debug, PartialEq, Eq, Drop)]
pub enum Axis {
    /// The numbers of a range.
    Steps(RangeExpr),
    /// The fields of the column with this name.
    Col(TextValue),
    /// Several axes side by side, which end with the shortest. Two to four parts, none of which is a zip.
    Zip(Many<Axis>),
}

/// The `for` line. A head that isn't a product has one axis.
#[derive(Debug, PartialEq, Eq, Drop)]
pub struct HeadLine {
    pub line: u32,
    /// One name, or two to four for the parts of a tuple.
    pub names: Many<TextValue>,
    pub axes: Many<Axis>,
    pub product: bool,
    /// The further heads, at most three, the last of which changes fastest.
    pub inner: Many<Inner>,
    /// The line of the `end` that closes the loop.
    pub end_line: u32,
}

/// A further head of the `for` line: a name that goes over a range.
#[derive(Debug, PartialEq, Eq, Drop)]
pub struct Inner {
    pub name: TextValue,
    pub range: RangeExpr,
}

/// A `var` or `@init` line, which gives a name a literal's value.
#[derive(Debug, PartialEq, Eq, Drop)]
pub struct Binding {
    pub line: u32,
    pub name: TextValue,
    pub value: Value,
}

/// A `print` line.
#[derive(Debug, PartialEq, Eq, Drop)]
pub struct PrintLine {
    pub line: u32,
    pub name: TextValue,
}
