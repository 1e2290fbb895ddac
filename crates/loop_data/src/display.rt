//! How values and kinds of towers print.
ghost use Rattle.std.specs.Prelude.{◌≡◌, Some, IfOk};
ghost use Rattle.loop_data.specs.ValueTexts.{value_text};
ghost use Rattle.loop_data.specs.KindTexts.{kind_text};

use crate::{Kind, TextValue, Value};
use no_memory::NoMemory;
use std::alloc::Global;
use std::fmt;

impl fmt::Display for Value {
    ghost output = { λ v. Some (value_text v) };

    fn fmt<W: fmt::Write>(&self, f: &mut fmt::Formatter<W>) -> fmt::Result {
        match self {
            Value::Int(n) => write!(f, "{n}"),
            Value::Text(text) => f.write_str(text.as_str()),
            Value::Bool(true) => f.write_str("true"),
            Value::Bool(false) => f.write_str("false"),
            Value::Nothing => f.write_str("nothing"),
            Value::Tuple(parts) => {
                f.write_str("(")?;
                let mut between = "";
                for part in parts.as_slice() {
                    f.write_str(between)?;
                    part.fmt(f)?;
                    between = ", ";
                }
                f.write_str(")")
            }
        }
    }
}

impl fmt::Display for Kind {
    ghost output = { λ k. Some (kind_text k) };

    fn fmt<W: fmt::Write>(&self, f: &mut fmt::Formatter<W>) -> fmt::Result {
        match self {
            Kind::Sum => f.write_str("sum"),
            Kind::Prod => f.write_str("prod"),
            Kind::Count => f.write_str("count"),
            Kind::Least => f.write_str("min"),
            Kind::Greatest => f.write_str("max"),
            Kind::LeastAt => f.write_str("argmin"),
            Kind::GreatestAt => f.write_str("argmax"),
            Kind::First => f.write_str("first"),
            Kind::Last => f.write_str("last"),
            Kind::Any => f.write_str("any"),
            Kind::All => f.write_str("all"),
            Kind::Listed => f.write_str("list"),
            Kind::Grouped(inner) => {
                f.write_str("group(")?;
                inner.get().fmt(f)?;
                f.write_str(")")
            }
            Kind::Both(left, right) => {
                f.write_str("both(")?;
                left.get().fmt(f)?;
                f.write_str(", ")?;
                right.get().fmt(f)?;
                f.write_str(")")
            }
        }
    }
}

impl fmt::Debug for Kind {
    fn fmt<W: fmt::Write>(&self, f: &mut fmt::Formatter<W>) -> fmt::Result {
        write!(f, "{self}")
    }
}

impl Value {
    /// The text of the value, as it prints. Refused only for want of memory.
    pub fn text(&self, alloc: Global) -> Result<TextValue, NoMemory>
        ensures { IfOk result (λ t. t ≡ value_text self.now) }
    {
        match self {
            Value::Int(n) => TextValue::from_int(alloc, *n),
            Value::Bool(true) => TextValue::new(alloc, "true"),
            Value::Bool(false) => TextValue::new(alloc, "false"),
            Value::Text(text) => text.copy(alloc),
            Value::Nothing => TextValue::new(alloc, "nothing"),
            Value::Tuple(_) => {
                let written = format!(in alloc; "{self}")?;
                TextValue::new(alloc, written.as_str())
            }
        }
    }
}

impl Kind {
    /// The words of the kind, as it prints. Refused only for want of memory.
    pub fn text(&self, alloc: Global) -> Result<TextValue, NoMemory>
        ensures { IfOk result (λ t. t ≡ kind_text self.now) }
    {
        let written = format!(in alloc; "{self}")?;
        TextValue::new(alloc, written.as_str())
    }
}
