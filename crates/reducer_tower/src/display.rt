//! How states and named towers print.

ghost use Rattle.std.specs.Prelude.{◌≡◌, Some, IfOk};
ghost use Rattle.std.specs.Fmt.{WritesOnOk};
ghost use Rattle.reducer_tower.specs.Texts.{state_text, list_text, groups_text, named_text};

use crate::{Named, TowerState};
use loop_data::Value;
use no_memory::NoMemory;
use reducer_laws::Groups;
use std::alloc::Global;
use std::fmt;
use std::fmt::Display;

impl fmt::Display for TowerState {
    ghost output = { λ s. Some (state_text s) };

    #[cycle(texts)]
    fn fmt<W: fmt::Write>(&self, f: &mut fmt::Formatter<W>) -> fmt::Result {
        match self {
            TowerState::Sum(total) => write!(f, "{total}"),
            TowerState::Prod(product) => write!(f, "{product}"),
            TowerState::Count(n) => write!(f, "{n}"),
            TowerState::Truth(true) => f.write_str("true"),
            TowerState::Truth(false) => f.write_str("false"),
            TowerState::Found(Some(value)) => write!(f, "{value}"),
            TowerState::FoundAt(Some((value, place))) => write!(f, "{value} at {place}"),
            TowerState::Found(None) => f.write_str("nothing"),
            TowerState::FoundAt(None) => f.write_str("nothing"),
            TowerState::Listed(inputs) => write_inputs(inputs.as_slice(), f),
            TowerState::Grouped(groups) => write_groups(groups, f),
            TowerState::Both(one, other) => {
                f.write_str("(")?;
                one.get().fmt(f)?;
                f.write_str(", ")?;
                other.get().fmt(f)?;
                f.write_str(")")
            }
        }
    }
}

/// Writes a list of inputs.
fn write_inputs<W: fmt::Write>(inputs: &[Value], f: &mut fmt::Formatter<W>) -> fmt::Result
    ensures { WritesOnOk W.write_str_gives f.old result (list_text inputs.now) f.new }
{
    f.write_str("[")?;
    let mut between = "";
    for input in inputs {
        f.write_str(between)?;
        input.fmt(f)?;
        between = ", ";
    }
    f.write_str("]")
}

/// Writes the groups with their states.
#[cycle(texts)]
fn write_groups<W: fmt::Write>(
    groups: &Groups<TowerState>,
    f: &mut fmt::Formatter<W>,
) -> fmt::Result
    ensures { WritesOnOk W.write_str_gives f.old result (groups_text groups.now) f.new }
{
    f.write_str("{")?;
    let mut between = "";
    for (key, state) in groups.iter() {
        f.write_str(between)?;
        f.write_str(key.as_str())?;
        f.write_str(": ")?;
        state.fmt(f)?;
        between = ", ";
    }
    f.write_str("}")
}

impl fmt::Display for Named {
    ghost output = { λ n. Some (named_text n) };

    fn fmt<W: fmt::Write>(&self, f: &mut fmt::Formatter<W>) -> fmt::Result {
        write!(f, "{}: {}", self.name.as_str(), self.tower.kind)?;
        match &self.start {
            Some(start) => write!(f, " from {start}"),
            None => Ok(()),
        }
    }
}

impl TowerState {
    /// The text of the state, as it prints. Refused only for want of memory.
    pub fn text(&self, alloc: Global) -> Result<Vec<u8>, NoMemory>
        ensures { IfOk result (λ text. text.items ≡ state_text self.now) }
    {
        let text = format!(in alloc; "{self}")?;
        Ok(text.into_bytes())
    }
}
