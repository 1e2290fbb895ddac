//! The plain loop over a stretch of items, from the start, said as a text.

use loop_data::{Kind, Many, TextValue, Value};
use loop_meaning::{BodyEnd, Pair, is_skipped, start_store, step_plain};
use loop_syntax::Program;
use reducer_tower::Row;
use std::alloc::{AllocError, Global};
use std::test::Fail;

/// What a stretch gave: its pairs, how many faults it skipped, and how it ended.
#[derive(Drop)]
pub struct Stretch {
    pub emitted: Many<Pair>,
    pub skipped: u64,
    pub end: BodyEnd,
    /// The place of the last item.
    pub at: u64,
}

/// The plain loop over these items, the first of which has this place.
pub fn run_stretch(
    alloc: Global,
    program: &Program,
    items: &[Value],
    first: u64,
) -> Result<Stretch, Fail> {
    let mut store = start_store(alloc, program)?;
    let mut emitted = Vec::new(alloc);
    let mut skipped = 0u64;
    let mut at = first;
    for item in items {
        if at >= 1000 {
            return Err(Fail::from("too many items"));
        }
        let mut pairs = Many::new(alloc);
        let item = item.copy(alloc)?;
        let end = step_plain(alloc, program, &mut store, item, at, &mut pairs)?;
        if is_skipped(program, end) {
            skipped = skipped.wrapping_add(1);
        } else {
            for pair in pairs.into_vec() {
                emitted.push(pair)?;
            }
            if end != BodyEnd::Next {
                let emitted = Many::from_vec(emitted);
                return Ok(Stretch {
                    emitted,
                    skipped,
                    end,
                    at,
                });
            }
        }
        at += 1;
    }
    let emitted = Many::from_vec(emitted);
    Ok(Stretch {
        emitted,
        skipped,
        end: BodyEnd::Next,
        at,
    })
}

/// The text of a tower of these inputs of a name: of a list, of a sum of small numbers, and of a count.
fn tower_text(
    alloc: Global,
    kind: &Kind,
    name: &TextValue,
    emitted: &[Pair],
) -> Result<String, Fail> {
    let mut list = String::from_str(alloc, "[")?;
    let mut sum = 0i64;
    let mut count = 0u64;
    for pair in emitted {
        if pair.name == *name {
            let between = if count == 0 { "" } else { ", " };
            let input = &pair.input;
            write!(list, "{between}{input}")?;
            sum = sum.wrapping_add(input.as_int());
            count = count.wrapping_add(1);
        }
    }
    list.push_str("]")?;
    match kind {
        Kind::Listed => Ok(list),
        Kind::Sum => Ok(format!(in alloc; "{sum}")?),
        Kind::Count => Ok(format!(in alloc; "{count}")?),
        _ => Err(Fail::from("another tower")),
    }
}

/// The texts of the towers of a row.
fn row_text(alloc: Global, row: &Row, stretch: &Stretch) -> Result<String, Fail> {
    let mut out = String::new(alloc);
    for named in &row.towers {
        let text = tower_text(
            alloc,
            &named.tower.kind,
            &named.name,
            stretch.emitted.as_slice(),
        )?;
        out.push_str("; ")?;
        out.push_str(text.as_str())?;
    }
    let skipped = stretch.skipped;
    write!(out, "; skipped {skipped}")?;
    Ok(out)
}

/// How a stretch ended, with the states that the row has then. `line` is that of the stage of each `break`.
pub fn stretch_text(
    alloc: Global,
    row: &Row,
    stretch: &Stretch,
    line: u32,
) -> Result<String, Fail> {
    let at = stretch.at;
    let states = row_text(alloc, row, stretch)?;
    match stretch.end {
        BodyEnd::Next => Ok(format!(in alloc; "ran{states}")?),
        BodyEnd::Break { .. } => Ok(format!(in alloc; "stopped {at} {line}{states}")?),
        BodyEnd::Fault { line, kind } => Ok(format!(in alloc; "fault {at} {line} {kind}")?),
    }
}
