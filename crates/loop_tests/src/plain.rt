//! Heads and their items, written down plainly: the text of a head beside the list of the texts of its items.

use std::alloc::{AllocError, Global};

/// A head or a part of one, and its items.
#[derive(Drop)]
pub struct Plain {
    pub text: String,
    pub items: Vec<String>,
}

/// A range of at most 40 numbers. The step isn't 0.
pub fn range(alloc: Global, first: i64, step: i64, last: i64) -> Result<Plain, AllocError> {
    let text = format!(in alloc; "{first}:{step}:{last}")?;
    let mut items = Vec::new(alloc);
    let mut n = first;
    for _ in 0..40 {
        if (step > 0 && n > last) || (step < 0 && n < last) {
            break;
        }
        items.push(format!(in alloc; "{n}")?)?;
        n = n.wrapping_add(step);
    }
    Ok(Plain { text, items })
}

/// A column of these texts.
pub fn column(alloc: Global, name: &str, texts: &[&str]) -> Result<Plain, AllocError> {
    let text = format!(in alloc; "col(\"{name}\")")?;
    let mut items = Vec::new(alloc);
    for text in texts {
        items.push(format!(in alloc; "{text}")?)?;
    }
    Ok(Plain { text, items })
}

/// The texts of the parts, a comma between two, behind a word.
fn called(alloc: Global, word: &str, parts: &[Plain]) -> Result<String, AllocError> {
    let mut out = String::new(alloc);
    out.push_str(word)?;
    for (i, part) in parts.iter().enumerate() {
        out.push_str(if i == 0 { "(" } else { ", " })?;
        out.push_str(part.text.as_str())?;
    }
    out.push_str(")")?;
    Ok(out)
}

/// Each part's item at this place, from 0, if each has one.
fn row(alloc: Global, parts: &[Plain], place: usize) -> Result<Option<String>, AllocError> {
    let mut out = String::new(alloc);
    for (i, part) in parts.iter().enumerate() {
        let Some(item) = part.items.get(place) else {
            return Ok(None);
        };
        out.push_str(if i == 0 { "(" } else { ", " })?;
        out.push_str(item.as_str())?;
    }
    out.push_str(")")?;
    Ok(Some(out))
}

/// The parts side by side, up to the end of the shortest.
pub fn zip(alloc: Global, parts: &[Plain]) -> Result<Plain, AllocError> {
    let text = called(alloc, "zip", parts)?;
    let mut items = Vec::new(alloc);
    for place in 0..40 {
        if let Some(item) = row(alloc, parts, place)? {
            items.push(item)?;
        }
    }
    Ok(Plain { text, items })
}

/// For each item, in order, all rows so far with it put last.
fn each_last(
    alloc: Global,
    rows: &[String],
    items: &[String],
    between: &str,
) -> Result<Vec<String>, AllocError> {
    let mut longer = Vec::new(alloc);
    for item in items {
        for row in rows {
            longer.push(format!(in alloc; "{row}{between}{item}")?)?;
        }
    }
    Ok(longer)
}

/// All choices of an item from each axis, the first changing fastest.
pub fn product(alloc: Global, axes: &[Plain]) -> Result<Plain, AllocError> {
    let text = called(alloc, "product", axes)?;
    let mut rows = Vec::new(alloc);
    rows.push(String::new(alloc))?;
    for (i, axis) in axes.iter().enumerate() {
        let between = if i == 0 { "(" } else { ", " };
        rows = each_last(alloc, rows.as_slice(), axis.items.as_slice(), between)?;
    }
    let mut items = Vec::new(alloc);
    for row in &rows {
        items.push(format!(in alloc; "{row})")?)?;
    }
    Ok(Plain { text, items })
}
