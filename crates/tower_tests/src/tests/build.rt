//! Inputs and kinds, built in one call each.

use loop_data::{Boxed, Kind, Many, TextValue, Value};
use no_memory::NoMemory;
use std::alloc::Global;

pub fn text(alloc: Global, text: &str) -> Result<Value, NoMemory> {
    Ok(Value::Text(TextValue::new(alloc, text)?))
}

pub fn pair(alloc: Global, left: Value, right: Value) -> Result<Value, NoMemory> {
    let mut parts = Many::new(alloc);
    parts.push(alloc, left)?;
    parts.push(alloc, right)?;
    Ok(Value::Tuple(parts))
}

pub fn ints(alloc: Global, numbers: &[i64]) -> Result<Vec<Value>, NoMemory> {
    let mut inputs = Vec::new(alloc);
    for n in numbers {
        inputs.push(Value::Int(*n))?;
    }
    Ok(inputs)
}

pub fn group(alloc: Global, inner: Kind) -> Result<Kind, NoMemory> {
    Ok(Kind::Grouped(Boxed::new(alloc, inner)?))
}

pub fn both(alloc: Global, left: Kind, right: Kind) -> Result<Kind, NoMemory> {
    Ok(Kind::Both(Boxed::new(alloc, left)?, Boxed::new(alloc, right)?))
}
