//! The leaves of a shape, as a list.

ghost use Rattle.std.specs.Prelude.{◌≡◌, ◌≤◌, ◌++◌, ℕ, List, IfOk, OnOk};
ghost use Rattle.std.specs.List.{All};
ghost use Rattle.splittable.specs.Nodes.{IsNode, IsLeaf, leaves_under, leaves_of};

use no_memory::NoMemory;
use splittable::{Part, Shape, Splittable};
use std::alloc::Global;

/// The leaves of a shape for a least part size, from left to right. There are none where a length is 0.
pub fn leaves(alloc: Global, shape: &Shape, least: u64) -> Result<Vec<Part>, NoMemory>
    requires { 1 ≤ least }
    ensures value { IfOk result (λ parts. parts.items ≡ leaves_of shape.now least) }
    ensures leaves { IfOk result (λ parts. All (IsLeaf shape.now least) parts.items) }
{
    let mut parts = Vec::new(alloc);
    if let Some(whole) = shape.whole() {
        push_leaves(&whole, least, &mut parts)?;
    }
    Ok(parts)
}

// Puts the leaves of a node at the end of a list.
fn push_leaves(part: &Part, least: u64, into: &mut Vec<Part>) -> Result<(), NoMemory>
    ensures { OnOk result ((lens : List ℕ) → IsNode lens least part.now → 1 ≤ least →
        into.new.items ≡ into.old.items ++ leaves_under least part.now) }
{
    match part.halve() {
        Some((left, right)) if part.len() > least => {
            push_leaves(&left, least, into)?;
            push_leaves(&right, least, into)
        }
        _ => {
            into.push(*part)?;
            Ok(())
        }
    }
}
