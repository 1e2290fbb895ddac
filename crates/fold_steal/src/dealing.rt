//! The first deal: a part for each worker, as far as parts go.

ghost use Rattle.std.specs.Prelude.{◌≡◌, ◌≤◌, ◌<◌, IfOk, OnOk};
ghost use Rattle.fold_steal.specs.Deals.{longest, halve_first, deal_rounds, first_deal};

use no_memory::NoMemory;
use splittable::{Part, Shape, Splittable};
use std::alloc::Global;

/// The length of the longest part.
fn longest_of(parts: &[Part]) -> u64
    ensures { result ≡ longest parts.now }
{
    let mut len = 0;
    for part in parts {
        len = len.max(part.len());
    }
    len
}

/// Replaces the first part of this length, at least 2, by its halves.
fn halve_one(parts: &mut Vec<Part>, len: u64) -> Result<(), NoMemory>
    requires { 1 < len }
    ensures { OnOk result (parts.new.items ≡ halve_first len parts.old.items) }
{
    for k in 0..parts.len() {
        let part = parts[k];
        if part.len() == len {
            match part.halve() {
                Some((left, right)) => {
                    parts[k] = right;
                    parts.insert(k, left)?;
                    return Ok(());
                }
                None => unreachable!(),
            }
        }
    }
    Ok(())
}

/// Halves the first of the longest parts so many times, while it is longer than the least part size.
fn halve_longest(mut parts: Vec<Part>, least: u64, rounds: u32) -> Result<Vec<Part>, NoMemory>
    requires { 1 ≤ least }
    ensures { IfOk result (λ new. new.items ≡ deal_rounds rounds least parts.items) }
{
    for _ in 0..rounds {
        let len = longest_of(parts.as_slice());
        if len <= least {
            return Ok(parts);
        }
        halve_one(&mut parts, len)?;
    }
    Ok(parts)
}

/// The parts that are dealt to so many workers, from left to right.
pub(crate) fn deal(
    alloc: Global,
    shape: &Shape,
    least: u64,
    workers: u32,
) -> Result<Vec<Part>, NoMemory>
    requires least { 1 ≤ least }
    requires workers { 1 ≤ workers }
    ensures { IfOk result (λ parts. parts.items ≡ first_deal shape.now least workers) }
{
    let mut parts = Vec::new(alloc);
    match shape.whole() {
        Some(whole) => {
            parts.push(whole)?;
            halve_longest(parts, least, workers - 1)
        }
        None => Ok(parts),
    }
}
