ghost use Rattle.std.specs.Prelude.{◌≡◌, ◌≢◌, ◌≤◌, ◌++◌, true, length, take, None, OnOk, OnErr, IsOk};
ghost use Rattle.std.specs.Option.{option_copied};
ghost use Rattle.std.specs.Ordering.{nat_cmp};
ghost use Rattle.std.specs.Cmp.Lexicographic.{slice_cmp};
ghost use Rattle.std.specs.FinMap.{find};
ghost use Rattle.std.specs.Str.{bytes_eq};
ghost use Rattle.loop_values.specs.Entries.{with_entry};

use loop_data::{TextValue, Value};
use no_memory::NoMemory;
use std::alloc::Global;

/// What stands under a name in a list of entries: there are a handful of names, so a list that is searched from its front is
/// quicker than a tree.
pub(crate) fn entry_of<'a, T>(held: &'a [(TextValue, T)], name: &str) -> Option<&'a T>
    ensures { option_copied result ≡ find (slice_cmp nat_cmp) name.now held.now }
{
    for (key, item) in held {
        if is_same(name, key.as_str()) {
            return Some(item);
        }
    }
    None
}

/// Sets what stands under a name. A name that is there already takes no memory.
pub(crate) fn set_entry<T: Drop>(
    alloc: Global,
    held: &mut Vec<(TextValue, T)>,
    name: &str,
    item: T,
) -> Result<(), NoMemory>
    ensures ok { OnOk result (held.new.items ≡ with_entry held.old.items name.now item) }
    ensures err { OnErr result (held.new.items ≡ held.old.items) }
    ensures known { find (slice_cmp nat_cmp) name.now held.old.items ≢ None → IsOk result }
{
    for i in 0..held.len() {
        if is_same(name, held[i].0.as_str()) {
            held[i].1 = item;
            return Ok(());
        }
    }
    let key = TextValue::new(alloc, name)?;
    held.push((key, item))?;
    Ok(())
}

/// Whether two texts are one. Their lengths tell mostly, and a name of one letter takes no call.
#[inline(always)]
fn is_same(a: &str, b: &str) -> bool
    ensures { result ≡ bytes_eq a.now b.now }
{
    if a.len() != b.len() {
        return false;
    }
    if a.len() == 1 {
        return a.as_bytes()[0] == b.as_bytes()[0];
    }
    is_same_text(a, b)
}

/// Whether two texts are one, byte by byte. It stands apart so that a search has little to keep from turn to turn.
#[inline(never)]
fn is_same_text(a: &str, b: &str) -> bool
    ensures { result ≡ bytes_eq a.now b.now }
{
    a == b
}

/// Puts copies of entries last.
pub(crate) fn push_copies(
    alloc: Global,
    held: &mut Vec<(TextValue, Value)>,
    entries: &[(TextValue, Value)],
) -> Result<(), NoMemory>
    ensures { OnOk result (held.new.items ≡ held.old.items ++ entries.now) }
{
    for (name, value) in entries {
        let name = name.copy(alloc)?;
        let value = value.copy(alloc)?;
        held.push((name, value))?;
    }
    Ok(())
}

/// How many entries at the front of two lists are the same, which is found by looking at them.
pub(crate) fn same_front(held: &[(TextValue, Value)], other: &[(TextValue, Value)]) -> usize
    ensures within { result ≤ length other.now }
    ensures same { take result held.now ≡ take result other.now }
{
    let both = held.len().min(other.len());
    for i in 0..both {
        if !is_same_entry(&held[i], &other[i]) {
            return i;
        }
    }
    both
}

/// Whether two entries are one.
fn is_same_entry(a: &(TextValue, Value), b: &(TextValue, Value)) -> bool
    ensures { result ≡ true → a.now ≡ b.now }
{
    is_same(a.0.as_str(), b.0.as_str()) && is_same_value(&a.1, &b.1)
}

/// Whether two values are one. Numbers, which most are, take no call.
fn is_same_value(a: &Value, b: &Value) -> bool
    ensures { result ≡ true → a.now ≡ b.now }
{
    match (a, b) {
        (Value::Int(m), Value::Int(n)) => m == n,
        _ => a == b,
    }
}
