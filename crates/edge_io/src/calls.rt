ghost use Rattle.std.specs.Prelude.{◌≡◌, ◌+◌, OnOk, OnErr};
ghost use Rattle.std.specs.FinMap as map;
ghost use Rattle.std.specs.FinSet as set;

use no_memory::NoMemory;
use std::alloc::Global;
use std::collections::{BTreeMap, BTreeSet};
use std::marker::Model;

/// The number of the call that follows `before` calls. It fits after the last value of a counter too.
fn next_call(before: u64) -> u128
    ensures { result ≡ before + 1 }
{
    u128::from(before) + 1
}

/// Numbers of calls, which contracts see as a finite set.
#[derive(Drop)]
pub struct CallSet {
    numbers: BTreeSet<u128>,
}

impl Model for CallSet {
    ghost use Rattle.std.specs.Ordering.{nat_cmp};
    ghost use Rattle.std.specs.FinSet as set;
    ghost use Rattle.std.specs.Coded.{coded_ℕ};

    ghost Value = { set.FinSet nat_cmp };

    ghost coded = { set.code coded_ℕ };

    ghost view = { λ s. set.from_list s.numbers.keys };
}

impl CallSet {
    /// No numbers.
    pub fn new(alloc: Global) -> CallSet
        ensures { result ≡ set.empty }
    {
        CallSet {
            numbers: BTreeSet::new(alloc),
        }
    }

    /// Puts a number into the set.
    pub fn insert(&mut self, number: u64) -> Result<(), NoMemory>
        ensures ok { OnOk result (self.new ≡ set.insert self.old number) }
        ensures err { OnErr result (self.new ≡ self.old) }
    {
        self.numbers.insert(u128::from(number))?;
        Ok(())
    }

    /// Whether the number that follows `before` is in the set.
    pub fn contains_next(&self, before: u64) -> bool
        ensures { result ≡ set.contains self.now (before + 1) }
    {
        self.numbers.contains(&next_call(before))
    }
}

/// A number for each of some calls, which contracts see as a finite map.
#[derive(Drop)]
pub struct CallMap {
    numbers: BTreeMap<u128, u64>,
}

impl Model for CallMap {
    ghost use Rattle.std.specs.Prelude.{ℕ};
    ghost use Rattle.std.specs.Ordering.{nat_cmp};
    ghost use Rattle.std.specs.FinMap as map;
    ghost use Rattle.std.specs.Coded.{coded_ℕ};

    ghost Value = { map.FinMap nat_cmp ℕ };

    ghost coded = { map.code coded_ℕ coded_ℕ };

    ghost view = { λ m. map.from_entries m.numbers.entries };
}

impl CallMap {
    /// No calls.
    pub fn new(alloc: Global) -> CallMap
        ensures { result ≡ map.empty }
    {
        CallMap {
            numbers: BTreeMap::new(alloc),
        }
    }

    /// Sets the number of a call.
    pub fn insert(&mut self, call: u64, value: u64) -> Result<(), NoMemory>
        ensures ok { OnOk result (self.new ≡ map.insert self.old call value) }
        ensures err { OnErr result (self.new ≡ self.old) }
    {
        self.numbers.insert(u128::from(call), value)?;
        Ok(())
    }

    /// The number of the call that follows the first `before` calls.
    pub fn get_next(&self, before: u64) -> Option<u64>
        ensures { result ≡ map.get self.now (before + 1) }
    {
        self.numbers.get(&next_call(before)).copied()
    }
}
