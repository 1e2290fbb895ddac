ghost use Rattle.std.specs.Prelude.{◌≡◌, ◌≢◌, None, OnOk, OnErr, IsOk};
ghost use Rattle.std.specs.Option.{option_copied};
ghost use Rattle.std.specs.FinMap as map;

use crate::entries::{entry_of, set_entry};
use loop_data::{TextValue, ValueKind};
use no_memory::NoMemory;
use std::alloc::Global;
use std::marker::Model;

/// The kinds of names, which contracts see as a finite map from names to kinds.
#[derive(Debug, Drop)]
pub struct Types {
    held: Vec<(TextValue, ValueKind)>,
}

impl Model for Types {
    ghost use Rattle.std.specs.Prelude.{ℕ};
    ghost use Rattle.std.specs.Ordering.{nat_cmp};
    ghost use Rattle.std.specs.Cmp.Lexicographic.{slice_cmp};
    ghost use Rattle.std.specs.FinMap as map;
    ghost use Rattle.loop_data.specs.declared.value.ValueKind as kind;
    ghost use Rattle.std.specs.Coded.{coded_ℕ, coded_list};
    ghost use Rattle.loop_data.specs.contracts.value.ValueKind as row;

    ghost Value = { map.FinMap (slice_cmp nat_cmp) kind.ValueKind };

    ghost coded = { map.code (coded_list coded_ℕ) row.the_row.coded };

    ghost view = { λ t. map.from_entries t.held.items };
}

impl Types {
    /// Knows no name. It takes no memory.
    pub fn new(alloc: Global) -> Types
        ensures { result ≡ map.empty }
    {
        let held = Vec::new(alloc);
        Types { held }
    }

    /// The kind of a name, and `None` exactly where the name isn't known. It takes no memory.
    pub fn get(&self, name: &str) -> Option<&ValueKind>
        ensures { option_copied result ≡ map.get self.now name.now }
    {
        entry_of(self.held.as_slice(), name)
    }

    /// Sets the kind of a name. Refused only for want of memory: then the kinds are as before and the kind is given up. A
    /// name that is known already takes no memory.
    pub fn set(&mut self, alloc: Global, name: &str, kind: ValueKind) -> Result<(), NoMemory>
        ensures ok { OnOk result (self.new ≡ map.insert self.old name.now kind) }
        ensures err { OnErr result (self.new ≡ self.old) }
        ensures known { map.get self.old name.now ≢ None → IsOk result }
    {
        set_entry(alloc, &mut self.held, name, kind)
    }
}
