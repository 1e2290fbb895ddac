ghost use Rattle.std.specs.Prelude.{◌≡◌, ◌≢◌, None, OnOk, OnErr, IfOk, IsOk};
ghost use Rattle.std.specs.Option.{option_copied};
ghost use Rattle.std.specs.FinMap as map;

use crate::entries::{entry_of, push_copies, same_front, set_entry};
use loop_data::{TextValue, Value};
use no_memory::NoMemory;
use std::alloc::Global;
use std::marker::Model;

/// The values of names, which contracts see as a finite map from names to values. The place of the item stands under the
/// name `place`, which no line can bind.
#[derive(Debug, Drop)]
pub struct Env {
    held: Vec<(TextValue, Value)>,
}

impl Model for Env {
    ghost use Rattle.std.specs.Prelude.{ℕ};
    ghost use Rattle.std.specs.Ordering.{nat_cmp};
    ghost use Rattle.std.specs.Cmp.Lexicographic.{slice_cmp};
    ghost use Rattle.std.specs.FinMap as map;
    ghost use Rattle.loop_data.specs.declared.value.Value as value;
    ghost use Rattle.std.specs.Coded.{coded_ℕ, coded_list};
    ghost use Rattle.loop_data.specs.contracts.value.Value as row;

    ghost Value = { map.FinMap (slice_cmp nat_cmp) value.Value };

    ghost coded = { map.code (coded_list coded_ℕ) row.the_row.coded };

    ghost view = { λ e. map.from_entries e.held.items };
}

impl Env {
    /// Binds no name. It takes no memory.
    pub fn new(alloc: Global) -> Env
        ensures { result ≡ map.empty }
    {
        let held = Vec::new(alloc);
        Env { held }
    }

    /// The value of a name, and `None` exactly where the name isn't bound. It takes no memory.
    pub fn get(&self, name: &str) -> Option<&Value>
        ensures { option_copied result ≡ map.get self.now name.now }
    {
        entry_of(self.held.as_slice(), name)
    }

    /// Sets the value of a name. Refused only for want of memory: then the bindings are as before and the value is given
    /// up. A name that is bound already takes no memory.
    pub fn bind(&mut self, alloc: Global, name: &str, value: Value) -> Result<(), NoMemory>
        ensures ok { OnOk result (self.new ≡ map.insert self.old name.now value) }
        ensures err { OnErr result (self.new ≡ self.old) }
        ensures bound { map.get self.old name.now ≢ None → IsOk result }
    {
        set_entry(alloc, &mut self.held, name, value)
    }

    /// The same bindings once more. Refused only for want of memory, which is taken once for all of them, and for each text
    /// that is too long to stand in its value, as tests show.
    pub fn copy(&self, alloc: Global) -> Result<Env, NoMemory>
        ensures { IfOk result (λ e. e ≡ self.now) }
    {
        let mut held = Vec::with_capacity(alloc, self.held.len())?;
        push_copies(alloc, &mut held, self.held.as_slice())?;
        Ok(Env { held })
    }

    /// Has the bindings of another. Refused only for want of memory: then these bindings can only be dropped.
    ///
    /// It is for going back: where the other was copied from these, what was bound since is taken off, what was changed is
    /// copied, and all else stays, so that nothing is copied where names were only added.
    pub fn copy_from(&mut self, alloc: Global, other: &Env) -> Result<(), NoMemory>
        ensures { OnOk result (self.new ≡ other.now) }
    {
        let front = same_front(self.held.as_slice(), other.held.as_slice());
        self.held.truncate(front);
        push_copies(alloc, &mut self.held, &other.held[front..])
    }
}
