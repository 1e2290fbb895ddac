ghost use Rattle.std.specs.Prelude.{◌≡◌, IfOk};

use loop_data::Value;
use no_memory::NoMemory;
use std::alloc::Global;

/// A value that is lent where it stands, in a literal or under a name, or one that an operation made.
#[derive(Drop)]
pub(crate) enum Seen<'a> {
    Lent(&'a Value),
    Made(Value),
}

impl<'a> Seen<'a> {
    ghost use Rattle.loop_values.specs.Seen.{worth};

    /// The value, to look at.
    pub(crate) fn value(&self) -> &Value
        ensures { result.now ≡ worth self.now }
    {
        match self {
            Seen::Lent(value) => value,
            Seen::Made(value) => value,
        }
    }

    /// The value, to keep: a lent one is copied.
    pub(crate) fn into_value(self, alloc: Global) -> Result<Value, NoMemory>
        ensures { IfOk result (λ v. v ≡ worth self.entry) }
    {
        match self {
            Seen::Lent(value) => value.copy(alloc),
            Seen::Made(value) => Ok(value),
        }
    }
}
