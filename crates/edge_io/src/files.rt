ghost use Rattle.std.specs.Prelude.{◌≡◌, ◌≢◌, ◌≤◌, ◌++◌, ℕ, OnOk, OnErr, IfSome, Option};
ghost use Rattle.edge_io.specs.Counts.{counted, RoseByOne};
ghost use Rattle.std.specs.FinMap.{get};

use no_memory::NoMemory;
use std::alloc::{AllocError, Global};

/// Why a read by name gave no bytes, with the number of each cause.
#[derive(Clone, Copy, Debug, PartialEq, Eq)]
pub enum ReadStop {
    /// The read failed, and the count of faults rose by one.
    Failed = 1,
    /// More bytes stand there than the caller's limit.
    TooLong = 2,
    /// Memory ran out.
    NoMemory = 3,
    /// Nothing is held under the name.
    NotHeld = 4,
}

impl ReadStop {
    ghost use Rattle.edge_io.specs.Reading.{stop_number};

    /// The number of the cause: 1 `Failed`, 2 `TooLong`, 3 `NoMemory`, 4 `NotHeld`.
    pub fn number(self) -> u8
        ensures { result ≡ stop_number self }
    {
        self as u8
    }
}

impl From<AllocError> for ReadStop {
    ghost use Rattle.std.specs.Prelude.{◌≡◌};
    ghost use Rattle.edge_io.specs.declared.files.ReadStop.TheVariants.{NoMemory};

    ghost from_gives = { λ _ e. e ≡ NoMemory };

    fn from(_error: AllocError) -> ReadStop {
        ReadStop::NoMemory
    }
}

/// Files that are read by name. Names are told apart by their bytes.
pub trait Files {
    ghost use Rattle.edge_io.specs.Reading.{Held, read_answer, Reads, GrowsByAtMost};

    /// What is held, bytes by name, where it is told.
    ghost held: { Self → Option Held };

    /// How many reads were made, up to 18,446,744,073,709,551,615, the last value of a counter.
    ghost reads: { Self → ℕ };

    /// How many of them failed, up to the same value.
    ghost faults: { Self → ℕ };

    /// Appends all bytes held under `name` to `into`, where they are at most `limit` bytes.
    ///
    /// # Errors
    ///
    /// - `Failed` only where the count of faults rose in this call, by one.
    /// - Else `NotHeld` exactly where the name isn't held, and `TooLong` exactly where more than `limit`
    ///   bytes stand there. Where what is held isn't told, both are the implementation's word.
    /// - `NoMemory` for want of memory, whatever the answer would be.
    ///
    /// After each of these `into` holds what it held.
    fn read_named(
        &mut self,
        alloc: Global,
        name: &str,
        limit: u64,
        into: &mut Vec<u8>,
    ) -> Result<(), ReadStop>
        // No read changes what is held, or whether it is told.
        ensures held { held self.new ≡ held self.old }

        // Where what is held is told, it decides the answer and what is appended.
        ensures answer { IfSome (held self.old) (λ files.
            result ≢ Err ReadStop.Failed → result ≢ Err ReadStop.NoMemory →
            Reads (read_answer (get files name.now) limit) result into.old.items into.new.items) }

        // What is appended is at most `limit` bytes, also where nothing is told.
        ensures bounded { OnOk result (GrowsByAtMost limit into.old.items into.new.items) }
        ensures refused { OnErr result (into.new.items ≡ into.old.items) }

        // Each call is one read more.
        ensures reads { reads self.new ≡ counted (reads self.old) }

        // `Failed` is told by the count of faults, which never falls and which no other answer moves.
        ensures failed { result ≡ Err ReadStop.Failed → RoseByOne (faults self.old) (faults self.new) }
        ensures not_failed { result ≢ Err ReadStop.Failed → faults self.new ≡ faults self.old }
        ensures never_falls { faults self.old ≤ faults self.new };
}
