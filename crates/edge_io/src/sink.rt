ghost use Rattle.std.specs.Prelude.{◌≡◌, ◌+◌, ◌≤◌, ◌++◌, ℕ, List, length, take, OnOk, OnErr, IfSome, Option, Some, None};
ghost use Rattle.edge_io.specs.Counts.{counted, RoseByOne};

use no_memory::NoMemory;
use std::alloc::Global;

/// A put failed: the count of faults rose by one, and a prefix of the piece was appended.
#[derive(Clone, Copy, Debug, PartialEq, Eq)]
pub struct SinkFailed;

/// A sink for bytes, which are appended to what was written before.
pub trait Sink {
    ghost use Rattle.edge_io.specs.Writing.{Puts, PutsPrefix};

    /// What was written, where it is told.
    ghost written: { Self → Option (List ℕ) };

    /// How many puts were made, up to 18,446,744,073,709,551,615, the last value of a counter.
    ghost puts: { Self → ℕ };

    /// How many of them failed, up to the same value.
    ghost faults: { Self → ℕ };

    /// How many bytes can be put without more memory.
    ghost room: { Self → ℕ };

    /// Makes room for `more` bytes after those that were written.
    ///
    /// # Errors
    ///
    /// `NoMemory` for want of memory. On each answer what was written and the counts are as before.
    fn reserve(&mut self, alloc: Global, more: u64) -> Result<(), NoMemory>
        ensures room { OnOk result (more ≤ room self.new) }
        ensures written { written self.new ≡ written self.old }
        ensures puts { puts self.new ≡ puts self.old }
        ensures faults { faults self.new ≡ faults self.old };

    /// Appends the piece, which may be empty and for which there must be room.
    ///
    /// As there is room, want of memory is no answer. On each answer the room falls by at most the
    /// piece's length.
    ///
    /// # Errors
    ///
    /// `SinkFailed` only where the count of faults rose in this call, by one; then a prefix of the piece
    /// was appended, maybe none of it or all.
    fn put(&mut self, piece: &[u8]) -> Result<(), SinkFailed>
        requires { length piece.now ≤ room self.old }

        // The piece, or a prefix of it, follows what was written, where that is told.
        ensures appended { OnOk result (Puts (written self.old) (written self.new) piece.now) }
        ensures prefix { OnErr result (PutsPrefix (written self.old) (written self.new) piece.now) }
        ensures room { room self.old ≤ room self.new + length piece.now }

        // Each call is one put more.
        ensures puts { puts self.new ≡ counted (puts self.old) }

        // A failure is told by the count of faults, which an Ok doesn't move.
        ensures failed { OnErr result (RoseByOne (faults self.old) (faults self.new)) }
        ensures not_failed { OnOk result (faults self.new ≡ faults self.old) }
        ensures never_falls { faults self.old ≤ faults self.new };
}
