ghost use Rattle.std.specs.Prelude.{◌≡◌, ◌+◌, ◌≤◌, ◌++◌, ◌↔◌, ℕ, [], List, length, take, OnOk, OnErr, IsErr, IsSome, Option};
ghost use Rattle.std.specs.Prelude.{Some, None};

use crate::calls::CallMap;
use crate::sink::{Sink, SinkFailed};
use no_memory::NoMemory;
use std::alloc::Global;
use std::marker::Model;

/// A sink that keeps what was written in memory.
///
/// Puts can be named by their numbers to fail, counted from 1 over the object's life. Contracts see
/// the bytes written, the room, the namings, how many puts were made and how many of them failed.
#[derive(Drop)]
pub struct MemorySink {
    bytes: Vec<u8>,
    failing: CallMap,
    puts: u64,
    faults: u64,
}

impl Model for MemorySink {
    ghost use Rattle.std.specs.Prelude.{◌-◌, vec_len, vec_capacity};
    ghost use Rattle.edge_io.specs.MemoryModels.{SinkModel, sink_code};

    ghost Value = { SinkModel };

    ghost coded = { sink_code };

    ghost view = { λ s. record {
      bytes = s.bytes.items;
      room = vec_capacity s.bytes - vec_len s.bytes;
      failing = s.failing;
      puts = s.puts;
      faults = s.faults;
    } };
}

impl MemorySink {
    ghost use Rattle.edge_io.specs.Counts.{last_count};
    ghost use Rattle.edge_io.specs.MemoryModels.{new_sink, with_failing_put, SameButRoom, kept_by_next_put, after_begun_put};
    ghost use Rattle.edge_io.specs.MemoryModels.{with_piece};

    /// Nothing written, no room yet, and no put that is named to fail.
    pub fn new(alloc: Global) -> MemorySink
        ensures { result ≡ new_sink }
    {
        MemorySink {
            bytes: Vec::new(alloc),
            failing: CallMap::new(alloc),
            puts: 0,
            faults: 0,
        }
    }

    /// Names the `call`-th put, counted from 1 over the object's life, as one that appends the first
    /// `keep` bytes of its piece, or all where it is shorter, and fails.
    ///
    /// The last naming of a put counts. Naming a put that was made already, or the number 0, has no
    /// effect.
    ///
    /// # Errors
    ///
    /// `NoMemory` for want of memory; then the sink is as before.
    pub fn fail_at(&mut self, _alloc: Global, call: u64, keep: u64) -> Result<(), NoMemory>
        ensures ok { OnOk result (self.new ≡ with_failing_put self.old call keep) }
        ensures err { OnErr result (self.new ≡ self.old) }
    {
        self.failing.insert(call, keep)
    }

    /// All bytes that were written, from the first on.
    pub fn bytes(&self) -> &[u8]
        ensures { result.now ≡ self.now.bytes }
    {
        self.bytes.as_slice()
    }

    /// How many puts were made, up to the last value of a `u64`.
    pub fn puts(&self) -> u64
        ensures { result ≡ self.now.puts }
    {
        self.puts
    }

    /// How many of them failed.
    pub fn faults(&self) -> u64
        ensures { result ≡ self.now.faults }
    {
        self.faults
    }

    /// Counts one more put, and says how many bytes it keeps where it is one that fails.
    fn begin_put(&mut self) -> Option<u64>
        ensures kept { result ≡ kept_by_next_put self.old }
        ensures counted { self.new ≡ after_begun_put self.old result }
        // The count is a `u64`, so it never falls.
        ensures in_range { self.old.faults ≤ last_count }
    {
        let kept = self.failing.get_next(self.puts);
        self.puts = self.puts.saturating_add(1);
        self.faults = self.faults.saturating_add(u64::from(kept.is_some()));
        kept
    }

    /// Appends a piece for which there is room.
    fn append(&mut self, piece: &[u8])
        requires { length piece.now ≤ self.old.room }
        ensures appended { SameButRoom (with_piece self.old piece.now) self.new }
        ensures room { self.old.room ≤ self.new.room + length piece.now }
    {
        // There is room, so this takes no memory and can't fail.
        let appended = self.bytes.extend_from_slice(piece);
        prove!(appended.is_ok());
    }
}

impl Sink for MemorySink {
    ghost use Rattle.edge_io.specs.MemoryModels.{SameButRoom, kept_by_next_put, after_put};

    ghost written = { λ s. Some s.bytes };

    ghost puts = { λ s. s.puts };

    ghost faults = { λ s. s.faults };

    ghost room = { λ s. s.room };

    fn reserve(&mut self, _alloc: Global, more: u64) -> Result<(), NoMemory>
        ensures kept { SameButRoom self.old self.new }
        ensures room { OnOk result (more ≤ self.new.room) }
    {
        self.bytes.reserve(more as usize)?;
        Ok(())
    }

    fn put(&mut self, piece: &[u8]) -> Result<(), SinkFailed>
        requires { length piece.now ≤ self.old.room }

        // It fails exactly where this put was named so before it was made.
        ensures named { IsErr result ↔ IsSome (kept_by_next_put self.old) }
        ensures exact { SameButRoom (after_put self.old piece.now) self.new }
        ensures room { self.old.room ≤ self.new.room + length piece.now }
        ensures never_falls { self.old.faults ≤ self.new.faults }
    {
        match self.begin_put() {
            None => {
                self.append(piece);
                Ok(())
            }
            Some(keep) => {
                self.append(first(piece, keep));
                Err(SinkFailed)
            }
        }
    }
}

/// The first so many bytes of a piece, or all where it is shorter.
fn first(piece: &[u8], keep: u64) -> &[u8]
    ensures { result.now ≡ take keep piece.now }
{
    let keep = piece.len().min(keep as usize);
    &piece[..keep]
}
