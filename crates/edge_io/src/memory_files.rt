ghost use Rattle.std.specs.Prelude.{◌≡◌, ◌≢◌, ◌≤◌, ◌↔◌, OnOk, OnErr, IsTrue, Err};
ghost use Rattle.edge_io.specs.Reading.{Reads};

use crate::calls::CallSet;
use crate::files::{Files, ReadStop};
use crate::named_bytes::NamedBytes;
use no_memory::NoMemory;
use std::alloc::Global;
use std::marker::Model;

/// Files that are held in memory, each under a name.
///
/// Reads can be named by their numbers to fail, counted from 1 over the object's life. Contracts see
/// what is held, the namings, how many reads were made and how many of them failed.
#[derive(Drop)]
pub struct MemoryFiles {
    held: NamedBytes,
    failing: CallSet,
    reads: u64,
    faults: u64,
}

impl Model for MemoryFiles {
    ghost use Rattle.edge_io.specs.MemoryModels.{FilesModel, files_code};

    ghost Value = { FilesModel };

    ghost coded = { files_code };

    ghost view = { λ f. record {
      held = f.held;
      failing = f.failing;
      reads = f.reads;
      faults = f.faults;
    } };
}

impl MemoryFiles {
    ghost use Rattle.edge_io.specs.Counts.{last_count};
    ghost use Rattle.edge_io.specs.MemoryModels.{no_files, files_with, with_failing_read, fails_next_read, after_read};

    /// No files, and no read that is named to fail.
    pub fn new(alloc: Global) -> MemoryFiles
        ensures { result ≡ no_files }
    {
        MemoryFiles {
            held: NamedBytes::new(alloc),
            failing: CallSet::new(alloc),
            reads: 0,
            faults: 0,
        }
    }

    /// Sets what the name holds, in place of what it held before.
    ///
    /// # Errors
    ///
    /// `NoMemory` for want of memory; then the files are as before.
    pub fn add(&mut self, alloc: Global, name: &str, bytes: &[u8]) -> Result<(), NoMemory>
        ensures ok { OnOk result (self.new ≡ files_with self.old name.now bytes.now) }
        ensures err { OnErr result (self.new ≡ self.old) }
    {
        let bytes = Vec::from_slice(alloc, bytes)?;
        self.held.insert(alloc, name, bytes)
    }

    /// Names the `call`-th read, counted from 1 over the object's life, as one that fails.
    ///
    /// Naming a read that was made already, or the number 0, has no effect.
    ///
    /// # Errors
    ///
    /// `NoMemory` for want of memory; then the files are as before.
    pub fn fail_at(&mut self, _alloc: Global, call: u64) -> Result<(), NoMemory>
        ensures ok { OnOk result (self.new ≡ with_failing_read self.old call) }
        ensures err { OnErr result (self.new ≡ self.old) }
    {
        self.failing.insert(call)
    }

    /// How many reads were made, up to the last value of a `u64`.
    pub fn reads(&self) -> u64
        ensures { result ≡ self.now.reads }
    {
        self.reads
    }

    /// How many of them failed.
    pub fn faults(&self) -> u64
        ensures { result ≡ self.now.faults }
    {
        self.faults
    }

    /// Counts one more read, and says whether it is one that fails.
    fn begin_read(&mut self) -> bool
        ensures fails { result ≡ fails_next_read self.old }
        ensures counted { self.new ≡ after_read self.old }
        // The count is a `u64`, so it never falls.
        ensures in_range { self.old.faults ≤ last_count }
    {
        let fails = self.failing.contains_next(self.reads);
        self.reads = self.reads.saturating_add(1);
        self.faults = self.faults.saturating_add(u64::from(fails));
        fails
    }
}

impl Files for MemoryFiles {
    ghost use Rattle.std.specs.Prelude.{Some};
    ghost use Rattle.edge_io.specs.MemoryModels.{held_answer, fails_next_read, after_read};

    ghost held = { λ f. Some f.held };

    ghost reads = { λ f. f.reads };

    ghost faults = { λ f. f.faults };

    fn read_named(
        &mut self,
        _alloc: Global,
        name: &str,
        limit: u64,
        into: &mut Vec<u8>,
    ) -> Result<(), ReadStop>
        // It fails exactly where this read was named so before it was made.
        ensures named { (result ≡ Err ReadStop.Failed) ↔ IsTrue (fails_next_read self.old) }
        ensures counted { self.new ≡ after_read self.old }
        ensures never_falls { self.old.faults ≤ self.new.faults }

        // Else it answers and appends what is held.
        ensures answer { result ≢ Err ReadStop.Failed → result ≢ Err ReadStop.NoMemory →
            Reads (held_answer self.old name.now limit) result into.old.items into.new.items }
        ensures refused { OnErr result (into.new.items ≡ into.old.items) }
    {
        if self.begin_read() {
            return Err(ReadStop::Failed);
        }
        self.held.read_named(name, limit, into)
    }
}
