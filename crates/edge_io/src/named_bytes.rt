ghost use Rattle.std.specs.Prelude.{◌≡◌, ◌≢◌, ◌≤◌, ◌++◌, OnOk, OnErr, Err};
ghost use Rattle.std.specs.Option.{option_copied};
ghost use Rattle.std.specs.FinMap.{empty, get, insert};
ghost use Rattle.edge_io.specs.Reading.{read_answer, Reads, GrowsByAtMost};

use crate::files::ReadStop;
use no_memory::NoMemory;
use std::alloc::Global;
use std::collections::BTreeMap;
use std::marker::Model;

/// Bytes, which contracts see as their list.
#[derive(Drop)]
pub struct Blob {
    bytes: Vec<u8>,
}

impl Model for Blob {
    ghost use Rattle.std.specs.Prelude.{ℕ, List};

    ghost Value = { List ℕ };

    ghost view = { λ b. b.bytes.items };
}

impl Blob {
    fn as_slice(&self) -> &[u8]
        ensures { result.now ≡ self.now }
    {
        self.bytes.as_slice()
    }
}

/// Bytes by name, held in memory. Names are told apart by their bytes, of which there may be none.
///
/// Contracts see the finite map from the bytes of each name to the bytes that it holds. Threads read
/// one map together, as [`crate::laws::threads_share_named_bytes`] shows.
#[derive(Drop)]
pub struct NamedBytes {
    tree: BTreeMap<String, Blob>,
}

impl Model for NamedBytes {
    ghost use Rattle.edge_io.specs.Reading.{Held};
    ghost use Rattle.std.specs.FinMap.{from_entries, code};
    ghost use Rattle.std.specs.Coded.{coded_ℕ, coded_list};
    ghost use Rattle.edge_io.specs.Keyed.{by_bytes};

    ghost Value = { Held };

    ghost coded = { code (coded_list coded_ℕ) (coded_list coded_ℕ) };

    ghost view = { λ n. from_entries (by_bytes n.tree.entries) };
}

impl NamedBytes {
    /// No names.
    pub fn new(alloc: Global) -> NamedBytes
        ensures { result ≡ empty }
    {
        NamedBytes {
            tree: BTreeMap::new(alloc),
        }
    }

    /// The bytes under a name, or `None` where the name is not held.
    pub fn get(&self, name: &str) -> Option<&[u8]>
        ensures { option_copied result ≡ get self.now name.now }
    {
        match self.tree.get(name) {
            Some(blob) => Some(blob.as_slice()),
            None => None,
        }
    }

    /// Appends all bytes held under `name` to `into`, where they are at most `limit` bytes. Threads may
    /// read so from one map at once; a read isn't counted and doesn't fail.
    ///
    /// # Errors
    ///
    /// - `NotHeld` exactly where the name isn't held, and `TooLong` exactly where more than `limit`
    ///   bytes stand there.
    /// - `NoMemory` for want of memory, whatever the answer would be.
    ///
    /// After each of these `into` holds what it held.
    pub fn read_named(&self, name: &str, limit: u64, into: &mut Vec<u8>) -> Result<(), ReadStop>
        ensures answer { result ≢ Err ReadStop.NoMemory →
            Reads (read_answer (get self.now name.now) limit) result into.old.items into.new.items }
        ensures bounded { OnOk result (GrowsByAtMost limit into.old.items into.new.items) }
        ensures refused { OnErr result (into.new.items ≡ into.old.items) }
        ensures not_failed { result ≢ Err ReadStop.Failed }
    {
        append(self.get(name), limit, into)
    }

    /// Sets the bytes under a name, in place of those that it held before. They are taken as they are,
    /// with no copy.
    ///
    /// # Errors
    ///
    /// `NoMemory` for want of memory; then the map is as before, and the bytes are let go.
    pub fn insert(&mut self, alloc: Global, name: &str, bytes: Vec<u8>) -> Result<(), NoMemory>
        ensures ok { OnOk result (self.new ≡ insert self.old name.now bytes.items) }
        ensures err { OnErr result (self.new ≡ self.old) }
    {
        let key = String::from_str(alloc, name)?;
        self.tree.insert(key, Blob { bytes })?;
        Ok(())
    }
}

/// Appends what a name holds, if anything, where it is at most `limit` bytes.
fn append(held: Option<&[u8]>, limit: u64, into: &mut Vec<u8>) -> Result<(), ReadStop>
    ensures answer { result ≢ Err ReadStop.NoMemory →
        Reads (read_answer (option_copied held.entry) limit) result into.old.items into.new.items }
    ensures bounded { OnOk result (GrowsByAtMost limit into.old.items into.new.items) }
    ensures refused { OnErr result (into.new.items ≡ into.old.items) }
    ensures not_failed { result ≢ Err ReadStop.Failed }
{
    let Some(bytes) = held else {
        return Err(ReadStop::NotHeld);
    };
    if bytes.len() as u64 > limit {
        return Err(ReadStop::TooLong);
    }
    into.extend_from_slice(bytes)?;
    Ok(())
}
