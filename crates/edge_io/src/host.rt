ghost use Rattle.std.specs.Prelude.{◌≡◌, ◌≢◌, ◌≤◌, ◌+◌, ◌++◌, ℕ, OnOk, OnErr, IfSome, IsOk, Option, None, Ok, Err, length};
ghost use Rattle.edge_io.specs.Reading.{Held, read_answer, Reads, GrowsByAtMost};
ghost use Rattle.edge_io.specs.Writing.{Puts, PutsPrefix, endless_room};
ghost use Rattle.edge_io.specs.SystemReads.{stop_of, chunk_of_error, chunk_read};
ghost use Rattle.edge_io.specs.Counts.{counted};
ghost use Rattle.edge_io.specs.HostModels.{no_calls};

use crate::files::{Files, ReadStop};
use crate::sink::{Sink, SinkFailed};
use no_memory::NoMemory;
use std::alloc::Global;
use std::fs::File;
use std::io::{ErrorKind, Print, Read};
use std::marker::Model;
use std::{io, rt};

/// How many bytes one call asks of the system.
const CHUNK: usize = 65536;

/// The system's files, named by paths. They tell no bytes, and count the reads and those that failed.
///
/// A file that the system doesn't find is `NotHeld`, and the system's own want of memory is
/// `NoMemory`; each other failure, as of a folder or a file that may not be read, is `Failed`.
/// Contracts see the counts alone.
#[derive(Drop)]
pub struct HostFiles<R> {
    host: R,
    reads: u64,
    faults: u64,
}

impl<R> Model for HostFiles<R> {
    ghost use Rattle.edge_io.specs.HostModels.{CallCounts, counts_code};

    ghost Value = { CallCounts };

    ghost coded = { counts_code };

    ghost view = { λ f. record { calls = f.reads; faults = f.faults } };
}

impl<R: rt::Files + Drop> HostFiles<R> {
    /// The files that this runtime reaches, with no read made.
    pub fn new(host: R) -> HostFiles<R>
        ensures { result ≡ no_calls }
    {
        HostFiles {
            host,
            reads: 0,
            faults: 0,
        }
    }

    /// How many reads were made, up to the last value of a `u64`.
    pub fn reads(&self) -> u64
        ensures { result ≡ self.now.calls }
    {
        self.reads
    }

    /// How many of them failed.
    pub fn faults(&self) -> u64
        ensures { result ≡ self.now.faults }
    {
        self.faults
    }
}

impl<R: rt::Files + Drop> Files for HostFiles<R> {
    ghost held = { λ _. None };

    ghost reads = { λ counts. counts.calls };

    ghost faults = { λ counts. counts.faults };

    fn read_named(
        &mut self,
        _alloc: Global,
        name: &str,
        limit: u64,
        into: &mut Vec<u8>,
    ) -> Result<(), ReadStop>
        ensures reads { self.new.calls ≡ counted self.old.calls }
        ensures failed { result ≡ Err ReadStop.Failed → self.new.faults ≡ counted self.old.faults }
        ensures not_failed { result ≢ Err ReadStop.Failed → self.new.faults ≡ self.old.faults }
        ensures never_falls { self.old.faults ≤ self.new.faults }
        ensures bounded { OnOk result (GrowsByAtMost limit into.old.items into.new.items) }
        ensures refused { OnErr result (into.new.items ≡ into.old.items) }
    {
        self.reads = self.reads.saturating_add(1);
        let before = into.len();
        let read = read_file(&self.host, name, limit, into);
        if let Err(stop) = read {
            into.truncate(before);
            if stop == ReadStop::Failed {
                self.faults = self.faults.saturating_add(1);
            }
        }
        read
    }
}

/// Appends a file's bytes, where they are at most `limit`; a refusal may leave the first of them.
fn read_file<R: rt::Files>(
    host: &R,
    name: &str,
    limit: u64,
    into: &mut Vec<u8>,
) -> Result<(), ReadStop>
    ensures { GrowsByAtMost limit into.old.items into.new.items }
{
    let mut file = match File::open(host, name) {
        Ok(file) => file,
        Err(error) => return Err(stop_of(error.kind())),
    };
    let mut chunk = [0u8; CHUNK];
    let mut left = limit;
    for _ in 0..u64::MAX {
        let count = match chunk_read(file.read(&mut chunk)) {
            ChunkRead::End => return Ok(()),
            ChunkRead::Bytes(count) => count,
            ChunkRead::Again => 0,
            ChunkRead::Stop(stop) => return Err(stop),
        };
        if count as u64 > left {
            return Err(ReadStop::TooLong);
        }
        into.extend_from_slice(&chunk[..count])?;
        left -= count as u64;
    }
    Err(ReadStop::Failed)
}

/// What one read of the system gives.
#[derive(Drop)]
enum ChunkRead {
    /// The file's end.
    End,
    /// So many bytes, at least one.
    Bytes(usize),
    /// Nothing: it was interrupted, and is made again.
    Again,
    /// A refusal.
    Stop(ReadStop),
}

/// What one read of the system gives, by the count of its bytes or its error.
fn chunk_read(read: io::Result<usize>) -> ChunkRead
    ensures exact { result ≡ chunk_read read }
    ensures counted { (n : ℕ) → result ≡ ChunkRead.Bytes n → read ≡ Ok n }
{
    match read {
        Ok(0) => ChunkRead::End,
        Ok(count) => ChunkRead::Bytes(count),
        Err(error) => chunk_of_error(error.kind()),
    }
}

/// What an error of the system gives: one that was interrupted is made again, and any other stops.
fn chunk_of_error(kind: ErrorKind) -> ChunkRead
    ensures { result ≡ chunk_of_error kind }
{
    match kind {
        ErrorKind::Interrupted => ChunkRead::Again,
        _ => ChunkRead::Stop(stop_of(kind)),
    }
}

/// What an error of the system says of a read: only what isn't found is not held.
fn stop_of(kind: ErrorKind) -> ReadStop
    ensures { result ≡ stop_of kind }
{
    match kind {
        ErrorKind::NotFound => ReadStop::NotHeld,
        ErrorKind::OutOfMemory => ReadStop::NoMemory,
        _ => ReadStop::Failed,
    }
}

/// Standard output. It tells no bytes, has room for 18,446,744,073,709,551,615 bytes at all times,
/// and counts the puts and those that failed. Contracts see the counts alone.
#[derive(Drop)]
pub struct HostSink<R> {
    host: R,
    puts: u64,
    faults: u64,
}

impl<R> Model for HostSink<R> {
    ghost use Rattle.edge_io.specs.HostModels.{CallCounts, counts_code};

    ghost Value = { CallCounts };

    ghost coded = { counts_code };

    ghost view = { λ s. record { calls = s.puts; faults = s.faults } };
}

impl<R: Print + Drop> HostSink<R> {
    /// The standard output of this runtime, with no put made.
    pub fn new(host: R) -> HostSink<R>
        ensures { result ≡ no_calls }
    {
        HostSink {
            host,
            puts: 0,
            faults: 0,
        }
    }

    /// How many puts were made, up to the last value of a `u64`.
    pub fn puts(&self) -> u64
        ensures { result ≡ self.now.calls }
    {
        self.puts
    }

    /// How many of them failed.
    pub fn faults(&self) -> u64
        ensures { result ≡ self.now.faults }
    {
        self.faults
    }
}

impl<R: Print + Drop> Sink for HostSink<R> {
    ghost written = { λ _. None };

    ghost puts = { λ counts. counts.calls };

    ghost faults = { λ counts. counts.faults };

    ghost room = { λ _. endless_room };

    fn reserve(&mut self, _alloc: Global, _more: u64) -> Result<(), NoMemory>
        ensures never_refused { IsOk result }
        ensures room { _more ≤ endless_room }
        ensures kept { self.new ≡ self.old }
    {
        Ok(())
    }

    fn put(&mut self, piece: &[u8]) -> Result<(), SinkFailed>
        ensures puts { self.new.calls ≡ counted self.old.calls }
        ensures failed { OnErr result (self.new.faults ≡ counted self.old.faults) }
        ensures not_failed { OnOk result (self.new.faults ≡ self.old.faults) }
        ensures never_falls { self.old.faults ≤ self.new.faults }
    {
        self.puts = self.puts.saturating_add(1);
        if self.host.write_all(piece).is_err() {
            self.faults = self.faults.saturating_add(1);
            return Err(SinkFailed);
        }
        Ok(())
    }
}
