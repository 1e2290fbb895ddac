//! The edge of the program: files that are read by name, and a sink for what is written.
//!
//! The program reads and writes through the traits `Files` and `Sink` alone. Their clauses say what
//! each call does where the bytes are told, and that a failure is told by a count of faults that
//! rises. `MemoryFiles` and `MemorySink` hold their bytes in memory and tell them all; `HostFiles`
//! and `HostSink` adapt the system's files and standard output, and tell no bytes. `NamedBytes` is
//! the map from names to bytes that stands behind `MemoryFiles`, which threads share.
#![tactic(auto)]

mod calls;
mod files;
mod host;
pub mod laws;
mod memory_files;
mod memory_sink;
mod named_bytes;
mod sink;

pub use files::{Files, ReadStop};
pub use host::{HostFiles, HostSink};
pub use memory_files::MemoryFiles;
pub use memory_sink::MemorySink;
pub use named_bytes::NamedBytes;
pub use no_memory::NoMemory;
pub use sink::{Sink, SinkFailed};
