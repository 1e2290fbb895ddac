//! A call over a loop file and a sink in memory.

use edge_io::{MemoryFiles, MemorySink};
use floop_run::{Status, floop_words};
use piece_ledger::Gate;
use std::alloc::{AllocError, Global};
use std::process::Abort;
use std::test::Fail;
use std::thread::Threads;

/// The words of a text, parted by blanks.
fn words_of(alloc: Global, text: &str) -> Result<Vec<String>, AllocError> {
    let mut words = Vec::new(alloc);
    for word in text.split(' ') {
        words.push(String::from_str(alloc, word)?)?;
    }
    Ok(words)
}

/// The call with these words, over the loop file `loop` of this text, writes this and has the status `Done`.
pub(crate) fn writes<R: Threads + Sync, G: Gate + Sync>(
    rt: &impl Abort,
    threads: &R,
    alloc: Global,
    words: &str,
    text: &str,
    gate: &G,
    want: &str,
) -> Result<(), Fail> {
    let words = words_of(alloc, words)?;
    let mut files = MemoryFiles::new(alloc);
    files.add(alloc, "loop", text.as_bytes())?;
    let mut out = MemorySink::new(alloc);
    let status = floop_words(threads, alloc, &words, &mut files, &mut out, gate);
    assert!(rt; status == Status::Done, "{want}");
    assert!(rt; out.bytes() == want.as_bytes(), "{want}");
    Ok(())
}
