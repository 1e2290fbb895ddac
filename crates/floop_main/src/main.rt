//! The program `floop`: the system's threads, files and standard output, the words, and the top call.
#![tactic(auto)]

use edge_io::{HostFiles, HostSink};
use floop_run::{Status, exit_code, floop_words};
use piece_ledger::OpenGate;
use std::alloc::AllocError;
use std::env;
use std::process::ExitCode;
use std::thread::Threads;

fn main(rt: HostRuntime) -> ExitCode {
    ExitCode::from(exit_code(run(&rt, &rt)))
}

/// Runs the program on its words. Where they can't be had as texts, nothing is written. Threads are had of the second runtime,
/// since `main` alone can give it as one that starts them.
fn run<R: Threads + Sync>(rt: &HostRuntime, threads: &R) -> Result<Status, AllocError> {
    let alloc = rt.alloc();
    let mut words = match env::args(rt) {
        Ok(words) => words,
        Err(error) => return Ok(Status::without_words(error.kind())),
    };
    // The first is the program's own name.
    let _ = words.next();
    let words: Vec<String> = words.collect(alloc)?;
    let mut files = HostFiles::new(rt.clone()?);
    let mut out = HostSink::new(rt.clone()?);
    Ok(floop_words(threads, alloc, &words, &mut files, &mut out, &OpenGate))
}
