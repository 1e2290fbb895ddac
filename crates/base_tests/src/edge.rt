//! Files and sinks, in memory and of the system, each through its calls.

use edge_io::{
    Files, HostFiles, HostSink, MemoryFiles, MemorySink, NamedBytes, ReadStop, Sink, SinkFailed,
};
use std::test::Fail;
use std::{env, fs, process};

/// Whether just these bytes are held under the name.
fn holds(held: &NamedBytes, name: &str, bytes: &[u8]) -> bool {
    match held.get(name) {
        Some(found) => found == bytes,
        None => false,
    }
}

#[test]
fn names_hold_their_last_bytes(rt: HostRuntime) -> Result<(), Fail> {
    let mut held = NamedBytes::new(rt.alloc());
    held.insert(rt.alloc(), "a", Vec::from_slice(rt.alloc(), b"1")?)?;
    held.insert(rt.alloc(), "", Vec::from_slice(rt.alloc(), b"2")?)?;
    held.insert(rt.alloc(), "a", Vec::from_slice(rt.alloc(), b"3")?)?;
    assert!(rt; holds(&held, "a", b"3"));
    assert!(rt; holds(&held, "", b"2"));
    assert!(rt; held.get("A").is_none());
    Ok(())
}

#[test]
fn reads_what_is_held(rt: HostRuntime) -> Result<(), Fail> {
    let mut files = MemoryFiles::new(rt.alloc());
    files.add(rt.alloc(), "sum.floop", b"old")?;
    files.add(rt.alloc(), "empty", b"")?;
    files.add(rt.alloc(), "sum.floop", b"print s")?;
    let table = [
        ("sum.floop", 8, Ok(()), "head:print s"),
        ("sum.floop", 7, Ok(()), "head:print s"),
        ("sum.floop", 6, Err(ReadStop::TooLong), "head:"),
        ("sum.floop", 0, Err(ReadStop::TooLong), "head:"),
        ("empty", 0, Ok(()), "head:"),
        ("sum", 8, Err(ReadStop::NotHeld), "head:"),
        ("", 0, Err(ReadStop::NotHeld), "head:"),
    ];
    for (name, limit, want, held) in table {
        let mut into = Vec::from_slice(rt.alloc(), b"head:")?;
        let answer = files.read_named(rt.alloc(), name, limit, &mut into);
        assert_eq!(rt; answer, want, "{name} up to {limit}");
        assert_eq!(rt; into.as_slice(), held.as_bytes(), "{name} up to {limit}");
    }
    Ok(())
}

#[test]
fn fails_at_the_named_reads(rt: HostRuntime) -> Result<(), Fail> {
    let mut files = MemoryFiles::new(rt.alloc());
    files.add(rt.alloc(), "a", b"1")?;
    for call in [2, 0, 9] {
        files.fail_at(rt.alloc(), call)?;
    }
    let table = [
        ("a", Ok(())),
        ("a", Err(ReadStop::Failed)),
        ("a", Ok(())),
        ("b", Err(ReadStop::NotHeld)),
        ("b", Err(ReadStop::Failed)),
        ("a", Ok(())),
    ];
    let mut into = Vec::new(rt.alloc());
    for (call, (name, want)) in table.into_iter().enumerate() {
        if call == 3 {
            // The third read was made already, the fifth wasn't.
            files.fail_at(rt.alloc(), 3)?;
            files.fail_at(rt.alloc(), 5)?;
        }
        let answer = files.read_named(rt.alloc(), name, 1, &mut into);
        assert_eq!(rt; answer, want, "read {}", call + 1);
    }
    assert_eq!(rt; into.as_slice(), b"111".as_slice());
    Ok(())
}

#[test]
fn keeps_what_is_put(rt: HostRuntime) -> Result<(), Fail> {
    let mut sink = MemorySink::new(rt.alloc());
    assert_eq!(rt; sink.bytes(), b"".as_slice());
    // A new sink has no room, which is enough for the empty piece.
    assert_eq!(rt; sink.put(b""), Ok(()));
    // One reserve is enough for two puts.
    sink.reserve(rt.alloc(), 5)?;
    assert_eq!(rt; sink.put(b"55\n"), Ok(()));
    assert_eq!(rt; sink.put(b"7\n"), Ok(()));
    assert_eq!(rt; sink.bytes(), b"55\n7\n".as_slice());
    Ok(())
}

#[test]
fn a_failed_put_keeps_its_first_bytes(rt: HostRuntime) -> Result<(), Fail> {
    let table = [
        (0, "0\n{}\n"),
        (1, "0\nn{}\n"),
        (3, "0\nnot{}\n"),
        (8, "0\nnothing\n{}\n"),
        (9, "0\nnothing\n{}\n"),
        (u64::MAX, "0\nnothing\n{}\n"),
    ];
    for (keep, want) in table {
        let mut sink = MemorySink::new(rt.alloc());
        sink.fail_at(rt.alloc(), 2, keep)?;
        sink.reserve(rt.alloc(), 13)?;
        assert_eq!(rt; sink.put(b"0\n"), Ok(()), "keep {keep}");
        assert_eq!(rt; sink.put(b"nothing\n"), Err(SinkFailed), "keep {keep}");
        assert_eq!(rt; sink.put(b"{}\n"), Ok(()), "keep {keep}");
        assert_eq!(rt; sink.bytes(), want.as_bytes(), "keep {keep}");
    }
    Ok(())
}

#[test]
fn fails_at_the_named_puts(rt: HostRuntime) -> Result<(), Fail> {
    let mut sink = MemorySink::new(rt.alloc());
    for (call, keep) in [(2, 1), (0, 0), (9, 0), (2, 2)] {
        sink.fail_at(rt.alloc(), call, keep)?;
    }
    sink.reserve(rt.alloc(), 9)?;
    assert_eq!(rt; sink.put(b"abc"), Ok(()));
    // The first put was made already, the fourth wasn't.
    sink.fail_at(rt.alloc(), 1, 0)?;
    sink.fail_at(rt.alloc(), 4, 0)?;
    // The last naming of the second put counts.
    assert_eq!(rt; sink.put(b"def"), Err(SinkFailed));
    assert_eq!(rt; sink.put(b"ghi"), Ok(()));
    assert_eq!(rt; sink.put(b""), Err(SinkFailed));
    assert_eq!(rt; sink.bytes(), b"abcdeghi".as_slice());
    Ok(())
}

#[test]
fn reads_a_file_of_the_system(rt: HostRuntime) -> Result<(), Fail> {
    // Over 1 MiB, and so read by many calls of the system.
    let text = "floop\n".repeat(rt.alloc(), 200000)?;
    let name = format!(in rt.alloc(); "floop_base_tests_{}", process::id(rt.process()))?;
    let folder = env::temp_dir(&rt)?.join(rt.alloc(), &name)?;
    fs::create_dir_all(&rt, &folder)?;
    let file = folder.join(rt.alloc(), "text")?;
    let missing = folder.join(rt.alloc(), "missing")?;
    fs::write(&rt, &file, text.as_str())?;

    let table = [
        (file.as_str(), 1200000, Ok(())),
        (file.as_str(), 1199999, Err(ReadStop::TooLong)),
        (file.as_str(), 0, Err(ReadStop::TooLong)),
        (missing.as_str(), 1200000, Err(ReadStop::NotHeld)),
        (folder.as_str(), 1200000, Err(ReadStop::Failed)),
    ];
    let mut files = HostFiles::new(&rt);
    for (path, limit, want) in table {
        let mut into = Vec::from_slice(rt.alloc(), b"head:")?;
        let answer = files.read_named(rt.alloc(), path, limit, &mut into);
        assert_eq!(rt; answer, want, "{path} up to {limit}");
        let appended = if answer.is_ok() { text.as_bytes() } else { b"" };
        let stands = into.as_slice().strip_prefix(b"head:") == Some(appended);
        assert!(rt; stands, "{path} up to {limit}");
    }
    fs::remove_dir_all(&rt, &folder)?;
    Ok(())
}

#[test]
fn puts_to_standard_output(rt: HostRuntime) -> Result<(), Fail> {
    let mut sink = HostSink::new(&rt);
    sink.reserve(rt.alloc(), u64::MAX)?;
    assert_eq!(rt; sink.put(b"put by a test of base_tests\n"), Ok(()));
    assert_eq!(rt; sink.put(b""), Ok(()));
    Ok(())
}
