//! Requests as they are read, and words that no case of floop_cases can hold: empty ones, and those with a blank or a line end.

use program_words::{Call, Request, request_of};
use std::alloc::{AllocError, Global};
use std::process::Abort;
use std::test::Fail;

/// Words parted by `|`, and what they are.
type Row = (&'static str, &'static str);

/// The words of a row; the empty text has none.
fn words_of(alloc: Global, text: &str) -> Result<Vec<String>, AllocError> {
    let mut words = Vec::new(alloc);
    if !text.is_empty() {
        for word in text.split('|') {
            words.push(String::from_str(alloc, word)?)?;
        }
    }
    Ok(words)
}

/// The command's word, and what the request gives to each setting that it gives.
fn push_request(out: &mut String, request: &Request<'_>) -> Result<(), AllocError> {
    out.push_str(request.command.word())?;
    for setting in request.command.settings() {
        if let Some(value) = request.value(*setting) {
            let name = setting.name();
            write!(out, " [{name}] {value}")?;
        }
    }
    Ok(())
}

/// The request, or the text of the refusal.
fn shown(alloc: Global, call: Call, words: &[String]) -> Result<String, AllocError> {
    let mut out = String::new(alloc);
    match request_of(call, words) {
        Ok(request) => push_request(&mut out, &request)?,
        Err(refusal) => write!(out, "{refusal}")?,
    }
    Ok(out)
}

/// Each row's words are what the row says.
fn check(rt: &impl Abort, alloc: Global, call: Call, rows: &[Row]) -> Result<(), Fail> {
    for (text, wanted) in rows {
        let words = words_of(alloc, text)?;
        let given = shown(alloc, call, &words)?;
        assert_eq!(rt; given.as_str(), *wanted);
    }
    Ok(())
}

static REQUESTS: [Row; 10] = [
    ("run|loop=a", "run [loop] a"),
    ("check|loop=a", "check [loop] a"),
    // in any order
    ("check|data=b|loop=a", "check [loop] a [data] b"),
    (
        "run|report=no|workers=32|base=1|executor=seq|loop=a",
        "run [loop] a [executor] seq [base] 1 [workers] 32 [report] no",
    ),
    // cut at the first `=`
    ("run|loop=a=b", "run [loop] a=b"),
    ("run|loop==", "run [loop] ="),
    // a loop file's name may hold a comma, a blank and any other character
    ("run|loop=a,b", "run [loop] a,b"),
    ("run|loop= ", "run [loop]  "),
    ("run|loop=größe", "run [loop] größe"),
    (
        "run|loop=l|data=1,2,3,4,5,6,7,1",
        "run [loop] l [data] 1,2,3,4,5,6,7,1",
    ),
];

#[test]
fn requests(rt: HostRuntime) -> Result<(), Fail> {
    check(&rt, rt.alloc(), Call::Direct, &REQUESTS)
}

static REFUSED: [Row; 4] = [
    ("|loop=a", "unknown command: "),
    ("run|", "not a setting: "),
    ("run|a\nb", "not a setting: a\nb"),
    ("run| loop=a", "unknown setting:  loop"),
];

#[test]
fn words_with_blanks_and_none(rt: HostRuntime) -> Result<(), Fail> {
    check(&rt, rt.alloc(), Call::Direct, &REFUSED)
}

// No command waits yet.
static WAITING: [Row; 3] = [
    ("", "not served here"),
    ("run|loop=a", "not served here"),
    ("stop", "not served here"),
];

#[test]
fn waiting(rt: HostRuntime) -> Result<(), Fail> {
    check(&rt, rt.alloc(), Call::Waiting, &WAITING)
}
