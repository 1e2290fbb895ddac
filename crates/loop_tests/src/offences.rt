//! The number, the line and the name of an offence, also where its text leaves the name out; and the program that is handed on.

use crate::run::read;
use legality_check::{LegalProgram, LegalRefusal, check_program};
use loop_syntax::write_program;
use std::alloc::Global;
use std::test::Fail;

/// A loop file with the number, the line and the name of its first offence, one for each rule but the tenth.
static OFFENCES: [(&str, u32, u32, &str); 9] = [
    ("for x in 1:2\nlet y = z\nend\n", 1, 2, "z"),
    ("for x in 1:2\nlet x = 1\nend\n", 2, 2, "x"),
    ("var t = 0\nfor x in 1:2\nt = x\nend\n", 3, 3, "t"),
    (
        "for x in 1:2\n@init b = 0\n@reduce s += b\nb = x\nend\n",
        4,
        3,
        "b",
    ),
    ("for x in 1:2\n@reduce s += s\nend\n", 5, 2, "s"),
    (
        "for x in 1:2\n@reduce s += x\n@reduce s = count()\nend\n",
        6,
        3,
        "s",
    ),
    ("for x in 1:2\nif x\nend\nend\n", 7, 2, "if"),
    ("for x in 1:2\n@reduce s = count() from 1\nend\n", 8, 2, "s"),
    ("for x in 1:place\nend\n", 9, 1, "for"),
];

/// What the check of a loop file says.
fn checked(alloc: Global, text: &str) -> Result<Result<LegalProgram, LegalRefusal>, Fail> {
    let program = read(alloc, text)?;
    Ok(check_program(alloc, program))
}

/// Whether the check refuses a loop file with this offence.
fn is_refused(alloc: Global, text: &str, number: u32, line: u32, name: &str) -> Result<bool, Fail> {
    match checked(alloc, text)? {
        Err(LegalRefusal::Illegal(o)) => {
            Ok(o.number == number && o.line == line && o.name.as_str() == name)
        }
        _ => Ok(false),
    }
}

#[test]
fn has_number_line_and_name(rt: HostRuntime) -> Result<(), Fail> {
    for (text, number, line, name) in &OFFENCES {
        let is = is_refused(rt.alloc(), text, *number, *line, name)?;
        assert!(rt; is, "{text}");
    }
    Ok(())
}

#[test]
fn the_65th_reduce_line_is_named(rt: HostRuntime) -> Result<(), Fail> {
    let mut text = String::from_str(rt.alloc(), "for x in 1:2\n")?;
    for _ in 0..64 {
        text.push_str("@reduce s += x\n")?;
    }
    text.push_str("@reduce t = count()\nend\n")?;
    let is = is_refused(rt.alloc(), text.as_str(), 10, 66, "t")?;
    assert!(rt; is);
    Ok(())
}

#[test]
fn hands_the_program_on(rt: HostRuntime) -> Result<(), Fail> {
    let text = "var k = 2\n\nfor x in 1:k\n  @reduce s += x * k\nend\nprint s\n";
    let legal = checked(rt.alloc(), text)?.map_err(|_| "refused")?;
    let written = write_program(rt.alloc(), legal.program())?;
    assert_eq!(rt; &written[..], text.as_bytes());
    Ok(())
}
