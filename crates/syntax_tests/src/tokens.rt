//! What no clause says: the tables of bytes, words, signs and limits, by hand from the language's rules.

use loop_tokens::{LineTokens, Token, number_of, text_of, tokens};
use std::alloc::{AllocError, Global};
use std::test::Fail;

/// The tokens with a letter for each kind, and at the end `.` where the line is whole, `!` where it isn't.
fn shown(alloc: Global, line: &LineTokens<'_>) -> Result<String, AllocError> {
    let mut out = String::new(alloc);
    for token in &line.tokens {
        match token {
            Token::Name(piece) => push(&mut out, "n", piece.as_str())?,
            Token::Number(piece) => push(&mut out, "d", piece.as_str())?,
            Token::Text(piece) => push(&mut out, "t", piece.as_str())?,
            Token::Keyword(word) => push(&mut out, "k", word.text())?,
            Token::At(word) => push(&mut out, "a", word.text())?,
            Token::Sign(sign) => push(&mut out, "s", sign.text())?,
        }
    }
    out.push_str(if line.whole { "." } else { "!" })?;
    Ok(out)
}

fn push(out: &mut String, kind: &str, text: &str) -> Result<(), AllocError> {
    out.push_str(kind)?;
    out.push_str(text)?;
    out.push_str(" ")
}

#[test]
fn cuts_lines_into_tokens(rt: HostRuntime) -> Result<(), Fail> {
    for (line, want) in [
        ("", "."),
        (" \t ", "."),
        ("# a \" comment", "."),
        ("for x in 1:10", "kfor nx kin d1 s: d10 ."),
        ("elsewhere if_1 _", "nelsewhere nif_1 n_ ."),
        (
            "elseif else tryint argmax",
            "kelseif kelse ktryint kargmax .",
        ),
        ("@keeper=1", "a@keep ner s= d1 ."),
        ("@reducet += x", "a@reduce nt s+= nx ."),
        ("@init\tb == 0", "a@init nb s== d0 ."),
        ("@in", "!"),
        ("1else", "d1 kelse ."),
        (
            "a<=b>=c<d>e!=f=g",
            "na s<= nb s>= nc s< nd s> ne s!= nf s= ng .",
        ),
        ("+-*&:,()", "s+ s- s* s& s: s, s( s) ."),
        ("a ! b", "na !"),
        ("x = \"a # b\" # c", "nx s= ta # b ."),
        ("\"q\\\"\\\\\\n\\t\"", "tq\\\"\\\\\\n\\t ."),
        ("x \"open", "nx !"),
        ("x \"\\r\"", "nx !"),
        ("\"é\" é", "té !"),
        ("end\r", "kend !"),
    ] {
        let line_tokens = tokens(rt.alloc(), line).expect(&rt, "memory");
        let text = shown(rt.alloc(), &line_tokens)?;
        assert_eq!(rt; text.as_str(), want, "at {line:?}");
    }
    Ok(())
}

#[test]
fn reads_literals(rt: HostRuntime) -> Result<(), Fail> {
    for (digits, want) in [
        ("0", Some(0)),
        ("007", Some(7)),
        ("9223372036854775807", Some(9223372036854775807)),
        ("9223372036854775808", Some(9223372036854775808)),
        ("9223372036854775809", None),
        ("99999999999999999999999999", None),
    ] {
        assert_eq!(rt; number_of(digits), want, "{digits}");
    }
    let text = text_of(rt.alloc(), "a\\\"b\\\\c\\nd\\té").expect(&rt, "memory");
    assert_eq!(rt; text.as_str(), "a\"b\\c\nd\té");
    Ok(())
}
