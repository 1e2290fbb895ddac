//! Copies of values and of whole programs' parts equal what they were made of.

use crate::asked::{read, value_of};
use loop_data::{CopyIn, copy_block};
use loop_syntax::Program;
use loop_values::Env;
use no_memory::NoMemory;
use std::alloc::Global;
use std::test::Fail;

/// Every line form once.
const FORMS: &str = "var k = -5
var t = \"a\\\"b\\\\c\\n\\t#\"
var b = true
for (g, q) in zip(col(\"region\"), 1:2:9), y in 1:place, z in y + 1:-1:y * 2
  @init c = false
  let n = int(q)
  let (u, v) = (n, ((not b) and c) or (n == 1))
  c = min(n, abs(y)) < max(1, (-(5)))
  if c
    continue
  elseif (n div 2) != ((n rem 3) mod 4)
    break
  else
    @keep w = if (n >= 1) then tryint(text(n) & \"x\") else nothing
  end
  let l = if not b then (-place, -n) else (1, len(\"a text of over twenty-three bytes\"))
  @reduce s += n
  @reduce p = prod(len(q)) from 1
  @reduce by = group(g, both(argmax(n), count()))
  @reduce l = list((n, place))
end
print s
";

/// Whether a copy equals what it was made of.
fn is_same<T: PartialEq + Drop>(copy: Result<T, NoMemory>, whole: &T) -> Result<bool, NoMemory> {
    let copy = copy?;
    Ok(copy == *whole)
}

/// Whether the copies of a program's body equal it.
fn is_copied(alloc: Global, program: &Program) -> Result<bool, NoMemory> {
    let body = program.body();
    let block = is_same(copy_block(alloc, body.as_slice()), body)?;
    let list = is_same(body.copy(alloc), body)?;
    Ok(block && list)
}

#[test]
fn every_form_is_copied(rt: HostRuntime) -> Result<(), Fail> {
    let alloc = rt.alloc();
    let program = read(alloc, FORMS)?;
    assert_eq!(rt; is_copied(alloc, &program), Ok(true));
    for inner in program.head().inner.as_slice() {
        assert_eq!(rt; is_same(inner.range.copy(alloc), &inner.range), Ok(true));
    }
    Ok(())
}

/// Bodies that differ in one thing.
static BODIES: [(&str, &str); 8] = [
    (
        "let y = (if not b then (-place, abs(x)) else (1, 2), if true then \"a text of over twenty-three bytes\" & \"a\" else nothing)",
        "let y = (if not b then (-place, abs(x)) else (1, 2), if true then \"a text of over twenty-three bytes\" & \"b\" else nothing)",
    ),
    ("let (y, z) = (1, 2)", "let (y, z) = (1, 3)"),
    (
        "@reduce y = group(g, both(sum(n), count()))",
        "@reduce y = group(g, both(prod(n), count()))",
    ),
    (
        "@reduce y = group(g, both(argmin(n), count()))",
        "@reduce y = group(g, both(count(), argmin(n)))",
    ),
    ("@reduce y = sum(n) from 1", "@reduce y += n"),
    ("if b\nbreak\nend", "if b\nbreak\n\nend"),
    ("if b\nbreak\nend", "if b\ncontinue\nend"),
    ("if b\nelseif c\nelse\nend", "if b\nelse\nend"),
];

/// The loop with this body.
fn with_body(alloc: Global, body: &str) -> Result<Program, Fail> {
    let text = format!(in alloc; "for x in 1:1\n{body}\nend\n")?;
    read(alloc, text.as_str())
}

#[test]
fn bodies_that_differ(rt: HostRuntime) -> Result<(), Fail> {
    let alloc = rt.alloc();
    for (one, other) in &BODIES {
        let program = with_body(alloc, one)?;
        let different = with_body(alloc, other)?;
        assert_eq!(rt; is_copied(alloc, &program), Ok(true), "{one}");
        assert!(rt; program.body() != different.body(), "{one}");
    }
    Ok(())
}

/// Values that differ.
static VALUES: [(&str, &str); 3] = [
    ("(1, (\"a\", (true, true)))", "(1, (\"a\", (true, false)))"),
    ("if false then 1 else nothing", "1"),
    ("\"a text of over twenty-three bytes\"", "\"a text\""),
];

/// Whether the copy of a thing equals it, and the other thing doesn't.
fn is_told<T: CopyIn + PartialEq + Drop>(
    alloc: Global,
    one: &T,
    other: &T,
) -> Result<bool, NoMemory> {
    Ok(is_same(one.copy_in(alloc), one)? && *one != *other)
}

#[test]
fn copies_of_values(rt: HostRuntime) -> Result<(), Fail> {
    let alloc = rt.alloc();
    let env = Env::new(alloc);
    for (one, other) in &VALUES {
        let value = value_of(alloc, one, &env)?;
        let different = value_of(alloc, other, &env)?;
        match (&value, &different) {
            (Ok(value), Ok(different)) => {
                assert_eq!(rt; is_told(alloc, value, different), Ok(true), "{one}");
            }
            _ => return Err(Fail::from("a fault")),
        }
    }
    Ok(())
}
