//! Texts and their canonical texts, by hand from the language's rules: how operations group, where every operation stands in
//! parentheses, and every form of line, also of loops that aren't legal.

use loop_syntax::{Program, read_program, write_program};
use std::alloc::Global;
use std::test::Fail;

/// The canonical text of a text.
fn canonical(alloc: Global, text: &[u8]) -> Result<Vec<u8>, Fail> {
    if text.len() > 65536 {
        return Err(Fail::from("too long"));
    }
    let program: Program = read_program(alloc, text).map_err(|_| "refused")?;
    Ok(write_program(alloc, &program)?)
}

/// A text and its canonical text.
static TEXTS: [(&[u8], &[u8]); 20] = [
    (
        b"for (p, q) in product(1:2,zip(1:3, col(\"a\"))), y in if p>1 then 1 else 2:5\nend",
        b"for (p, q) in product(1:2, zip(1:3, col(\"a\"))), y in if (p > 1) then 1 else 2:5\nend\n",
    ),
    (
        b"var t = \"a\tb\"\nfor x in 1:3\nend",
        b"var t = \"a\\tb\"\nfor x in 1:3\nend\n",
    ),
    (
        b"for x in 1:10\n@reduce s += x\nend\nprint s",
        b"for x in 1:10\n  @reduce s += x\nend\nprint s\n",
    ),
    (
        b"for x in 1:3\nlet y = - - x\nend",
        b"for x in 1:3\n  let y = (-(-x))\nend\n",
    ),
    (
        b"for x in 1:3\nlet y=if x>2 then x+1 else 0\n@reduce s=sum(y)\nend",
        b"for x in 1:3\n  let y = if (x > 2) then (x + 1) else 0\n  @reduce s += y\nend\n",
    ),
    (
        b"\n# two\nfor  x in ( 1 ):- 3\n\n@reduce s = sum(1-x*2) from -  007 # seven\nend",
        b"\n\nfor x in 1:-3\n\n  @reduce s = sum(1 - (x * 2)) from -7\nend\n",
    ),
    (
        b" on  fault skip # all\nfor x in 1:3\nend",
        b"on fault skip\nfor x in 1:3\nend\n",
    ),
    (
        b"\n\n\ton fault skip\n\nvar on=1\nfor x in 1:3\non=2\nend",
        b"\n\non fault skip\n\nvar on = 1\nfor x in 1:3\n  on = 2\nend\n",
    ),
    (
        b"var skip = 1\nfor x in 1:3\nend",
        b"var skip = 1\nfor x in 1:3\nend\n",
    ),
    (
        b"for x in 1:-10\n@reduce total+=x*- -3\nend\n\nprint total",
        b"for x in 1:-10\n  @reduce total += x * (-(-3))\nend\n\nprint total\n",
    ),
    (
        b"for (i, j) in product(1:2, zip(col(\"c\"), 1:3)), k in 1:9223372036854775807\nend",
        b"for (i, j) in product(1:2, zip(col(\"c\"), 1:3)), k in 1:9223372036854775807\nend\n",
    ),
    (
        b"var k = 007\nvar l = -9223372036854775808\nfor (a, b, c, d) in x:y\nend",
        b"var k = 7\nvar l = -9223372036854775808\nfor (a, b, c, d) in x:y\nend\n",
    ),
    (
        b"for x in 1:2\n@reduce s = sum(x)\n@reduce t=argmin(x)\n@reduce u = prod(x) from -1\n@reduce v = count() from 1\nbreak\nend",
        b"for x in 1:2\n  @reduce s += x\n  @reduce t = argmin(x)\n  @reduce u = prod(x) from -1\n  @reduce v = count() from 1\n  break\nend\n",
    ),
    // every kind of nesting
    (
        b"on fault skip\nvar a = true\nvar b = true\nfor x in 1:2\n@init c = true\n@init d = true\nif place\nlet e = place\nelseif place\nc = place\ncontinue\nelse\nif place\n@keep f = place\nend\nend\n@reduce g = count()\nbreak\nend\nprint g\nprint g",
        b"on fault skip\nvar a = true\nvar b = true\nfor x in 1:2\n  @init c = true\n  @init d = true\n  if place\n    let e = place\n  elseif place\n    c = place\n    continue\n  else\n    if place\n      @keep f = place\n    end\n  end\n  @reduce g = count()\n  break\nend\nprint g\nprint g\n",
    ),
    // texts that are no legal loops, and so no cases
    (
        b"for x in - - 9223372036854775808:3\nend",
        b"for x in (-(-9223372036854775808)):3\nend\n",
    ),
    (
        b"var t = \"a # b \\\" \\\\ \\n \\t\"\nfor\tx\tin\t1:3\nend\nprint elsewhere",
        b"var t = \"a # b \\\" \\\\ \\n \\t\"\nfor x in 1:3\nend\nprint elsewhere\n",
    ),
    (
        b"for x in 1:3\n@initx = 1\n@reducet += x\n@keeper = x\nend",
        b"for x in 1:3\n  @init x = 1\n  @reduce t += x\n  @keep er = x\nend\n",
    ),
    (
        b"for x in 1:3\n@reduce g = both(group(1, group(2, group(3, group(4, count())))), group(1, count()))\nend",
        b"for x in 1:3\n  @reduce g = both(group(1, group(2, group(3, group(4, count())))), group(1, count()))\nend\n",
    ),
    (
        b"for x in 2 - -9223372036854775808:3\nend",
        b"for x in 2 - -9223372036854775808:3\nend\n",
    ),
    (
        b"for on in 1:3\non = 1\nlet fault = on\nend\nprint skip",
        b"for on in 1:3\n  on = 1\n  let fault = on\nend\nprint skip\n",
    ),
];

#[test]
fn canonical_texts(rt: HostRuntime) -> Result<(), Fail> {
    for (text, wanted) in &TEXTS {
        let written = canonical(rt.alloc(), text)?;
        assert_eq!(rt; written.as_slice(), *wanted);
    }
    Ok(())
}

/// Every line form once, as it is written.
const FORMS: &[u8] = b"on fault skip
var k = -5
var t = \"a\\\"b\\\\c\\n\\t#\"
var b = true
for (g, q) in zip(col(\"region\"), 1:2:9), y in 1:place, z in y + 1:-1:y * 2
  @init c = false
  let n = int(q)
  let (u, v) = (n, ((not b) and c) or (n == 1))
  c = min(n, abs(y)) < max(1, (-(5)))
  if c
    continue
  elseif (n div 2) != ((n rem 3) mod 4)
    break
  else
    @keep w = if (n >= 1) then tryint(text(n) & \"x\") else nothing
  end

  @reduce s += n
  @reduce p = prod(len(q)) from 1
  @reduce by = group(g, both(argmax(n), count()))
  @reduce l = list((n, place))
end
print s
";

#[test]
fn every_form_is_written_as_it_stands(rt: HostRuntime) -> Result<(), Fail> {
    let alloc = rt.alloc();
    let written = canonical(alloc, FORMS)?;
    assert_eq!(rt; written.as_slice(), FORMS);
    Ok(())
}

/// An expression and its canonical text.
static GROUPED: [(&str, &str); 29] = [
    // All levels at once.
    (
        "not a == b or c and d < e & f + g * -h",
        "(not (a == b)) or (c and (d < (e & (f + (g * (-h))))))",
    ),
    // To the left within a level.
    ("5 - 3 - 1", "(5 - 3) - 1"),
    ("5 + 3 - 1", "(5 + 3) - 1"),
    ("8 div 4 div 2", "(8 div 4) div 2"),
    ("8 * 4 rem 2 mod 3", "((8 * 4) rem 2) mod 3"),
    ("a & b & c", "(a & b) & c"),
    ("a or b or c", "(a or b) or c"),
    ("a and b and c", "(a and b) and c"),
    // Neighbouring levels.
    ("2 * 3 + 4 * 5", "(2 * 3) + (4 * 5)"),
    ("a or b and c", "a or (b and c)"),
    ("a and b or c", "(a and b) or c"),
    ("not a and b", "(not a) and b"),
    ("not a < b", "not (a < b)"),
    ("a & b == c & d", "(a & b) == (c & d)"),
    ("a + b & c - d", "(a + b) & (c - d)"),
    ("a - b mod c", "a - (b mod c)"),
    ("-x * y", "(-x) * y"),
    ("-x + -y", "(-x) + (-y)"),
    // One after another.
    ("not not a", "not (not a)"),
    ("- - x", "(-(-x))"),
    ("- -3", "(-(-3))"),
    ("-3", "-3"),
    ("1 - -3", "1 - -3"),
    // Parentheses that the levels don't ask for.
    ("5 - (3 - 1)", "5 - (3 - 1)"),
    ("(2 + 3) * 4", "(2 + 3) * 4"),
    ("not (a or b)", "not (a or b)"),
    ("((x))", "x"),
    ("if a then b else c or d", "if a then b else (c or d)"),
    (
        "if a then if b then c else d else nothing",
        "if a then (if b then c else d) else nothing",
    ),
];

/// The whole loop whose second line gives `y` this text.
fn looped(alloc: Global, expr: &str) -> Result<String, Fail> {
    let mut text = String::from_str(alloc, "for x in 1:3\n  let y = ")?;
    text.push_str(expr)?;
    text.push_str("\nend\n")?;
    Ok(text)
}

#[test]
fn operations_group_by_their_levels(rt: HostRuntime) -> Result<(), Fail> {
    let alloc = rt.alloc();
    for (expr, want) in &GROUPED {
        let written = canonical(alloc, looped(alloc, expr)?.as_bytes())?;
        assert_eq!(rt;
            written.as_slice(),
            looped(alloc, want)?.as_bytes(),
            "{expr}"
        );
    }
    Ok(())
}
