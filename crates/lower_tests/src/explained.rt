//! What explains a loop.

use crate::loops::{legal, table_of};
use loop_lower::lower;
use std::alloc::Global;
use std::test::Fail;

/// A loop, its data file, and the lines that explain it.
static EXPLAINED: [(&str, &str, &str); 6] = [
    (
        "for (g, q) in zip(col(\"region\"), col(\"qty\"))\nlet n = int(q)\n@reduce total += n\n\
@reduce by = group(g, sum(n))\nend\nprint total\nprint by\n",
        "region,qty\nnorth,10\nsouth,5\nnorth,7\n",
        "items 3\nstage 1: MapSplat, line 1\nstage 2: Map, line 2\nstage 3: Map, line 3\nstage 4: ReduceIf, line 3\n\
reduce total: sum\nreduce by: group(sum)\n",
    ),
    (
        "for x in 1:10\nif x == 4\nbreak\nend\n@reduce a += 1\nend\nprint a\n",
        "",
        "items 10\nstage 1: ReduceIf, line 2\nstage 2: Filter, line 2\nstage 3: Map, line 5\nstage 4: ReduceIf, line 5\n\
reduce a: sum\n",
    ),
    // faults are skipped, and a reducer has a start value
    (
        "on fault skip\nfor x in 1:3\n@reduce s = sum(x) from 100\nend\n",
        "",
        "items 3\non fault skip\nstage 1: Map, line 3\nstage 2: ReduceIf, line 3\nreduce s: sum from 100\n",
    ),
    // an LF in a start value
    (
        "for x in 1:2\n@reduce l = list(\"c\") from \"a\\nb\"\nend\n",
        "",
        "items 2\nstage 1: Map, line 2\nstage 2: ReduceIf, line 2\nreduce l: list from a\nb\n",
    ),
    // every form of statement before the split statement, and inner heads
    (
        "var v = 1\nfor x in 3:2, y in 1:x, z in y:x\n@init b = 0\nlet (p, q) = (x, y)\nb = p + q\n\
@keep k = if b > 0 then b else nothing\nif k == 0\ncontinue\nend\nif k == 1\nb = 2\nelse\nbreak\nend\n\
if x == 9\nlet w = 1\nend\n@reduce r = both(min(b), group(text(v), list(x)))\nb = 3\nend\n",
        "",
        "items 0\nstage 1: Map, line 2\nstage 2: Cat, line 2\nstage 3: Map, line 2\nstage 4: Cat, line 2\n\
stage 5: MapSplat, line 4\nstage 6: Map, line 5\nstage 7: KeepSomething, line 6\nstage 8: Filter, line 7\n\
stage 9: Map, line 10\nstage 10: ReduceIf, line 10\nstage 11: Filter, line 10\nstage 12: Map, line 15\n\
stage 13: Map, line 18\nstage 14: ReduceIf, line 18\nreduce r: both(min, group(list))\n",
    ),
    // nothing is emitted: there is no split statement
    (
        "for x in 1:4\nlet y = x\nif y == 2\nif y == 3\nbreak\nend\nend\ncontinue\nbreak\nend\n",
        "",
        "items 4\nstage 1: Map, line 2\nstage 2: Map, line 3\nstage 3: ReduceIf, line 3\nstage 4: Filter, line 3\n\
stage 5: Filter, line 8\nstage 6: ReduceIf, line 9\nstage 7: Filter, line 9\n",
    ),
];

/// The text that explains a loop, and how many lines it has.
fn explained(alloc: Global, text: &str, data: &str) -> Result<(Vec<u8>, usize), Fail> {
    let program = legal(alloc, text)?;
    let table = table_of(alloc, data)?;
    let job = lower(alloc, &program, &table).map_err(|_| "not lowered")?;
    let lines = job.explain_lines(alloc)?.len();
    Ok((job.explain(alloc)?, lines))
}

#[test]
fn loops_are_explained(rt: HostRuntime) -> Result<(), Fail> {
    for (text, data, wanted) in &EXPLAINED {
        let (got, _) = explained(rt.alloc(), text, data)?;
        assert!(rt; got.as_slice() == wanted.as_bytes(), "{text}");
    }
    Ok(())
}

/// An LF in a start value parts no line.
#[test]
fn a_line_may_hold_a_line_end(rt: HostRuntime) -> Result<(), Fail> {
    let (_, lines) = explained(rt.alloc(), EXPLAINED[3].0, "")?;
    assert_eq!(rt; lines, 4);
    Ok(())
}

/// The 65th statement is the split statement where no earlier one is.
#[test]
fn the_65th_statement_splits(rt: HostRuntime) -> Result<(), Fail> {
    let alloc = rt.alloc();
    let mut text = String::from_str(alloc, "for x in 1:2\n")?;
    for i in 1..71 {
        write!(text, "let y{i} = x\n")?;
    }
    text.push_str("end\n")?;
    let (got, lines) = explained(alloc, text.as_str(), "")?;
    assert_eq!(rt; lines, 67);
    let wanted = "stage 64: Map, line 65\nstage 65: Map, line 66\nstage 66: ReduceIf, line 66\n";
    assert!(rt; got.as_slice().ends_with(wanted.as_bytes()));
    Ok(())
}
