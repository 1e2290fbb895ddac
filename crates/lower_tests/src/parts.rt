//! Parts of loops against the plain loop over their items.

use crate::loops::{legal, table_of};
use crate::nodes::{NodeTexts, compare_nodes};
use crate::plain::{run_stretch, stretch_text};
use fold_seq::{Job, Reduced, fold_seq};
use loop_lower::{LoopEnd, LoopJob, LoopState, lower};
use loop_meaning::{ItemList, items_of};
use loop_syntax::Program;
use reducer_tower::RowState;
use splittable::Part;
use std::alloc::Global;
use std::process::Abort;
use std::test::Fail;

/// A loop, its data file, and the line of the stage to which its `break` is lowered.
static LOOPS: [(&str, &str, u32); 12] = [
    (
        "for x in 1:7\n@reduce l = list(x)\n@reduce s += x\n@reduce c = count()\nend\n",
        "",
        0,
    ),
    // a break before the split statement, in an `if` of its own and in another, a break by itself and behind the split statement
    (
        "for x in 1:6\nif x == 4\nbreak\nend\n@reduce l = list(x)\nend\n",
        "",
        2,
    ),
    (
        "for x in 1:6\nif x == 4\nlet y = x\nif y > 3\nbreak\nend\nelse\nlet z = x\nend\n@reduce l = list(x)\nend\n",
        "",
        2,
    ),
    (
        "for x in 1:4\nlet y = x\nbreak\n@reduce l = list(y)\nend\n",
        "",
        3,
    ),
    (
        "for x in 1:6\n@reduce l = list(x)\nlet y = x\nif y == 4\nbreak\nend\n@reduce c = count()\nend\n",
        "",
        2,
    ),
    // body runs that end early: by `continue`, before and behind an `@reduce`, and by `@keep`
    (
        "for x in 1:6\nif x mod 2 == 0\ncontinue\nend\n@reduce l = list(x)\nif x == 3\ncontinue\nend\n@reduce s += x\nend\n",
        "",
        0,
    ),
    (
        "for t in col(\"v\")\n@keep n = tryint(t)\n@reduce l = list(n)\nend\n",
        "v\n4\nx\n 7 \n5\n",
        0,
    ),
    // faults that stop the loop, before and behind an `@reduce`, and faults that are skipped
    (
        "for x in 1:6\nlet y = 12 div (x - 4)\n@reduce l = list(y)\nend\n",
        "",
        0,
    ),
    (
        "on fault skip\nfor x in 1:8\n@reduce c = count()\nlet y = 12 div ((x - 3) * (x - 7))\n@reduce s += y\nend\n",
        "",
        0,
    ),
    (
        "on fault skip\nfor x in 1:6, y in 1:x\n@reduce l = list((x, y))\nlet z = 6 div (x - y - 2)\nif x == 6\nbreak\nend\n\
@reduce s += z\nend\n",
        "",
        3,
    ),
    // inner heads, a scratch, an outer variable, the place, and a pattern of several names over a product
    (
        "var k = 3\nfor x in 1:4, y in 1:x, z in y:x\n@init b = 0\nb = x * k + place\nif y == 3\ncontinue\nend\n\
@reduce l = list((b, y, z))\nend\n",
        "",
        0,
    ),
    (
        "for (g, x) in product(col(\"v\"), 1:3)\nlet (a, b) = (x, g)\nif place == 5\nbreak\nend\n@reduce l = list((b, a))\nend\n",
        "v\np\nq\n",
        3,
    ),
];

/// A loop as a job, with what the plain loop takes.
#[derive(Drop)]
struct Case<'c, 'j> {
    job: &'c LoopJob<'j>,
    program: &'c Program,
    items: &'c ItemList,
    line: u32,
}

/// The texts of states, each behind `; `.
fn states_text(alloc: Global, state: &RowState) -> Result<String, Fail> {
    let mut out = String::new(alloc);
    for state in &state.states {
        let text = state.text(alloc)?;
        let text = String::from_utf8(text).map_err(|_| "not UTF-8")?;
        out.push_str("; ")?;
        out.push_str(text.as_str())?;
    }
    Ok(out)
}

/// The texts of what a part gathered.
fn state_text(alloc: Global, state: &LoopState) -> Result<String, Fail> {
    let row = states_text(alloc, &state.row)?;
    let skipped = state.skipped;
    Ok(format!(in alloc; "{row}; skipped {skipped}")?)
}

/// How a part ended, with its states.
fn answer_text(alloc: Global, answer: &Reduced<LoopState>) -> Result<String, Fail> {
    match answer {
        Reduced::Going(state) => {
            let states = state_text(alloc, state)?;
            Ok(format!(in alloc; "ran{states}")?)
        }
        Reduced::Stopped { at, line, state } => {
            let states = state_text(alloc, state)?;
            Ok(format!(in alloc; "stopped {at} {line}{states}")?)
        }
        Reduced::Faulted { at, line, kind } => Ok(format!(in alloc; "fault {at} {line} {kind}")?),
    }
}

/// The text of the plain loop over so many items from a place on.
fn plain_text(alloc: Global, case: &Case<'_, '_>, first: u64, len: u64) -> Result<String, Fail> {
    let start = (first as usize).wrapping_sub(1);
    let end = start.wrapping_add(len as usize);
    let Some(items) = case.items.as_slice().get(start..end) else {
        return Err(Fail::from("no such items"));
    };
    let stretch = run_stretch(alloc, case.program, items, first)?;
    stretch_text(alloc, case.job.row(), &stretch, case.line)
}

impl NodeTexts for Case<'_, '_> {
    ghost lens = { λ case. case.job.now.head.lens };

    /// What a part gives, and what the plain loop over its items gives, each in a line of its own.
    fn texts(
        &self,
        alloc: Global,
        part: &Part,
        got: &mut String,
        wanted: &mut String,
    ) -> Result<(), Fail> {
        let answer = self.job.run_part(alloc, part)?;
        let answer = answer_text(alloc, &answer)?;
        got.push_str(answer.as_str())?;
        got.push_str("\n")?;
        let plain = plain_text(alloc, self, part.first(), part.len())?;
        wanted.push_str(plain.as_str())?;
        wanted.push_str("\n")?;
        Ok(())
    }
}

/// Checks each part of a job: the whole, its halves, and so on.
fn check_job<H: Abort>(rt: &H, alloc: Global, case: &Case<'_, '_>) -> Result<(), Fail> {
    let Some(whole) = case.job.shape().whole() else {
        return Err(Fail::from("no items"));
    };
    let (mut got, mut wanted) = (String::new(alloc), String::new(alloc));
    compare_nodes(alloc, case, &whole, &mut got, &mut wanted)?;
    assert_eq!(rt; got.as_str(), wanted.as_str());
    Ok(())
}

/// Checks each part of a loop.
fn check_loop<H: Abort>(
    rt: &H,
    alloc: Global,
    text: &str,
    data: &str,
    line: u32,
) -> Result<(), Fail> {
    let legal = legal(alloc, text)?;
    let table = table_of(alloc, data)?;
    let program = legal.program();
    let items = items_of(alloc, program, &table)?;
    let job = lower(alloc, &legal, &table).map_err(|_| "not lowered")?;
    let case = Case {
        job: &job,
        program,
        items: &items,
        line,
    };
    check_job(rt, alloc, &case)
}

#[test]
fn parts_are_as_the_plain_loop(rt: HostRuntime) -> Result<(), Fail> {
    for (text, data, line) in &LOOPS {
        check_loop(&rt, rt.alloc(), text, data, *line)?;
    }
    Ok(())
}

/// A loop, its data file, and its results as a fold of the whole gives them, or its fault.
static ENDS: [(&str, &str, &str); 4] = [
    (
        "for x in 1:8\n@reduce s = sum(x) from 100\n@reduce l = list(x) from 0\nend\n",
        "",
        "; 136; [0, 1, 2, 3, 4, 5, 6, 7, 8]; skipped 0",
    ),
    (
        "for x in 2:1\n@reduce s = sum(x) from 7\nend\n",
        "",
        "; 7; skipped 0",
    ),
    (
        "for t in col(\"v\")\nlet n = int(t)\n@reduce s += n\nend\n",
        "v\n1\nx\n",
        "fault 2 2 2",
    ),
    (
        "on fault skip\nfor t in col(\"v\")\n@reduce s += int(t)\nend\n",
        "v\n4\nx\n7\n",
        "; 11; skipped 1",
    ),
];

/// The end of a loop that is folded whole.
fn end_of(alloc: Global, text: &str, data: &str) -> Result<String, Fail> {
    let program = legal(alloc, text)?;
    let table = table_of(alloc, data)?;
    let job = lower(alloc, &program, &table).map_err(|_| "not lowered")?;
    let answer = fold_seq(alloc, &job)?;
    match job.end(alloc, answer)? {
        LoopEnd::Done { state, skipped } => {
            let states = states_text(alloc, &state)?;
            Ok(format!(in alloc; "{states}; skipped {skipped}")?)
        }
        LoopEnd::Faulted { at, line, kind } => Ok(format!(in alloc; "fault {at} {line} {kind}")?),
    }
}

#[test]
fn a_fold_of_the_whole_ends(rt: HostRuntime) -> Result<(), Fail> {
    for (text, data, wanted) in &ENDS {
        let got = end_of(rt.alloc(), text, data)?;
        assert_eq!(rt; got.as_str(), *wanted, "{text}");
    }
    Ok(())
}
