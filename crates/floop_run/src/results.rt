//! What `run` writes: the results, or the fault.

ghost use Rattle.std.specs.Prelude.{◌≡◌, ◌++◌, List, IfOk, OnOk, map, string_bytes};
ghost use Rattle.loop_grammar.specs.declared.tree.ProgramTree.{ProgramTree};
ghost use Rattle.loop_grammar.specs.SkippedFaults.{skips_faults};
ghost use Rattle.loop_meaning.specs.declared.runs.Run.{Run};
ghost use Rattle.loop_meaning.specs.declared.steps.Pair.{Pair};
ghost use Rattle.splittable.specs.Places.{item_count};
ghost use Rattle.fold_seq.specs.Answers.{stop_place_of};
ghost use Rattle.piece_ledger.specs.Folded.{IsReported};
ghost use Rattle.loop_standing.specs.Standing.{StretchStands};
ghost use Rattle.program_words.specs.Values.{wants_report, workers_of};
ghost use Rattle.program_words.specs.Views.{request_seen};
ghost use Rattle.floop_run.specs.Results.{fault_text, fault_line, result_line, results_lines, skipped_lines};
ghost use Rattle.floop_run.specs.Folds.{least_for, report_line, report_lines};
ghost use Rattle.floop_run.specs.Rows.{AreResults, StandForSome, IsSomeEnd, IsRowEnd};
ghost use Rattle.floop_run.specs.Answers.{run_answer};
ghost use Rattle.floop_run.specs.Written.{IsWrittenOf, ended_written};
ghost use Rattle.floop_run.specs.TopCall.{IsAnswered};
ghost use Rattle.floop_run.specs.Outputs.{written_in, lines_in};

use crate::Status;
use crate::answer::{Output, one_line};
use edge_io::NoMemory;
use fold_seq::Reduced;
use legality_check::LegalProgram;
use loop_data::PrintLine;
use loop_lower::{LoopEnd, LoopJob, LoopState};
use loop_syntax::Program;
use piece_ledger::Tally;
use program_words::Request;
use reducer_tower::{Row, RowState, RowStop};
use std::alloc::{AllocError, Global};

/// What a fault of this kind is called.
fn fault_text(kind: u8) -> &'static str
    ensures { result.now ≡ fault_text kind }
{
    match kind {
        1 => "division error",
        2 => "not a number",
        3 => "too many inner items",
        4 => "text too long",
        _ => "step is zero",
    }
}

/// The line of a fault.
fn fault_line(alloc: Global, at: u64, line: u32, kind: u8) -> Result<String, AllocError>
    ensures { IfOk result (λ text. string_bytes text ≡ fault_line at line kind) }
{
    let text = fault_text(kind);
    format!(in alloc; "fault: item {at}, line {line}: {text}\n")
}

/// The line of a `print` line: the result of the reducer of that name.
fn result_line(
    alloc: Global,
    row: &Row,
    state: &RowState,
    print: &PrintLine,
) -> Result<Vec<u8>, NoMemory>
    requires { StandForSome row.now state.now }
    ensures { IfOk result (λ line. (program : ProgramTree) (emitted : List Pair) →
        AreResults program row.now state.now emitted → line.items ≡ result_line program emitted print.now) }
{
    match row.text(alloc, state, print.name.as_str()) {
        Ok(text) => {
            let mut line = text;
            line.push(b'\n')?;
            Ok(line)
        }
        Err(RowStop::NoSuchName) => Ok(vec![in alloc; b'\n']?),
        Err(RowStop::NoMemory) => Err(NoMemory),
    }
}

/// A line for each `print` line, in order.
fn result_lines(
    alloc: Global,
    row: &Row,
    state: &RowState,
    prints: &[PrintLine],
) -> Result<Vec<Vec<u8>>, NoMemory>
    requires { StandForSome row.now state.now }
    ensures { IfOk result (λ lines. (program : ProgramTree) (emitted : List Pair) →
        AreResults program row.now state.now emitted → lines_in lines.items ≡ map (result_line program emitted) prints.now) }
{
    let mut lines = Vec::with_capacity(alloc, prints.len())?;
    for print in prints {
        lines.push(result_line(alloc, row, state, print)?)?;
    }
    Ok(lines)
}

/// One line more, in a program that skips faults: how many it skipped.
fn add_skipped(
    alloc: Global,
    program: &Program,
    skipped: u64,
    lines: &mut Vec<Vec<u8>>,
) -> Result<(), NoMemory>
    ensures { OnOk result (lines_in lines.new.items
        ≡ lines_in lines.old.items ++ skipped_lines (skips_faults program.now) skipped) }
{
    if !program.skips_faults() {
        return Ok(());
    }
    let line = format!(in alloc; "faults: {skipped}\n")?;
    lines.push(line.into_bytes())?;
    Ok(())
}

/// The results, and in a program that skips faults how many it skipped.
fn done_output(
    alloc: Global,
    legal: &LegalProgram,
    row: &Row,
    state: &RowState,
    skipped: u64,
) -> Result<Output, NoMemory>
    requires { StandForSome row.now state.now }
    ensures answer { IfOk result (λ o. (run : Run) →
        AreResults legal.now row.now state.now run.emitted → skipped ≡ run.skipped →
        written_in o ≡ record { status = Status.Done; lines = results_lines legal.now run }) }
    ensures answered { IfOk result (λ o. IsAnswered o.status) }
{
    let program = legal.program();
    let mut lines = result_lines(alloc, row, state, program.prints().as_slice())?;
    add_skipped(alloc, program, skipped, &mut lines)?;
    Ok(Output {
        status: Status::Done,
        lines,
    })
}

/// The output of a run that ended so: its results, or its fault.
fn end_output(
    alloc: Global,
    legal: &LegalProgram,
    row: &Row,
    end: &LoopEnd,
) -> Result<Output, NoMemory>
    requires { IsSomeEnd row.now end.now }
    ensures answer { IfOk result (λ o. (run : Run) → IsRowEnd legal.now row.now run end.now →
        written_in o ≡ ended_written legal.now run) }
    ensures answered { IfOk result (λ o. IsAnswered o.status) }
{
    match end {
        LoopEnd::Done { state, skipped } => done_output(alloc, legal, row, state, *skipped),
        LoopEnd::Faulted { at, line, kind } => {
            let line = fault_line(alloc, *at, *line, *kind)?;
            one_line(alloc, Status::LoopFault, line)
        }
    }
}

/// The line of a report.
fn report_line(alloc: Global, tally: Tally) -> Result<String, AllocError>
    ensures { IfOk result (λ text. string_bytes text ≡ report_line tally) }
{
    let ran = tally.ran;
    let skipped = tally.items_skipped;
    format!(in alloc; "ran {ran}, items skipped {skipped}\n")
}

/// One line more, where the request wants a report.
fn add_report(
    alloc: Global,
    request: &Request<'_>,
    tally: Tally,
    lines: &mut Vec<Vec<u8>>,
) -> Result<(), NoMemory>
    ensures { OnOk result (lines_in lines.new.items
        ≡ lines_in lines.old.items
        ++ report_lines (wants_report (request_seen request.now)) tally) }
{
    if !request.wants_report() {
        return Ok(());
    }
    let line = report_line(alloc, tally)?;
    lines.push(line.into_bytes())?;
    Ok(())
}

/// The output of a run, of what a fold of the whole gave, with the report of it where the request wants one.
pub(crate) fn run_output(
    alloc: Global,
    request: &Request<'_>,
    job: &LoopJob<'_>,
    answer: Reduced<LoopState>,
    tally: Tally,
) -> Result<Output, NoMemory>
    requires stands { StretchStands job.now.program.now job.now.row.towers.items job.now.head.items 1
        (item_count job.now.head.lens) answer }
    requires tally { IsReported job.now.head.lens (least_for (request_seen request.now) job.now.head.lens)
        (workers_of (request_seen request.now)) (stop_place_of answer) tally }
    ensures answer { IfOk result (λ o. IsWrittenOf (request_seen request.now)
        (run_answer job.now.program.now job.now.head) (written_in o)) }
    ensures answered { IfOk result (λ o. IsAnswered o.status) }
{
    let end = job.end(alloc, answer)?;
    let mut output = end_output(alloc, job.program, job.row(), &end)?;
    add_report(alloc, request, tally, &mut output.lines)?;
    Ok(output)
}
