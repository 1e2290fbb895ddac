//! The output of a call: its status and its lines, from the words and what files hold.

ghost use Rattle.std.specs.Prelude.{◌≡◌, ◌+◌, ◌∷◌, [], Err, IfOk, IfErr, IfSome, IsOk, length, string_bytes};
ghost use Rattle.edge_io.specs.Reading.{Held};
ghost use Rattle.program_words.specs.Words.{texts};
ghost use Rattle.program_words.specs.Views.{request_seen};
ghost use Rattle.program_words.specs.declared.command.Call.TheVariants.{Direct as Here};
ghost use Rattle.loop_items.specs.Refusals.{first_head_refusal};
ghost use Rattle.floop_run.specs.Requests.{request_in, data_names, most_reads};
ghost use Rattle.floop_run.specs.Answers.{IsAnswer, IsAskedAnswer, command_answer, head_answer, run_answer};
ghost use Rattle.floop_run.specs.Written.{IsWritten, IsWrittenOf};
ghost use Rattle.floop_run.specs.TopCall.{IsAnswered, refusal_written};
ghost use Rattle.floop_run.specs.Outputs.{MakesOutput, written_in};

use crate::Status;
use crate::accepted::{accepted_output, explained_output};
use crate::found::{Found, found_for};
use crate::results::run_output;
use column_input::Table;
use edge_io::{Files, NoMemory};
use executor_folds::fold_by;
use legality_check::LegalProgram;
use loop_items::HeadRefusal;
use loop_lower::{LoopJob, lower};
use piece_ledger::Gate;
use program_words::{Call, Command, Request, request_of};
use std::alloc::{AllocError, Global};
use std::fmt::Display;
use std::thread::Threads;

/// A status with the lines that go with it, each with its LF.
#[derive(Drop)]
pub struct Output {
    /// The call's status, where the lines are written.
    pub status: Status,
    /// The lines in order, each with its LF.
    pub lines: Vec<Vec<u8>>,
}

/// Why there is no output.
#[derive(Clone, Copy, Debug, PartialEq, Eq)]
pub enum OutputStop {
    /// A file isn't held, or a read failed.
    ReadFault,
    /// Memory ran out.
    NoMemory,
}

impl From<AllocError> for OutputStop {
    ghost use Rattle.std.specs.Prelude.{◌≡◌};
    ghost use Rattle.floop_run.specs.declared.answer.OutputStop.TheVariants.{NoMemory};

    ghost from_gives = { λ _ e. e ≡ NoMemory };

    fn from(_error: AllocError) -> OutputStop {
        OutputStop::NoMemory
    }
}

impl From<NoMemory> for OutputStop {
    ghost use Rattle.std.specs.Prelude.{◌≡◌};
    ghost use Rattle.floop_run.specs.declared.answer.OutputStop.TheVariants.{NoMemory};

    ghost from_gives = { λ _ e. e ≡ NoMemory };

    fn from(_error: NoMemory) -> OutputStop {
        OutputStop::NoMemory
    }
}

/// The output of a direct call with these words.
pub fn output_for<R: Threads + Sync, F: Files, G: Gate + Sync>(
    rt: &R,
    alloc: Global,
    words: &[String],
    files: &mut F,
    gate: &G,
) -> Result<Output, OutputStop>
    // Over files that tell, an output is what may be written for the answer of these words.
    ensures made { MakesOutput (IsAnswer Here (texts words.now)) (IsWritten Here (texts words.now))
        (most_reads (request_in Here (texts words.now))) result
        (F.held files.old) (F.held files.new) (F.reads files.old) (F.reads files.new)
        (F.faults files.old) (F.faults files.new) }

    // Words that are no request have their refusal, whatever files tell, and no file is read.
    ensures words { IfErr (request_in Here (texts words.now)) (λ text.
        IfOk result (λ o. written_in o ≡ refusal_written text)) }
    ensures words_unread { IfErr (request_in Here (texts words.now)) (λ text.
        F.reads files.new ≡ F.reads files.old) }
    ensures words_taken { result ≡ Err OutputStop.ReadFault →
        IsOk (request_in Here (texts words.now)) }
{
    match request_of(Call::Direct, words) {
        Ok(request) => asked_output(rt, alloc, &request, files, gate),
        Err(why) => Ok(refusal_of(alloc, &why)?),
    }
}

/// The output for a request.
fn asked_output<R: Threads + Sync, F: Files, G: Gate + Sync>(
    rt: &R,
    alloc: Global,
    request: &Request<'_>,
    files: &mut F,
    gate: &G,
) -> Result<Output, OutputStop>
    ensures { MakesOutput (IsAskedAnswer (request_seen request.now))
        (IsWrittenOf (request_seen request.now)) (1 + length (data_names (request_seen request.now))) result
        (F.held files.old) (F.held files.new) (F.reads files.old) (F.reads files.new)
        (F.faults files.old) (F.faults files.new) }
{
    match found_for(alloc, request, files)? {
        Found::Told(output) => Ok(output),
        Found::Loop { legal, table } => {
            let output = table_output(rt, alloc, request, &legal, &table, gate)?;
            Ok(output)
        }
    }
}

/// The refusal of what has a text.
pub(crate) fn refusal_of<W: Display>(alloc: Global, why: &W) -> Result<Output, NoMemory>
    ensures answer { IfSome (W.output why.now) (λ text.
        IfOk result (λ o. written_in o ≡ refusal_written text)) }
    ensures answered { IfOk result (λ o. IsAnswered o.status) }
{
    let text = format!(in alloc; "{why}")?;
    refusal(alloc, text.as_str())
}

/// A refusal is one line.
pub(crate) fn refusal(alloc: Global, text: &str) -> Result<Output, NoMemory>
    ensures answer { IfOk result (λ o. written_in o ≡ refusal_written text.now) }
    ensures answered { IfOk result (λ o. IsAnswered o.status) }
{
    let line = format!(in alloc; "{text}\n")?;
    one_line(alloc, Status::Refused, line)
}

/// An output of one line.
pub(crate) fn one_line(alloc: Global, status: Status, line: String) -> Result<Output, NoMemory>
    ensures { IfOk result (λ o. written_in o
        ≡ record { status = status; lines = string_bytes line ∷ [] }) }
{
    let lines = vec![in alloc; line.into_bytes()]?;
    Ok(Output { status, lines })
}

/// The output for a legal program over its table, by its first head. No command reads a further file.
fn table_output<R: Threads + Sync, G: Gate + Sync>(
    rt: &R,
    alloc: Global,
    request: &Request<'_>,
    legal: &LegalProgram,
    table: &Table,
    gate: &G,
) -> Result<Output, NoMemory>
    ensures answer { (held : Held) → IfOk result (λ o. IsWrittenOf (request_seen request.now)
        (head_answer (first_head_refusal legal.now table.now) (request_seen request.now) held legal.now table.now)
        (written_in o)) }
    ensures answered { IfOk result (λ o. IsAnswered o.status) }
{
    match lower(alloc, legal, table) {
        Ok(job) => command_output(rt, alloc, request, &job, gate),
        Err(HeadRefusal::NoMemory) => Err(NoMemory),
        Err(why) => refusal_of(alloc, &why),
    }
}

/// What the command writes of a loop that isn't refused.
fn command_output<R: Threads + Sync, G: Gate + Sync>(
    rt: &R,
    alloc: Global,
    request: &Request<'_>,
    job: &LoopJob<'_>,
    gate: &G,
) -> Result<Output, NoMemory>
    ensures answer { (held : Held) → IfOk result (λ o. IsWrittenOf (request_seen request.now)
        (command_answer request.now.command (request_seen request.now) held job.now.program.now job.now.head)
        (written_in o)) }
    ensures answered { IfOk result (λ o. IsAnswered o.status) }
{
    match request.command {
        Command::Check => accepted_output(alloc, job),
        Command::Explain => explained_output(alloc, job),
        Command::Run => folded_output(rt, alloc, request, job, gate),
    }
}

/// What a loop gives, folded by the executor that the request asks for.
fn folded_output<R: Threads + Sync, G: Gate + Sync>(
    rt: &R,
    alloc: Global,
    request: &Request<'_>,
    job: &LoopJob<'_>,
    gate: &G,
) -> Result<Output, NoMemory>
    ensures answer { IfOk result (λ o. IsWrittenOf (request_seen request.now)
        (run_answer job.now.program.now job.now.head) (written_in o)) }
    ensures answered { IfOk result (λ o. IsAnswered o.status) }
{
    let executor = request.executor();
    let base = request.base();
    let workers = request.workers();
    let (answer, tally) = fold_by(rt, alloc, job, executor, base, workers, gate)?;
    run_output(alloc, request, job, answer, tally)
}
