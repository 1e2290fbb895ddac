//! What words and files come to: a text that is told, or a loop that is to be run over its table.

ghost use Rattle.std.specs.Prelude.{◌≡◌, ◌+◌, ◌≤◌, IfOk, length};
ghost use Rattle.program_words.specs.Views.{request_seen};
ghost use Rattle.loop_syntax.specs.Programs.{loop_file_limit};
ghost use Rattle.data_files.specs.Tables.{data_table};
ghost use Rattle.floop_run.specs.Requests.{data_names};
ghost use Rattle.floop_run.specs.Answers.{IsAskedAnswer, IsTextAnswer, program_answer, table_answer, too_long_text};
ghost use Rattle.floop_run.specs.TopCall.{IsAnswered, refusal_written};
ghost use Rattle.floop_run.specs.Outputs.{MakesFound, written_in};

use crate::answer::{Output, OutputStop, refusal, refusal_of};
use crate::names::{data_names, loop_file};
use column_input::Table;
use data_files::{DataStop, read_data};
use edge_io::{Files, NoMemory, ReadStop};
use legality_check::{LegalProgram, LegalRefusal, check_program};
use loop_syntax::{LOOP_FILE_LIMIT, Program, SyntaxRefusal, read_program};
use program_words::Request;
use std::alloc::Global;

/// What a request's files come to.
#[derive(Drop)]
pub enum Found {
    /// There is nothing to run: this is written.
    Told(Output),
    /// A legal program, and the table over which it is to be run.
    Loop { legal: LegalProgram, table: Table },
}

/// What a request's files come to, by its loop file.
pub(crate) fn found_for<F: Files>(
    alloc: Global,
    request: &Request<'_>,
    files: &mut F,
) -> Result<Found, OutputStop>
    ensures { MakesFound (request_seen request.now) (IsAskedAnswer (request_seen request.now))
        (1 + length (data_names (request_seen request.now))) result
        (F.held files.old) (F.held files.new) (F.reads files.old) (F.reads files.new)
        (F.faults files.old) (F.faults files.new) }
{
    let name = loop_file(request);
    let mut bytes = Vec::new(alloc);
    match files.read_named(alloc, name, LOOP_FILE_LIMIT as u64, &mut bytes) {
        Ok(()) => text_found(alloc, request, &bytes, files),
        Err(ReadStop::TooLong) => Ok(Found::Told(too_long(alloc)?)),
        Err(ReadStop::NoMemory) => Err(OutputStop::NoMemory),
        Err(ReadStop::NotHeld) => Err(OutputStop::ReadFault),
        Err(ReadStop::Failed) => Err(OutputStop::ReadFault),
    }
}

/// The refusal of a loop file that is too long.
fn too_long(alloc: Global) -> Result<Output, NoMemory>
    ensures answer { IfOk result (λ o. written_in o ≡ refusal_written too_long_text) }
    ensures answered { IfOk result (λ o. IsAnswered o.status) }
{
    let text = format!(in alloc; "loop file: over {LOOP_FILE_LIMIT} bytes")?;
    refusal(alloc, text.as_str())
}

/// What follows from the bytes of the loop file.
fn text_found<F: Files>(
    alloc: Global,
    request: &Request<'_>,
    bytes: &[u8],
    files: &mut F,
) -> Result<Found, OutputStop>
    requires { length bytes.now ≤ loop_file_limit }
    ensures { MakesFound (request_seen request.now)
        (λ held answer. IsTextAnswer (request_seen request.now) held bytes.now answer)
        (length (data_names (request_seen request.now))) result
        (F.held files.old) (F.held files.new) (F.reads files.old) (F.reads files.new)
        (F.faults files.old) (F.faults files.new) }
{
    match read_program(alloc, bytes) {
        Ok(program) => program_found(alloc, request, program, files),
        Err(SyntaxRefusal::NoMemory) => Err(OutputStop::NoMemory),
        Err(why) => Ok(Found::Told(refusal_of(alloc, &why)?)),
    }
}

/// What follows from a program.
fn program_found<F: Files>(
    alloc: Global,
    request: &Request<'_>,
    program: Program,
    files: &mut F,
) -> Result<Found, OutputStop>
    ensures { MakesFound (request_seen request.now)
        (λ held answer. answer ≡ program_answer (request_seen request.now) held program)
        (length (data_names (request_seen request.now))) result
        (F.held files.old) (F.held files.new) (F.reads files.old) (F.reads files.new)
        (F.faults files.old) (F.faults files.new) }
{
    match check_program(alloc, program) {
        Ok(legal) => legal_found(alloc, request, legal, files),
        Err(LegalRefusal::NoMemory) => Err(OutputStop::NoMemory),
        Err(LegalRefusal::Illegal(offence)) => Ok(Found::Told(refusal_of(alloc, &offence)?)),
    }
}

/// What follows from a legal program, by its data files.
fn legal_found<F: Files>(
    alloc: Global,
    request: &Request<'_>,
    legal: LegalProgram,
    files: &mut F,
) -> Result<Found, OutputStop>
    ensures { MakesFound (request_seen request.now) (λ held answer. answer
        ≡ table_answer (data_table (data_names (request_seen request.now)) held)
        (request_seen request.now) held legal)
        (length (data_names (request_seen request.now))) result
        (F.held files.old) (F.held files.new) (F.reads files.old) (F.reads files.new)
        (F.faults files.old) (F.faults files.new) }
{
    let names = data_names(alloc, request)?;
    match read_data(alloc, &names, files) {
        Ok(table) => Ok(Found::Loop { legal, table }),
        Err(DataStop::NoMemory) => Err(OutputStop::NoMemory),
        Err(DataStop::NotHeld) => Err(OutputStop::ReadFault),
        Err(DataStop::Failed) => Err(OutputStop::ReadFault),
        Err(DataStop::Refused(why)) => Ok(Found::Told(refusal_of(alloc, &why)?)),
    }
}
