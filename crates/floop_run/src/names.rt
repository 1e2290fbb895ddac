//! The files that a request names.

ghost use Rattle.std.specs.Prelude.{◌≡◌, IfOk};
ghost use Rattle.program_words.specs.Views.{request_seen};
ghost use Rattle.data_files.specs.Tables.{names_seen};
ghost use Rattle.floop_run.specs.Requests.{data_names, loop_file};

use program_words::{Request, Setting};
use std::alloc::{AllocError, Global};

/// The name of the loop file, which each request gives.
pub(crate) fn loop_file<'a>(request: &Request<'a>) -> &'a str
    ensures { result.now ≡ loop_file (request_seen request.now) }
{
    request.value(Setting::Loop).unwrap_or("")
}

/// The names of the data files, in order: none where the setting isn't given.
pub(crate) fn data_names<'a>(
    alloc: Global,
    request: &Request<'a>,
) -> Result<Vec<&'a str>, AllocError>
    ensures { IfOk result (λ names. names_seen names.items ≡ data_names (request_seen request.now)) }
{
    match request.value(Setting::Data) {
        Some(value) => value.split(',').collect(alloc),
        None => Ok(Vec::new(alloc)),
    }
}
