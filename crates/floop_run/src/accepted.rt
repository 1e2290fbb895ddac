//! What `check` and `explain` write.

ghost use Rattle.std.specs.Prelude.{◌≡◌, [], ◌∷◌, IfOk, length};
ghost use Rattle.loop_chain.specs.Explain.{explain_lines};
ghost use Rattle.floop_run.specs.Results.{accepted_line};
ghost use Rattle.floop_run.specs.TopCall.{IsAnswered};
ghost use Rattle.floop_run.specs.Outputs.{written_in};

use crate::Status;
use crate::answer::{Output, one_line};
use edge_io::NoMemory;
use loop_lower::LoopJob;
use std::alloc::Global;

/// The line of a loop that is accepted: how many items it has, and how many reducers, by their names.
pub(crate) fn accepted_output(alloc: Global, job: &LoopJob<'_>) -> Result<Output, NoMemory>
    ensures answer { IfOk result (λ o. written_in o ≡ record {
      status = Status.Done;
      lines = accepted_line job.now.program.now job.now.head.items ∷ [];
    }) }
    ensures answered { IfOk result (λ o. IsAnswered o.status) }
{
    let items = job.head.count();
    let reducers = job.row().towers.len();
    let line = format!(in alloc; "accepted: {items} items, {reducers} reducers\n")?;
    one_line(alloc, Status::Done, line)
}

/// The lines that tell how a loop is folded: its items, the stages of its chain, its reducers.
pub(crate) fn explained_output(alloc: Global, job: &LoopJob<'_>) -> Result<Output, NoMemory>
    ensures answer { IfOk result (λ o. written_in o ≡ record {
      status = Status.Done;
      lines = explain_lines job.now.program.now (length job.now.head.items);
    }) }
    ensures answered { IfOk result (λ o. IsAnswered o.status) }
{
    let lines = job.explain_lines(alloc)?;
    Ok(Output {
        status: Status::Done,
        lines,
    })
}
