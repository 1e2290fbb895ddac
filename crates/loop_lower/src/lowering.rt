//! Lowering: from a legal program and a table to a job.

ghost use Rattle.std.specs.Prelude.{◌≡◌, ◌≢◌, Ok, Err, IfOk, MatchResult};
ghost use Rattle.loop_items.specs.Heads.{opened};
ghost use Rattle.loop_items.specs.declared.refusal.HeadRefusal.TheVariants as refused;
ghost use Rattle.loop_stages.specs.Lowering.{lowered};

use crate::LoopJob;
use column_input::Table;
use legality_check::LegalProgram;
use loop_chain::stages_of;
use loop_data::Many;
use loop_grammar::ProgramTree;
use loop_items::{HeadItems, HeadRefusal};
use loop_meaning::start_store;
use no_memory::NoMemory;
use program_rows::row_of;
use std::alloc::Global;
use transducer_kit::Chain;

/// Why a legal program isn't lowered over a table: its head is refused.
pub type LowerRefusal = HeadRefusal;

/// The chain to which a program is lowered.
fn chain_of(alloc: Global, program: &ProgramTree) -> Result<Chain, NoMemory>
    ensures { IfOk result (λ chain. chain.stages ≡ lowered program.now) }
{
    let stages = Many::from_vec(stages_of(alloc, program)?);
    Ok(Chain { stages })
}

/// The loop of a legal program over a table, as a job.
///
/// # Errors
///
/// The first refusal of the program's head: its ranges and columns are tried from left to right, and then their product. Or
/// [`LowerRefusal::NoMemory`].
pub fn lower<'a>(
    alloc: Global,
    program: &'a LegalProgram,
    table: &'a Table,
) -> Result<LoopJob<'a>, LowerRefusal>
    ensures program { IfOk result (λ job. job.program.now ≡ program.now) }
    ensures head { MatchResult result (λ job. opened program.now table.now ≡ Ok job.head)
        (λ refusal. refusal ≢ refused.NoMemory → opened program.now table.now ≡ Err refusal) }
{
    let head = HeadItems::open(alloc, program.program(), table)?;
    // There are as many items as the axes say, and not too many.
    head.count();
    let row = row_of(alloc, program)?;
    let chain = chain_of(alloc, program.program().tree())?;
    let start = start_store(alloc, program.program())?;
    Ok(LoopJob {
        program,
        head,
        row,
        chain,
        start,
    })
}
