//! The loop as a job.

ghost use Rattle.std.specs.Prelude.{◌≡◌, IfOk, length};
ghost use Rattle.std.specs.Coded.{Coded-set, coded_list};
ghost use Rattle.reducer_tower.specs.contracts.named.Named as named;
ghost use Rattle.chain_stages.specs.contracts.stages.Stage as stage;
ghost use Rattle.loop_meaning.specs.Stores.{start_store};
ghost use Rattle.splittable.specs.Places.{item_count};
ghost use Rattle.loop_lower.specs.Jobs.{AreHeadItems};
ghost use Rattle.program_rows.specs.Rows.{row_of};
ghost use Rattle.loop_stages.specs.Lowering.{lowered};
ghost use Rattle.loop_standing.specs.Standing.{IsFoldable, IsUnit, Merges, StretchStands};
ghost use Rattle.loop_chain.specs.Explain.{explain_lines, joined, lines_in};

use fold_seq::{Job, Reduced};
use legality_check::LegalProgram;
use loop_chain::{explain_lines, joined};
use loop_items::HeadItems;
use loop_standing::LoopState;
use loop_values::Env;
use no_memory::NoMemory;
use reducer_laws::Reducer;
use reducer_tower::Row;
use splittable::{Part, Shape};
use std::alloc::Global;
use transducer_kit::Chain;

/// A legal loop over the items of its head, as work that can be done in parts. What is known of its fields are ghost fields, so
/// that whoever makes a job proves it, and the laws of a job read it there.
#[derive(Drop)]
pub struct LoopJob<'a> {
    pub program: &'a LegalProgram,
    pub head: HeadItems<'a>,
    pub row: Row,
    pub chain: Chain,
    /// The store in which the loop begins.
    pub start: Env,
    pub ghost known: { IsFoldable program.now head.items },
    pub ghost of_head: { ∥ AreHeadItems program.now head.items ∥₁ },
    pub ghost counted: { item_count head.lens ≡ length head.items },
    pub ghost row_is: { row.towers.items ≡ row_of program.now } by { Coded-set (coded_list named.the_row.coded) _ _ },
    pub ghost stages_are: { chain.stages ≡ lowered program.now } by { Coded-set (coded_list stage.the_row.coded) _ _ },
    pub ghost start_is: { start ≡ start_store program.now },
}

impl<'a> LoopJob<'a> {
    /// The program's reducers, in the order of their first `@reduce` lines. It takes no memory.
    pub fn row(&self) -> &Row
        ensures same { result.now ≡ self.now.row }
        ensures reducers { result.now.towers.items ≡ row_of self.now.program.now }
    {
        &self.row
    }

    /// The lines that tell how the loop is folded, each with its LF: how many items there are, `on fault skip` where the program
    /// has it, its stages and its reducers. A line is one line also where a start value in it holds an LF. Refused only for want
    /// of memory.
    pub fn explain_lines(&self, alloc: Global) -> Result<Vec<Vec<u8>>, NoMemory>
        ensures { IfOk result (λ lines. lines_in lines.items
            ≡ explain_lines self.now.program.now (length self.now.head.items)) }
    {
        let count = self.head.count();
        let skips = self.program.program().skips_faults();
        let stages = self.chain.stages.as_slice();
        explain_lines(alloc, count, skips, stages, self.row.towers.as_slice())
    }

    /// These lines as one text. Refused only for want of memory.
    pub fn explain(&self, alloc: Global) -> Result<Vec<u8>, NoMemory>
        ensures { IfOk result (λ text. text.items
            ≡ joined (explain_lines self.now.program.now (length self.now.head.items))) }
    {
        let lines = self.explain_lines(alloc)?;
        joined(alloc, lines.as_slice())
    }
}

impl<'a> Job for LoopJob<'a> {
    type State = LoopState;

    ghost lens = { λ job. job.head.lens };

    ghost stands = { λ job. StretchStands job.program.now job.row.towers.items job.head.items };

    ghost is_unit = { λ job. IsUnit job.row.towers.items };

    ghost merges = { λ job. Merges job.row.towers.items };

    fn shape(&self) -> Shape {
        self.head.shape()
    }

    fn run_part(&self, alloc: Global, part: &Part) -> Result<Reduced<LoopState>, NoMemory> {
        let mut walk = self.head.walk(part);
        self.run_items(alloc, &mut walk, part.first(), part.len())
    }

    fn unit(&self, alloc: Global) -> Result<LoopState, NoMemory> {
        let row = self.row.unit(alloc)?;
        Ok(LoopState { row, skipped: 0 })
    }

    fn merge(
        &self,
        alloc: Global,
        left: LoopState,
        right: LoopState,
    ) -> Result<LoopState, NoMemory> {
        let skipped = left.skipped + right.skipped;
        let row = self.row.merge(alloc, left.row, right.row)?;
        Ok(LoopState { row, skipped })
    }

    ghost use Rattle.loop_standing.proofs.MergeLemmas.{merges_stand};
    ghost use Rattle.loop_standing.proofs.StandLemmas.{ends_are_alike, stops_lie, stops_stand, units_stand};

    ghost unit_stands = { λ job. units_stand job.program.now job.row.towers.items job.head.items };

    ghost merge_stands = { λ job. merges_stand job.program.now job.row.towers.items job.head.items job.known.legal };

    ghost stop_stands = { λ job. stops_stand job.program.now job.row.towers.items job.head.items };

    ghost stop_lies = { λ job. stops_lie job.program.now job.row.towers.items job.head.items };

    ghost ends_alike = { λ job. ends_are_alike job.program.now job.row.towers.items job.head.items };
}
