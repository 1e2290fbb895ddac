ghost use Rattle.std.specs.Prelude.{ℕ, ◌≤◌, IfOk};
ghost use Rattle.number_ranges.specs.Ranges.{most_items};
ghost use Rattle.splittable.specs.Places.{item_count};
ghost use Rattle.executor_folds.specs.Leaves.{IsReportedBy};

use fold_halves::fold_halves;
use fold_seq::{Job, Reduced, fold_seq};
use fold_steal::fold_steal;
use no_memory::NoMemory;
use piece_ledger::{Gate, Tally};
use program_words::Executor;
use std::alloc::Global;
use std::thread::Threads;

/// Folds a job by an executor: what all its items give, and a report of the parts.
///
/// `base` is the length up to which no part is halved, unless there are over 16,384 times as many items; `workers` is how many
/// threads may run parts at once. `seq` runs the whole as one part on the caller's thread and asks for neither; `gate` is called
/// before each leaf but that one.
pub fn fold_by<R: Threads + Sync, J: Job + Sync, G: Gate + Sync>(
    rt: &R,
    alloc: Global,
    job: &J,
    executor: Executor,
    base: u64,
    workers: u32,
    gate: &G,
) -> Result<(Reduced<J::State>, Tally), NoMemory>
    requires base { (1 ≤ base) × (base ≤ most_items) }
    requires workers { (1 ≤ workers) × (workers ≤ 32) }
    ensures stands { IfOk result (λ r. J.stands job.now 1 (item_count (J.lens job.now)) r.0) }
    ensures tally { IfOk result (IsReportedBy executor base (J.lens job.now) workers) }
{
    match executor {
        Executor::Seq => fold_whole(alloc, job),
        Executor::Halves => fold_halves(rt, alloc, job, base, workers, gate),
        Executor::Steal => fold_steal(rt, alloc, job, base, workers, gate),
    }
}

/// Runs the whole as one part, of which an empty shape has none.
fn fold_whole<J: Job>(alloc: Global, job: &J) -> Result<(Reduced<J::State>, Tally), NoMemory>
    ensures stands { IfOk result (λ r. J.stands job.now 1 (item_count (J.lens job.now)) r.0) }
    ensures tally { (base workers : ℕ) → IfOk result (IsReportedBy Executor.Seq base (J.lens job.now) workers) }
{
    let answer = fold_seq(alloc, job)?;
    let ran = job.shape().count().min(1);
    Ok((
        answer,
        Tally {
            ran,
            items_skipped: 0,
        },
    ))
}
