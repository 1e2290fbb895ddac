//! Combining the answers of neighbouring stretches, and the fold on one thread.

ghost use Rattle.std.specs.Prelude.{◌≡◌, ◌≤◌, ◌+◌, ℕ, IfOk, Ok};
ghost use Rattle.splittable.specs.Places.{item_count};
ghost use Rattle.fold_seq.specs.Answers.{Combines, MergesInto, IsGoing, IsStop, IsFault, IsGoingAnd};
ghost use Rattle.fold_seq.specs.Standing.{MayCombine, CombinationStands};
ghost use Rattle.fold_seq.specs.declared.answers.Reduced.TheVariants.{Going};

use super::answers::Reduced;
use super::jobs::Job;
use no_memory::NoMemory;
use std::alloc::Global;

/// The answer of two neighbouring stretches together.
///
/// A left that stopped or faulted is the answer, and no memory is taken. Otherwise the states are merged and the right's kind,
/// place and line are kept; a right fault is the answer, and no memory is taken either.
pub fn combine<J: Job>(
    alloc: Global,
    job: &J,
    left: Reduced<J::State>,
    right: Reduced<J::State>,
) -> Result<Reduced<J::State>, NoMemory>
    requires { MayCombine (J.stands job.now) left right }
    ensures answer { IfOk result (Combines (J.merges job.now) left right) }
    ensures stands { IfOk result (CombinationStands (J.stands job.now) left right) }
    ensures stop { IsStop left → result ≡ Ok left }
    ensures fault { IsGoing left → IsFault right → result ≡ Ok right }
{
    match left {
        Reduced::Going(left) => combine_going(alloc, job, left, right),
        stop => Ok(stop),
    }
}

/// The answer of two neighbouring stretches, of which the left ran to its end.
fn combine_going<J: Job>(
    alloc: Global,
    job: &J,
    left: J::State,
    right: Reduced<J::State>,
) -> Result<Reduced<J::State>, NoMemory>
    requires { MayCombine (J.stands job.now) (Going left) right }
    ensures answer { IfOk result (MergesInto (J.merges job.now) left right) }
    ensures fault { IsFault right → result ≡ Ok right }
{
    match right {
        Reduced::Going(right) => Ok(Reduced::Going(job.merge(alloc, left, right)?)),
        Reduced::Stopped { at, line, state } => Ok(Reduced::Stopped {
            at,
            line,
            state: job.merge(alloc, left, state)?,
        }),
        Reduced::Faulted { at, line, kind } => Ok(Reduced::Faulted { at, line, kind }),
    }
}

/// Runs all items as one part; where there are none, the answer is the unit, and that they ran to their end.
pub fn fold_seq<J: Job>(alloc: Global, job: &J) -> Result<Reduced<J::State>, NoMemory>
    ensures stands { IfOk result (J.stands job.now 1 (item_count (J.lens job.now))) }
    ensures empty { item_count (J.lens job.now) ≡ 0 → IfOk result (IsGoingAnd (J.is_unit job.now)) }
{
    match job.shape().whole() {
        Some(whole) => job.run_part(alloc, &whole),
        None => Ok(Reduced::Going(job.unit(alloc)?)),
    }
}
