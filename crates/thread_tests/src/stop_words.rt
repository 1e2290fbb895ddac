//! A stop word under its seats: who reports what in which order, the least place is left.

ghost use Rattle.std.specs.Prelude.{◌≡◌, ◌<◌, ◌≤◌, ◌+◌, [], ◌∷◌, ◌++◌, IfOk};
ghost use Rattle.std.specs.Thread.{IsSync};
ghost use Rattle.stop_word.specs.Numbers.{no_stop, whole_weight, least_of};
ghost use Rattle.thread_tests.specs.Seats.{SameSeat};

use no_memory::NoMemory;
use std::alloc::Global;
use std::thread::{Threads, join};
use stop_word::{StopSeat, StopWord};

#[cfg(test)]
mod tests;

/// How many places a seat reports in [`report_downwards`].
pub const ROUNDS: u64 = 1000;

/// Reports [`ROUNDS`] places from the last one downwards, and looks at the word after each.
fn report_downwards(word: &StopWord, mut seat: StopSeat, last: u64) -> StopSeat
    requires word { seat.word ≡ word.now }
    requires last { (1000 ≤ last) × (last < no_stop) }
    ensures { SameSeat seat result }
{
    for back in 0..ROUNDS {
        word.report(&mut seat, last - back);
        word.seen(&mut seat);
    }
    seat
}

/// Reports from as many threads as seats come of so many halvings, each from its own last place downwards.
fn report_beside<R: Threads + Sync>(
    rt: &R,
    word: &StopWord,
    mut seat: StopSeat,
    last: u64,
    levels: u64,
) -> StopSeat
    requires word { seat.word ≡ word.now }
    requires last { (1000 ≤ last) × (last + levels < no_stop) }
    ensures { SameSeat seat result }
{
    if levels == 0 || seat.weight() < 2 {
        return report_downwards(word, seat, last);
    }
    let fewer = levels - 1;
    let other = word.split(&mut seat);
    let (mut seat, other) = join(
        rt,
        move || -> StopSeat
            requires { IsSync R.row × (seat.word ≡ word.now) × (1000 ≤ last) × (last + fewer < no_stop) }
            ensures { SameSeat seat result }
        { report_beside(rt, word, seat, last, fewer) },
        move || -> StopSeat
            requires { IsSync R.row × (other.word ≡ word.now) × (1000 ≤ last) × (last + 1 + fewer < no_stop) }
            ensures { SameSeat other result }
        { report_beside(rt, word, other, last + 1, fewer) },
    );
    word.join(&mut seat, other);
    seat
}

/// The least of what all seats report that come of so many halvings.
pub fn least_of_all<R: Threads + Sync>(
    rt: &R,
    alloc: Global,
    last: u64,
    levels: u64,
) -> Result<u64, NoMemory>
    requires last { (1000 ≤ last) × (last + levels < no_stop) }
{
    let (word, seat) = StopWord::new(alloc)?;
    let seat = report_beside(rt, &word, seat, last, levels);
    Ok(word.close(seat))
}

/// Splits a seat and the new ones down to weight 1, joins all of them again, and says how many splits that took.
fn split_down(word: &StopWord, seat: &mut StopSeat) -> u64
    requires word { seat.old.word ≡ word.now }
    ensures same { SameSeat seat.old seat.new }
{
    if seat.weight() < 2 {
        return 0;
    }
    let mut other = word.split(seat);
    let splits = split_down(word, &mut other);
    word.join(seat, other);
    u64::wrapping_add(splits, 1)
}

/// Splits the first seat of a new word down to weight 1. The word is closed afterwards.
pub fn splits_to_one(alloc: Global) -> Result<(u64, u64), NoMemory> {
    let (word, mut seat) = StopWord::new(alloc)?;
    let splits = split_down(&word, &mut seat);
    Ok((splits, word.close(seat)))
}

/// Reports a place, and looks at the word before and after.
fn report_one(word: &StopWord, mut seat: StopSeat, at: u64) -> StopSeat
    requires word { seat.word ≡ word.now }
    requires place { at < no_stop }
    ensures same { SameSeat seat result }
    ensures reported { result.reported ≡ seat.reported ++ at ∷ [] }
{
    word.seen(&mut seat);
    word.report(&mut seat, at);
    word.seen(&mut seat);
    seat
}

/// Two threads report a place each. The word at its end is the lesser, whatever the schedule.
pub fn lesser_of_two<R: Threads + Sync>(
    rt: &R,
    alloc: Global,
    first: u64,
    second: u64,
) -> Result<u64, NoMemory>
    requires first { first < no_stop }
    requires second { second < no_stop }
    ensures { IfOk result (λ word. word ≡ least_of (first ∷ second ∷ [])) }
{
    let (word, mut seat) = StopWord::new(alloc)?;
    let other = word.split(&mut seat);
    let shared = &word;
    let (mut seat, other) = join(
        rt,
        move || -> StopSeat
            requires { (seat.word ≡ shared.now) × (first < no_stop) }
            ensures same { SameSeat seat result }
            ensures reported { result.reported ≡ seat.reported ++ first ∷ [] }
        { report_one(shared, seat, first) },
        move || -> StopSeat
            requires { (other.word ≡ shared.now) × (second < no_stop) }
            ensures same { SameSeat other result }
            ensures reported { result.reported ≡ other.reported ++ second ∷ [] }
        { report_one(shared, other, second) },
    );
    word.join(&mut seat, other);
    Ok(word.close(seat))
}
