//! What a request asks of its fold.

ghost use Rattle.std.specs.Prelude.{◌≡◌, ◌≤◌, option_copied};
ghost use Rattle.program_words.specs.Numbers.{number_within};
ghost use Rattle.program_words.specs.Values.{executor_of, base_of, workers_of, wants_report, read_or};
ghost use Rattle.program_words.specs.Views.{request_seen};

use crate::executor::executor_named;
use crate::number::{answer_named, number_within};
use crate::setting::{MOST_BASE, MOST_WORKERS};
use crate::{Executor, Request, Setting};

/// The number of a value between 1 and the most, or this one where it isn't given.
fn number_or(default: u64, most: u64, value: Option<&str>) -> u64
    requires least { 1 ≤ default }
    requires most { default ≤ most }
    ensures is { result ≡ read_or default (number_within 1 most) (option_copied value.entry) }
    ensures least { 1 ≤ result }
    ensures most { result ≤ most }
{
    match value {
        Some(text) => number_within(1, most, text).unwrap_or(default),
        None => default,
    }
}

impl Request<'_> {
    /// In which way the loop is folded: `steal` where it isn't given.
    pub fn executor(&self) -> Executor
        ensures { result ≡ executor_of (request_seen self.now) }
    {
        match self.value(Setting::Executor) {
            Some(word) => executor_named(word).unwrap_or(Executor::Steal),
            None => Executor::Steal,
        }
    }

    /// Up to which length no part is halved, from 1 to 4,294,967,296: 1,024 where it isn't given.
    pub fn base(&self) -> u64
        ensures is { result ≡ base_of (request_seen self.now) }
        ensures least { 1 ≤ result }
        ensures most { result ≤ 4294967296 }
    {
        number_or(1024, MOST_BASE, self.value(Setting::Base))
    }

    /// How many workers there are, from 1 to 32: 4 where it isn't given.
    pub fn workers(&self) -> u32
        ensures is { result ≡ workers_of (request_seen self.now) }
        ensures least { 1 ≤ result }
        ensures most { result ≤ 32 }
    {
        number_or(4, MOST_WORKERS, self.value(Setting::Workers)) as u32
    }

    /// Whether a report follows the results.
    pub fn wants_report(&self) -> bool
        ensures { result ≡ wants_report (request_seen self.now) }
    {
        match self.value(Setting::Report) {
            Some(word) => answer_named(word).unwrap_or(false),
            None => false,
        }
    }
}
