//! The settings, and what the value of each must be.

ghost use Rattle.std.specs.Prelude.{◌≡◌, length};
ghost use Rattle.std.specs.List.{list_all};
ghost use Rattle.program_words.specs.Settings.{setting_name, rule_of, is_allowed, is_name, names_in, are_names};

use crate::executor::executor_named;
use crate::number::{answer_named, number_within};

/// The most files that one setting names.
const MOST_NAMES: usize = 8;

/// The largest base: as many items as a loop has at most.
pub(crate) const MOST_BASE: u64 = 4_294_967_296;

/// The most workers.
pub(crate) const MOST_WORKERS: u64 = 32;

/// A setting of a command, written `name=value`.
#[derive(Clone, Copy, Debug, PartialEq, Eq)]
pub enum Setting {
    /// The loop file.
    Loop,
    /// The data files, in order.
    Data,
    /// In which way the loop is folded.
    Executor,
    /// Up to which length no part is halved, unless there are very many items.
    Base,
    /// How many workers there are.
    Workers,
    /// Whether a report follows the results.
    Report,
}

/// What the value of a setting must be.
#[derive(Clone, Copy, Debug, PartialEq, Eq)]
pub enum Rule {
    /// The name of a file, which isn't empty.
    FileName,
    /// One to eight names of files, parted by commas, none of them empty.
    FileNames,
    /// The word of an executor.
    Executor,
    /// A number of one to twenty digits between two, which count.
    Number { least: u64, most: u64 },
    /// `yes` or `no`.
    YesNo,
}

impl Setting {
    /// The name by which the setting is given.
    pub fn name(self) -> &'static str
        ensures { result.now ≡ setting_name self }
    {
        match self {
            Setting::Loop => "loop",
            Setting::Data => "data",
            Setting::Executor => "executor",
            Setting::Base => "base",
            Setting::Workers => "workers",
            Setting::Report => "report",
        }
    }

    /// What its value must be.
    pub fn rule(self) -> Rule
        ensures { result ≡ rule_of self }
    {
        match self {
            Setting::Loop => Rule::FileName,
            Setting::Data => Rule::FileNames,
            Setting::Executor => Rule::Executor,
            Setting::Base => Rule::Number {
                least: 1,
                most: MOST_BASE,
            },
            Setting::Workers => Rule::Number {
                least: 1,
                most: MOST_WORKERS,
            },
            Setting::Report => Rule::YesNo,
        }
    }
}

impl Rule {
    /// Whether a value keeps the rule.
    pub fn allows(self, value: &str) -> bool
        ensures { result ≡ is_allowed self value.now }
    {
        match self {
            Rule::FileName => is_name(value),
            Rule::FileNames => are_names(value),
            Rule::Executor => executor_named(value).is_some(),
            Rule::Number { least, most } => number_within(least, most, value).is_some(),
            Rule::YesNo => answer_named(value).is_some(),
        }
    }
}

/// Whether a text is the name of a file: it isn't empty.
fn is_name(text: &str) -> bool
    ensures { result ≡ is_name text.now }
{
    !text.is_empty()
}

/// How many texts the commas of a text part.
fn name_count(text: &str) -> usize
    ensures { result ≡ length (names_in text.now) }
{
    text.split(',').count()
}

/// Whether all that the commas of a text part are names.
fn all_names(text: &str) -> bool
    ensures { result ≡ list_all is_name (names_in text.now) }
{
    text.split(',').all(is_name)
}

/// Whether a text is one to eight names parted by commas.
fn are_names(text: &str) -> bool
    ensures { result ≡ are_names text.now }
{
    name_count(text) <= MOST_NAMES && all_names(text)
}
