//! Why words are no request.

use crate::Setting;
use std::fmt;

/// Why words are no request: their first refusal.
#[derive(Clone, Copy, Debug, PartialEq, Eq)]
pub enum Refusal<'a> {
    /// The command belongs to the other top call.
    NotServed,
    /// There is no word.
    Usage,
    /// The first word is no command.
    UnknownCommand(&'a str),
    /// A further word has no `=`.
    NotASetting(&'a str),
    /// The command has no setting of this name.
    UnknownSetting(&'a str),
    /// A word before gives the setting.
    SettingTwice(Setting),
    /// The word's value breaks the setting's rule.
    BadValue(&'a str),
    /// No word gives a setting that the command must be given.
    MissingSetting(Setting),
}

/// The refusal as the program writes it, as `unknown command: stop`.
impl fmt::Display for Refusal<'_> {
    ghost use Rattle.std.specs.Prelude.{Some};
    ghost use Rattle.program_words.specs.Refusals.{refusal_text};

    ghost output = { λ refusal. Some (refusal_text refusal) };

    fn fmt<W: fmt::Write>(&self, f: &mut fmt::Formatter<W>) -> fmt::Result {
        match *self {
            Refusal::NotServed => f.write_str("not served here"),
            Refusal::Usage => {
                f.write_str("usage: floop check, explain, run, pool or try, then name=value")
            }
            Refusal::UnknownCommand(word) => write!(f, "unknown command: {word}"),
            Refusal::NotASetting(word) => write!(f, "not a setting: {word}"),
            Refusal::UnknownSetting(name) => write!(f, "unknown setting: {name}"),
            Refusal::SettingTwice(setting) => write!(f, "setting twice: {}", setting.name()),
            Refusal::BadValue(word) => write!(f, "bad value: {word}"),
            Refusal::MissingSetting(setting) => write!(f, "missing setting: {}", setting.name()),
        }
    }
}
