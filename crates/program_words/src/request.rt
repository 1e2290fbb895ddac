//! The request that words are.

ghost use Rattle.std.specs.Prelude.{◌≡◌, IfOk, IfErr, IsSome, All, Ok, Err, [], option_copied};
ghost use Rattle.std.specs.Option.{option_map};
ghost use Rattle.program_words.specs.Settings.{setting_name};
ghost use Rattle.program_words.specs.Commands.{required_of};
ghost use Rattle.program_words.specs.Refusals.{refusal_text};
ghost use Rattle.program_words.specs.Words.{texts, cut, value_at, value_in, setting_named, first_missing};
ghost use Rattle.program_words.specs.Requests.{value_refusal, name_refusal, word_refusal, first_refusal, no_word};
ghost use Rattle.program_words.specs.Requests.{no_command, checked, command_request, request_of};
ghost use Rattle.program_words.specs.Views.{request_seen, answer_seen, pair_seen};

use crate::command::{command_named, is_elsewhere};
use crate::{Call, Command, Refusal, Setting};

/// A command with its settings, as words give them.
#[derive(Clone, Copy, Debug)]
pub struct Request<'a> {
    /// What is asked for.
    pub command: Command,
    /// The words behind the command, each `name=value`, each name once.
    pub settings: &'a [String],
}

impl<'a> Request<'a> {
    /// The value that the request gives to a setting, if it gives one.
    pub fn value(&self, setting: Setting) -> Option<&'a str>
        ensures { option_copied result
            ≡ value_in (setting_name setting) (request_seen self.now).settings }
    {
        value_in(setting.name(), self.settings)
    }
}

/// A word cut at its first `=`: a name and a value.
fn cut(word: &str) -> Option<(&str, &str)>
    ensures { option_map pair_seen result ≡ cut word.now }
{
    word.split_once('=')
}

/// The value that a word gives to the setting of this name.
fn value_at<'a>(name: &str, word: &'a str) -> Option<&'a str>
    ensures { option_copied result ≡ value_at name.now (cut word.now) }
{
    match cut(word) {
        Some((given, value)) if given == name => Some(value),
        _ => None,
    }
}

/// The value that the first of these words gives to the setting of this name.
fn value_in<'a>(name: &str, words: &'a [String]) -> Option<&'a str>
    ensures { option_copied result ≡ value_in name.now (texts words.now) }
{
    for word in words {
        let value = value_at(name, word.as_str());
        if value.is_some() {
            return value;
        }
    }
    None
}

/// The first of these settings that has this name.
fn setting_named(settings: &[Setting], name: &str) -> Option<Setting>
    ensures { result ≡ setting_named settings.now name.now }
{
    for setting in settings {
        if setting.name() == name {
            return Some(*setting);
        }
    }
    None
}

/// Why this value isn't taken for the setting, which the words before may give already.
fn value_refusal<'a>(
    setting: Setting,
    before: &[String],
    word: &'a str,
    value: &str,
) -> Option<Refusal<'a>>
    ensures { option_map refusal_text result
        ≡ value_refusal setting (texts before.now) word.now value.now }
{
    if value_in(setting.name(), before).is_some() {
        Some(Refusal::SettingTwice(setting))
    } else if setting.rule().allows(value) {
        None
    } else {
        Some(Refusal::BadValue(word))
    }
}

/// Why the word with this name and value isn't taken.
fn name_refusal<'a>(
    command: Command,
    before: &[String],
    word: &'a str,
    name: &'a str,
    value: &str,
) -> Option<Refusal<'a>>
    ensures { option_map refusal_text result
        ≡ name_refusal command (texts before.now) word.now (name.now, value.now) }
{
    match setting_named(command.settings(), name) {
        Some(setting) => value_refusal(setting, before, word, value),
        None => Some(Refusal::UnknownSetting(name)),
    }
}

/// Why a word isn't taken behind these words.
fn word_refusal<'a>(command: Command, before: &[String], word: &'a str) -> Option<Refusal<'a>>
    ensures { option_map refusal_text result ≡ word_refusal command (texts before.now) word.now }
{
    match cut(word) {
        Some((name, value)) => name_refusal(command, before, word, name, value),
        None => Some(Refusal::NotASetting(word)),
    }
}

/// The refusal of the first word that isn't taken.
fn first_refusal(command: Command, words: &[String]) -> Option<Refusal<'_>>
    ensures { option_map refusal_text result ≡ first_refusal command [] (texts words.now) }
{
    for (place, word) in words.iter().enumerate() {
        let refusal = word_refusal(command, &words[..place], word.as_str());
        if refusal.is_some() {
            return refusal;
        }
    }
    None
}

/// The first of these settings that no word gives.
fn first_missing(settings: &[Setting], words: &[String]) -> Option<Setting>
    ensures { result ≡ first_missing settings.now (texts words.now) }
{
    for setting in settings {
        if value_in(setting.name(), words).is_none() {
            return Some(*setting);
        }
    }
    None
}

/// The request of this command with these settings.
fn checked(command: Command, settings: &[String]) -> Result<Request<'_>, Refusal<'_>>
    ensures { answer_seen result ≡ checked command (texts settings.now) }
{
    if let Some(refusal) = first_refusal(command, settings) {
        return Err(refusal);
    }
    match first_missing(command.required(), settings) {
        Some(setting) => Err(Refusal::MissingSetting(setting)),
        None => Ok(Request { command, settings }),
    }
}

/// Why there is no request without a word.
fn no_word(call: Call) -> Refusal<'static>
    ensures { refusal_text result ≡ no_word call }
{
    match call {
        Call::Direct => Refusal::Usage,
        Call::Waiting => Refusal::NotServed,
    }
}

/// Why there is no request whose first word is no command.
fn no_command(call: Call, word: &str) -> Refusal<'_>
    ensures { refusal_text result ≡ no_command call word.now }
{
    match call {
        Call::Direct if is_elsewhere(word) => Refusal::NotServed,
        Call::Direct => Refusal::UnknownCommand(word),
        Call::Waiting => Refusal::NotServed,
    }
}

/// The request of this command, where the call serves it.
fn command_request(
    call: Call,
    command: Command,
    settings: &[String],
) -> Result<Request<'_>, Refusal<'_>>
    ensures { answer_seen result ≡ command_request call command (texts settings.now) }
{
    if command.is_served(call) {
        checked(command, settings)
    } else {
        Err(Refusal::NotServed)
    }
}

/// The request that the words are to this top call, or their first refusal.
///
/// The first word is the command, each further one a setting `name=value`, cut at its first `=`, in any order, each name
/// once. It is refused where there is no word, where the first isn't a command that the call serves; then for the first
/// further word that has no
/// `=`, a name that the command doesn't have, a name that was given before, or a value that breaks its rule; then for the first
/// setting that the command must be given and isn't.
pub fn request_of(call: Call, words: &[String]) -> Result<Request<'_>, Refusal<'_>>
    // A request is the one that the definition finds, and a refusal has its text.
    ensures request { IfOk result (λ r. request_of call (texts words.now) ≡ Ok (request_seen r)) }
    ensures refusal { IfErr result (λ r. request_of call (texts words.now) ≡ Err (refusal_text r)) }

    // Each setting that the command must be given is there.
    ensures required { IfOk result (λ r.
        All (λ s. IsSome (value_in (setting_name s) (request_seen r).settings)) (required_of r.command)) }
{
    let Some((word, settings)) = words.split_first() else {
        return Err(no_word(call));
    };
    match command_named(word.as_str()) {
        Some(command) => command_request(call, command, settings),
        None => Err(no_command(call, word.as_str())),
    }
}
