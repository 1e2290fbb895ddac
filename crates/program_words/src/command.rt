//! The commands, and which settings each has.

ghost use Rattle.std.specs.Prelude.{◌≡◌, bytes_eq, find};
ghost use Rattle.program_words.specs.Commands.{command_word, settings_of, required_of, waits, is_served, is_elsewhere, command_named, commands};

use crate::Setting;

/// Which of the program's two top calls reads the words.
#[derive(Clone, Copy, Debug, PartialEq, Eq)]
pub enum Call {
    /// The call that always returns.
    Direct,
    /// The call for commands that wait for other threads, whose return isn't promised.
    Waiting,
}

/// What the program is asked to do.
#[derive(Clone, Copy, Debug, PartialEq, Eq)]
pub enum Command {
    /// Run the loop and write its results.
    Run,
    /// Say that the loop is accepted, with the counts of its items and reducers.
    Check,
    /// Tell how a loop is folded.
    Explain,
}

/// All commands.
const COMMANDS: [Command; 3] = [Command::Run, Command::Check, Command::Explain];

/// The settings of the commands that read a loop and its data.
static LOOP_SETTINGS: [Setting; 2] = [Setting::Loop, Setting::Data];

/// The settings of the command that folds a loop.
static RUN_SETTINGS: [Setting; 6] = [
    Setting::Loop,
    Setting::Data,
    Setting::Executor,
    Setting::Base,
    Setting::Workers,
    Setting::Report,
];

/// The settings that these must be given, in the order in which they are missed.
static LOOP_REQUIRED: [Setting; 1] = [Setting::Loop];

impl Command {
    /// The word by which the command is given.
    pub fn word(self) -> &'static str
        ensures { result.now ≡ command_word self }
    {
        match self {
            Command::Run => "run",
            Command::Check => "check",
            Command::Explain => "explain",
        }
    }

    /// The settings that the command has.
    pub fn settings(self) -> &'static [Setting]
        ensures { result.now ≡ settings_of self }
    {
        match self {
            Command::Run => &RUN_SETTINGS,
            Command::Check => &LOOP_SETTINGS,
            Command::Explain => &LOOP_SETTINGS,
        }
    }

    /// The settings that it must be given, in the order in which they are missed.
    pub fn required(self) -> &'static [Setting]
        ensures { result.now ≡ required_of self }
    {
        match self {
            Command::Run => &LOOP_REQUIRED,
            Command::Check => &LOOP_REQUIRED,
            Command::Explain => &LOOP_REQUIRED,
        }
    }

    /// Whether the command waits for other threads, so that its return isn't promised.
    pub fn waits(self) -> bool
        ensures { result ≡ waits self }
    {
        match self {
            Command::Run => false,
            Command::Check => false,
            Command::Explain => false,
        }
    }

    /// Whether the call serves the command.
    pub fn is_served(self, call: Call) -> bool
        ensures { result ≡ is_served call self }
    {
        match call {
            Call::Direct => !self.waits(),
            Call::Waiting => self.waits(),
        }
    }
}

/// The first of these commands that has this word.
fn find_command(commands: &[Command], word: &str) -> Option<Command>
    ensures { result ≡ find (λ c. bytes_eq (command_word c) word.now) commands.now }
{
    for command in commands {
        if command.word() == word {
            return Some(*command);
        }
    }
    None
}

/// The command that a word is, if it is one.
pub(crate) fn command_named(word: &str) -> Option<Command>
    ensures { result ≡ command_named word.now }
{
    find_command(&COMMANDS, word)
}

/// Whether a word is that of a command which the other call alone is to serve, and doesn't yet.
pub(crate) fn is_elsewhere(word: &str) -> bool
    ensures { result ≡ is_elsewhere word.now }
{
    word == "pool"
}
