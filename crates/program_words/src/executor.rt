//! The executors: in which way a loop is folded.

ghost use Rattle.std.specs.Prelude.{◌≡◌, bytes_eq, find};
ghost use Rattle.program_words.specs.Executors.{executor_word, executor_named, executors};

/// In which way a loop is folded. No answer depends on it.
#[derive(Clone, Copy, Debug, PartialEq, Eq)]
pub enum Executor {
    /// The whole as one part, on one thread.
    Seq,
    /// By divide and conquer: halves of halves, on threads that are joined.
    Halves,
    /// By work stealing: each worker halves and runs its own parts, and takes others' where it has none.
    Steal,
}

/// All executors.
const EXECUTORS: [Executor; 3] = [Executor::Seq, Executor::Halves, Executor::Steal];

impl Executor {
    /// The word by which the executor is given.
    pub fn word(self) -> &'static str
        ensures { result.now ≡ executor_word self }
    {
        match self {
            Executor::Seq => "seq",
            Executor::Halves => "halves",
            Executor::Steal => "steal",
        }
    }
}

/// The first of these executors that has this word.
fn find_executor(executors: &[Executor], word: &str) -> Option<Executor>
    ensures { result ≡ find (λ e. bytes_eq (executor_word e) word.now) executors.now }
{
    for executor in executors {
        if executor.word() == word {
            return Some(*executor);
        }
    }
    None
}

/// The executor that a word is, if it is one.
pub(crate) fn executor_named(word: &str) -> Option<Executor>
    ensures { result ≡ executor_named word.now }
{
    find_executor(&EXECUTORS, word)
}
