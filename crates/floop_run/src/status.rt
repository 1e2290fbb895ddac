ghost use Rattle.std.specs.Prelude.{◌≡◌};
ghost use Rattle.floop_run.specs.StatusCodes.{exit_code};

use std::alloc::AllocError;
use std::io::ErrorKind;

/// How a call of the program ended. The number is the program's exit status.
#[derive(Clone, Copy, Debug, PartialEq, Eq)]
pub enum Status {
    /// The loop ran to its end, and its results were written; or it was checked.
    Done = 0,
    /// The loop's leftmost stop is a fault, which was written.
    LoopFault = 1,
    /// The words, the loop file, a data file or the head are refused; the reason was written.
    Refused = 2,
    /// A file isn't held or can't be read; nothing was written.
    ReadFault = 3,
    /// The sink failed; a prefix of the text was written.
    WriteFault = 4,
    /// Memory ran out; nothing was written.
    NoMemory = 5,
}

impl Status {
    ghost use Rattle.floop_run.specs.StatusCodes.{code_of, without_words};

    /// The status of a call whose words can't be had as texts: want of memory where that is the error's kind, else a refusal.
    /// Nothing is written then.
    pub fn without_words(error: ErrorKind) -> Status
        ensures { result ≡ without_words error }
    {
        match error {
            ErrorKind::OutOfMemory => Status::NoMemory,
            _ => Status::Refused,
        }
    }

    /// The program's exit status.
    pub fn code(self) -> u8
        ensures { result ≡ code_of self }
    {
        self as u8
    }
}

/// The exit status of the program whose run ended so: that of its status, and of want of memory where it has none.
pub fn exit_code(ended: Result<Status, AllocError>) -> u8
    ensures { result ≡ exit_code ended }
{
    match ended {
        Ok(status) => status.code(),
        Err(_) => Status::NoMemory.code(),
    }
}
