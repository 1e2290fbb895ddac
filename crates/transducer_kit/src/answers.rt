//! What a step answers, and how a stage's closure stops.

ghost use Rattle.std.specs.Prelude.{◌≡◌};
ghost use Rattle.transducer_kit.specs.Answers.{answer_of, is_going};

use chain_stages::StepEnd;
use no_memory::NoMemory;

/// Why a stage's closure makes nothing of an item. `line` is a line of the loop file.
#[derive(Clone, Copy, Debug, PartialEq, Eq)]
pub enum PassStop {
    /// The item faulted.
    Fault { line: u32, kind: u8 },
    /// Memory ran out.
    NoMemory,
}

impl PassStop {
    /// What a step answers whose closure stopped so.
    pub fn answer(self) -> Result<StepEnd, NoMemory>
        ensures { result ≡ answer_of self }
    {
        match self {
            PassStop::Fault { line, kind } => Ok(StepEnd::Fault { line, kind }),
            PassStop::NoMemory => Err(NoMemory),
        }
    }
}

impl From<NoMemory> for PassStop {
    ghost use Rattle.transducer_kit.specs.declared.answers.PassStop.TheVariants as stop;

    ghost from_gives = { λ _ made. made ≡ stop.NoMemory };

    fn from(_error: NoMemory) -> PassStop {
        PassStop::NoMemory
    }
}

/// Whether the answer is to go on.
pub(crate) fn goes_on(answer: &Result<StepEnd, NoMemory>) -> bool
    ensures { result ≡ is_going answer.now }
{
    matches!(answer, Ok(StepEnd::Going))
}
