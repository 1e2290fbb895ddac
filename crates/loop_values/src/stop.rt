ghost use Rattle.std.specs.Prelude.{◌≡◌};
ghost use Rattle.loop_values.specs.Stops.{fault_number, type_stop_number};

use no_memory::NoMemory;

/// Why an expression or a range has no value. The first five are the kinds of a loop's faults.
#[derive(Clone, Copy, Debug, PartialEq, Eq)]
pub enum EvalStop {
    /// A divisor is 0, or the least number is divided by -1 under `div`.
    DivideError,
    /// `int` of a text that spells no number.
    NotANumber,
    /// An inner range would make over 1,000,000 body runs of one item.
    TooManyInner,
    /// `&` would make a text of over 1,048,576 bytes.
    TextTooLong,
    /// The step of an inner range is 0.
    StepZero,
    /// Memory ran out.
    NoMemory,
}

impl EvalStop {
    /// The number of the stop, by which faults are named: 1 to 5 in the order above for a loop's faults, and 6 for want of
    /// memory.
    pub fn number(&self) -> u8
        ensures { result ≡ fault_number self.now }
    {
        match self {
            EvalStop::DivideError => 1,
            EvalStop::NotANumber => 2,
            EvalStop::TooManyInner => 3,
            EvalStop::TextTooLong => 4,
            EvalStop::StepZero => 5,
            EvalStop::NoMemory => 6,
        }
    }
}

impl From<NoMemory> for EvalStop {
    ghost use Rattle.std.specs.Prelude.{◌≡◌};
    ghost use Rattle.loop_values.specs.declared.stop.EvalStop.TheVariants.{NoMemory};

    ghost from_gives = { λ _ e. e ≡ NoMemory };

    fn from(_error: NoMemory) -> EvalStop {
        EvalStop::NoMemory
    }
}

/// Why an expression has no kind.
#[derive(Clone, Copy, Debug, PartialEq, Eq)]
pub enum TypeStop {
    /// A part isn't of the kind that is needed there, or a name isn't known.
    Differs,
    /// Memory ran out.
    NoMemory,
}

impl TypeStop {
    /// The number of the stop: 1 where there is no kind, and 2 for want of memory.
    pub fn number(&self) -> u8
        ensures { result ≡ type_stop_number self.now }
    {
        match self {
            TypeStop::Differs => 1,
            TypeStop::NoMemory => 2,
        }
    }
}

impl From<NoMemory> for TypeStop {
    ghost use Rattle.std.specs.Prelude.{◌≡◌};
    ghost use Rattle.loop_values.specs.declared.stop.TypeStop.TheVariants.{NoMemory};

    ghost from_gives = { λ _ e. e ≡ NoMemory };

    fn from(_error: NoMemory) -> TypeStop {
        TypeStop::NoMemory
    }
}
