//! Why a text spells no program.

use no_memory::NoMemory;
use std::alloc::{AllocError, AllocFailed};
use std::fmt;

/// Why a text spells no program: its first refusal. Bytes and lines are counted from 1.
#[derive(Clone, Copy, Debug, PartialEq, Eq)]
pub enum SyntaxRefusal {
    /// 1: the text isn't UTF-8. The byte is one more than the length of the longest front that is.
    NotUtf8 { byte: u64 },
    /// 2: the line isn't blank and has none of the forms, numbers being of any size.
    NotALine { line: u32 },
    /// 3: the line stands at no place of a program where it may; or, with the number of lines plus one, the file ends too early.
    BadNesting { line: u32 },
    /// 4: over 256 of the line's tokens are no parentheses, over 256 parentheses are open at one place, over 4 groups are nested
    /// in its tower, or it opens a 17th block.
    TooDeep { line: u32 },
    /// 5: a number of the line is over 9223372036854775807, or, in a negative literal, over 9223372036854775808.
    NumberTooWide { line: u32 },
    /// 6: memory ran out.
    NoMemory,
}

/// The refusal as the program writes it, as `line 2: bad nesting`.
impl fmt::Display for SyntaxRefusal {
    ghost use Rattle.std.specs.Prelude.{Some};
    ghost use Rattle.loop_grammar.specs.RefusalTexts.{syntax_text};

    ghost output = { λ refusal. Some (syntax_text refusal) };

    fn fmt<W: fmt::Write>(&self, f: &mut fmt::Formatter<W>) -> fmt::Result {
        match *self {
            SyntaxRefusal::NotUtf8 { byte } => write!(f, "byte {byte}: not UTF-8"),
            SyntaxRefusal::NotALine { line } => {
                write!(f, "line {line}: not a line of the language")
            }
            SyntaxRefusal::BadNesting { line } => write!(f, "line {line}: bad nesting"),
            SyntaxRefusal::TooDeep { line } => write!(f, "line {line}: too deep"),
            SyntaxRefusal::NumberTooWide { line } => write!(f, "line {line}: number too wide"),
            SyntaxRefusal::NoMemory => f.write_str("out of memory"),
        }
    }
}

impl From<NoMemory> for SyntaxRefusal {
    ghost use Rattle.std.specs.Prelude.{◌≡◌};
    ghost use Rattle.loop_grammar.specs.declared.refusal.SyntaxRefusal.TheVariants.{NoMemory};

    ghost from_gives = { λ _ e. e ≡ NoMemory };

    fn from(_error: NoMemory) -> SyntaxRefusal {
        SyntaxRefusal::NoMemory
    }
}

impl From<AllocError> for SyntaxRefusal {
    ghost use Rattle.std.specs.Prelude.{◌≡◌};
    ghost use Rattle.loop_grammar.specs.declared.refusal.SyntaxRefusal.TheVariants.{NoMemory};

    ghost from_gives = { λ _ e. e ≡ NoMemory };

    fn from(_error: AllocError) -> SyntaxRefusal {
        SyntaxRefusal::NoMemory
    }
}

impl<T: Drop> From<AllocFailed<T>> for SyntaxRefusal {
    ghost use Rattle.std.specs.Prelude.{◌≡◌};
    ghost use Rattle.loop_grammar.specs.declared.refusal.SyntaxRefusal.TheVariants.{NoMemory};

    ghost from_gives = { λ _ e. e ≡ NoMemory };

    fn from(_error: AllocFailed<T>) -> SyntaxRefusal {
        SyntaxRefusal::NoMemory
    }
}
