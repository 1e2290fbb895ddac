//! Why a program isn't legal.

ghost use Rattle.std.specs.Prelude.{◌≡◌};
ghost use Rattle.legality_rules.specs.RefusalTexts.{words_after};

use loop_data::TextValue;
use no_memory::NoMemory;
use std::alloc::{AllocError, AllocFailed};
use std::fmt;
use tower_inputs::MOST_SITES;

/// A line breaks the rule of this number, from 1 to 10, at this name. Lines are counted from 1.
#[derive(Debug, PartialEq, Eq, Drop)]
pub struct Offence {
    pub number: u32,
    pub line: u32,
    pub name: TextValue,
}

/// Why a program isn't legal.
#[derive(Debug, PartialEq, Eq, Drop)]
pub enum LegalRefusal {
    /// 1 to 10: its first offence.
    Illegal(Offence),
    /// 11: memory ran out.
    NoMemory,
}

/// What an offence against the rule of this number is called, up to its name.
#[derive(Clone, Copy)]
struct WordsBefore {
    number: u32,
}

impl fmt::Display for WordsBefore {
    ghost use Rattle.std.specs.Prelude.{Some};
    ghost use Rattle.legality_rules.specs.RefusalTexts.{words_before};

    ghost output = { λ w. Some (words_before w.number) };

    fn fmt<W: fmt::Write>(&self, f: &mut fmt::Formatter<W>) -> fmt::Result {
        match self.number {
            1 => f.write_str("unknown name "),
            2 => f.write_str("name "),
            3 => f.write_str("carried variable "),
            4 => f.write_str("carried scratch "),
            5 => f.write_str("reducer "),
            6 => f.write_str("reducer "),
            7 => f.write_str("type differs at "),
            8 => f.write_str("start not allowed for "),
            9 => f.write_str("head not splittable"),
            _ => write!(f, "over {MOST_SITES} reduce lines"),
        }
    }
}

/// What follows the name.
fn words_after(number: u32) -> &'static str
    ensures { result.now ≡ words_after number }
{
    match number {
        2 => " bound twice",
        5 => " used in the loop",
        6 => " has another tower",
        _ => "",
    }
}

/// The offence as the program writes it, as `line 2: unknown name z`.
impl fmt::Display for Offence {
    ghost use Rattle.std.specs.Prelude.{Some};
    ghost use Rattle.legality_rules.specs.RefusalTexts.{offence_text};

    ghost output = { λ o. Some (offence_text o) };

    fn fmt<W: fmt::Write>(&self, f: &mut fmt::Formatter<W>) -> fmt::Result {
        let number = self.number;
        write!(f, "line {}: {}", self.line, WordsBefore { number })?;
        if self.number < 9 {
            f.write_str(self.name.as_str())?;
        }
        f.write_str(words_after(self.number))
    }
}

/// The refusal as the program writes it: its offence.
impl fmt::Display for LegalRefusal {
    ghost use Rattle.std.specs.Prelude.{Some};
    ghost use Rattle.legality_rules.specs.RefusalTexts.{legal_text};

    ghost output = { λ refusal. Some (legal_text refusal) };

    fn fmt<W: fmt::Write>(&self, f: &mut fmt::Formatter<W>) -> fmt::Result {
        match self {
            LegalRefusal::Illegal(offence) => write!(f, "{offence}"),
            LegalRefusal::NoMemory => f.write_str("out of memory"),
        }
    }
}

impl From<NoMemory> for LegalRefusal {
    ghost use Rattle.std.specs.Prelude.{◌≡◌};
    ghost use Rattle.legality_rules.specs.declared.refusal.LegalRefusal.TheVariants.{NoMemory};

    ghost from_gives = { λ _ e. e ≡ NoMemory };

    fn from(_error: NoMemory) -> LegalRefusal {
        LegalRefusal::NoMemory
    }
}

impl From<AllocError> for LegalRefusal {
    ghost use Rattle.std.specs.Prelude.{◌≡◌};
    ghost use Rattle.legality_rules.specs.declared.refusal.LegalRefusal.TheVariants.{NoMemory};

    ghost from_gives = { λ _ e. e ≡ NoMemory };

    fn from(_error: AllocError) -> LegalRefusal {
        LegalRefusal::NoMemory
    }
}

impl<T: Drop> From<AllocFailed<T>> for LegalRefusal {
    ghost use Rattle.std.specs.Prelude.{◌≡◌};
    ghost use Rattle.legality_rules.specs.declared.refusal.LegalRefusal.TheVariants.{NoMemory};

    ghost from_gives = { λ _ e. e ≡ NoMemory };

    fn from(_error: AllocFailed<T>) -> LegalRefusal {
        LegalRefusal::NoMemory
    }
}
