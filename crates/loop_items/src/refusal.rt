//! Why no loop may run over a head.

ghost use Rattle.std.specs.Prelude.{◌≡◌};
ghost use Rattle.loop_items.specs.declared.refusal.HeadRefusal.TheVariants as refused;

use loop_data::TextValue;
use no_memory::NoMemory;
use number_ranges::MOST_ITEMS;
use std::alloc::AllocError;
use std::fmt;

/// Why no loop may run over a head. `line` is the line of the `for`, from 1.
///
/// The ranges and columns of the head are tried from left to right, those inside zips too, each for the first three; then the
/// product is, for the third.
#[derive(Debug, PartialEq, Eq, Drop)]
pub enum HeadRefusal {
    /// The table has no column of this name.
    NoSuchColumn { name: TextValue, line: u32 },
    /// A range has the step 0.
    ZeroStep { line: u32 },
    /// A range, or else the product, has over 4,294,967,296 items. `count` is how many: of a product, how many its fewest first
    /// axes have that have over that number.
    TooManyItems { count: u128, line: u32 },
    /// Memory ran out.
    NoMemory,
}

impl fmt::Display for HeadRefusal {
    ghost use Rattle.std.specs.Prelude.{Some};
    ghost use Rattle.loop_items.specs.RefusalTexts.{refusal_text};

    ghost output = { λ refusal. Some (refusal_text refusal) };

    fn fmt<W: fmt::Write>(&self, f: &mut fmt::Formatter<W>) -> fmt::Result {
        match self {
            HeadRefusal::NoSuchColumn { name, line } => {
                let name = name.as_str();
                write!(f, "line {line}: no column {name}")
            }
            HeadRefusal::ZeroStep { line } => write!(f, "line {line}: step is zero"),
            HeadRefusal::TooManyItems { count, line } => {
                write!(f, "line {line}: {count} items, at most {MOST_ITEMS}")
            }
            HeadRefusal::NoMemory => f.write_str("out of memory"),
        }
    }
}

impl From<NoMemory> for HeadRefusal {
    ghost from_gives = { λ _ refusal. refusal ≡ refused.NoMemory };

    fn from(_error: NoMemory) -> HeadRefusal {
        HeadRefusal::NoMemory
    }
}

impl From<AllocError> for HeadRefusal {
    ghost from_gives = { λ _ refusal. refusal ≡ refused.NoMemory };

    fn from(_error: AllocError) -> HeadRefusal {
        HeadRefusal::NoMemory
    }
}
