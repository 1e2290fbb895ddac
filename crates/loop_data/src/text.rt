ghost use Rattle.std.specs.Prelude.{◌≡◌, ◌+◌, ◌≤◌, ◌++◌, length, IsOk, IfOk, IsUtf8};
ghost use Rattle.std.specs.Fmt.{signed_decimal};
ghost use Rattle.loop_data.specs.ShortTexts.{short_limit};

use crate::CopyIn;
use arrayvec::ArrayString;
use itoa::Buffer;
use no_memory::NoMemory;
use std::alloc::Global;
use std::cmp::Ordering;
use std::marker::Model;

/// The most bytes of a text that stands in the value itself and takes no memory.
const SHORT: usize = 23;

/// Where the bytes of a text stand.
#[derive(Debug, Drop)]
enum Held {
    Short(ArrayString<23>),
    Long(String),
}

/// A text, which contracts see as the list of its bytes. They are UTF-8. Two texts are equal where their bytes are, and are
/// ordered by their bytes. A text of up to 23 bytes takes no memory.
#[derive(Debug, Drop)]
pub struct TextValue {
    held: Held,
}

impl Model for TextValue {
    ghost use Rattle.std.specs.Prelude.{ℕ, List};
    ghost use Rattle.loop_data.specs.Held.{held_bytes};

    ghost Value = { List ℕ };

    ghost view = { λ t. held_bytes t.held };
}

impl TextValue {
    /// Holds a text. Refused only for want of memory, of which a text of up to 23 bytes takes none.
    pub fn new(alloc: Global, text: &str) -> Result<TextValue, NoMemory>
        ensures text { IfOk result (λ t. t ≡ text.now) }
        ensures short { length text.now ≤ short_limit → IsOk result }
    {
        let held = match ArrayString::from(text) {
            Ok(short) => Held::Short(short),
            Err(_) => Held::Long(String::from_str(alloc, text)?),
        };
        Ok(TextValue { held })
    }

    /// The text, to read. It takes no memory.
    pub fn as_str(&self) -> &str
        ensures bytes { result.now ≡ self.now }
        ensures utf8 { IsUtf8 self.now }
    {
        match &self.held {
            Held::Short(short) => short.as_str(),
            Held::Long(long) => long.as_str(),
        }
    }

    /// The same text once more. Refused only for want of memory, of which a text of up to 23 bytes takes none.
    pub fn copy(&self, alloc: Global) -> Result<TextValue, NoMemory>
        ensures text { IfOk result (λ t. t ≡ self.now) }
        ensures short { length self.now ≤ short_limit → IsOk result }
    {
        match &self.held {
            Held::Short(short) => Ok(TextValue {
                held: Held::Short(*short),
            }),
            Held::Long(long) => TextValue::new(alloc, long.as_str()),
        }
    }

    /// The decimal text of a number, with `-` where it is negative. It takes no memory and is never refused, as it has at
    /// most 20 bytes.
    pub fn from_int(alloc: Global, n: i64) -> Result<TextValue, NoMemory>
        ensures text { IfOk result (λ t. t ≡ signed_decimal n) }
        ensures given { IsOk result }
    {
        TextValue::new(alloc, Buffer::new().format(n))
    }

    /// The left text followed by the right one. Refused only for want of memory, of which both together take none where they
    /// have up to 23 bytes, and else one block.
    pub fn joined(alloc: Global, left: &str, right: &str) -> Result<TextValue, NoMemory>
        ensures text { IfOk result (λ t. t ≡ left.now ++ right.now) }
        ensures short { length left.now + length right.now ≤ short_limit → IsOk result }
    {
        if left.len() <= SHORT && right.len() <= SHORT - left.len() {
            let mut short = ArrayString::new();
            short.push_str(left);
            short.push_str(right);
            return Ok(TextValue {
                held: Held::Short(short),
            });
        }
        let mut long = String::with_capacity(alloc, left.len() + right.len())?;
        long.push_str(left)?;
        long.push_str(right)?;
        Ok(TextValue {
            held: Held::Long(long),
        })
    }
}

impl PartialEq for TextValue {
    ghost use Rattle.std.specs.Str.{bytes_eq};
    ghost use Rattle.std.proofs.Common.{rules};
    ghost use Rattle.std.specs.Cmp.Rules.{comparing};

    ghost eq = { bytes_eq };

    ghost laws = { Prim.search (comparing, rules) };

    fn eq(&self, other: &TextValue) -> bool {
        self.as_str() == other.as_str()
    }
}

impl Eq for TextValue {
    ghost use Rattle.std.proofs.Common.{rules};
    ghost use Rattle.std.specs.Cmp.Rules.{comparing};

    ghost laws = { Prim.search (comparing, rules) };
}

impl PartialOrd for TextValue {
    ghost use Rattle.std.specs.Ordering.{nat_cmp, as_partial_cmp};
    ghost use Rattle.std.specs.Cmp.{partial_order_from_own_ties};
    ghost use Rattle.std.specs.Cmp.Lexicographic.{slice_cmp};
    ghost use Rattle.std.proofs.Common.{rules};
    ghost use Rattle.std.specs.Cmp.Rules.{comparing};

    ghost partial_cmp = { as_partial_cmp (slice_cmp nat_cmp) };

    ghost laws = { partial_order_from_own_ties (Prim.search (comparing, rules)) (Prim.search (comparing, rules)) };

    fn partial_cmp(&self, other: &TextValue) -> Option<Ordering> {
        Some(self.cmp(other))
    }
}

impl Ord for TextValue {
    ghost use Rattle.std.specs.Ordering.{nat_cmp};
    ghost use Rattle.std.specs.Cmp.Lexicographic.{slice_cmp};
    ghost use Rattle.std.proofs.Common.{rules};
    ghost use Rattle.std.specs.Cmp.Rules.{comparing};

    ghost cmp = { slice_cmp nat_cmp };

    ghost total = { Prim.search (comparing, rules) };

    ghost matches_partial_cmp = { Prim.search (comparing, rules) };

    ghost matches_eq = { Prim.search (comparing, rules) };

    fn cmp(&self, other: &TextValue) -> Ordering {
        self.as_str().cmp(other.as_str())
    }
}

impl CopyIn for TextValue {
    fn copy_in(&self, alloc: Global) -> Result<TextValue, NoMemory> {
        self.copy(alloc)
    }
}
