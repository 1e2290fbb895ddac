//! A list of texts.

ghost use Rattle.std.specs.Prelude.{◌≡◌, ◌<◌, ◌++◌, ◌∷◌, [], IfOk, OnOk, Some, get_or, length, slice_get};
ghost use Rattle.csv.specs.Records.{prev};

use no_memory::NoMemory;
use std::alloc::Global;
use std::marker::Model;
use std::str;

/// How many bytes the texts of a list have together at most, so that each of them ends at a number of 4 bytes.
const LONGEST: usize = 0xFFFF_FFFF;

/// A list of texts: their bytes, one text after another, and the place where each text ends in them.
#[derive(Drop)]
pub(crate) struct Texts {
    bytes: Vec<u8>,
    ends: Vec<u32>,
}

impl Model for Texts {
    ghost use Rattle.std.specs.Prelude.{ℕ, List};
    ghost use Rattle.column_input.specs.Texts.{AreKept, texts_in};

    ghost Value = { List (List ℕ) };

    ghost view = { λ a. texts_in a.bytes.items a.ends.items };

    ghost invariant = { λ a. AreKept a.bytes.items a.ends.items };
}

impl Texts {
    /// No texts.
    pub(crate) fn new(alloc: Global) -> Texts
        ensures { result ≡ [] }
    {
        Texts {
            bytes: Vec::new(alloc),
            ends: Vec::new(alloc),
        }
    }

    /// No texts, with room for so many bytes of text.
    pub(crate) fn with_room(alloc: Global, bytes: usize) -> Result<Texts, NoMemory>
        ensures { IfOk result (λ texts. texts ≡ []) }
    {
        Ok(Texts {
            bytes: Vec::with_capacity(alloc, bytes)?,
            ends: Vec::new(alloc),
        })
    }

    /// The text at this place, from 0.
    pub(crate) fn get(&self, place: usize) -> &str
        requires { place < length self.now }
        ensures { slice_get self.now place ≡ Some result.now }
    {
        let (start, end) = bounds(&self.ends, place);
        let text = &self.bytes.as_slice()[start..end];
        unsafe { str::from_utf8_unchecked(text) }
    }

    /// Puts a text after the others. Where memory runs out they stay as they were; past 4 GiB of text it counts as that.
    pub(crate) fn push(&mut self, text: &str) -> Result<(), NoMemory>
        ensures { OnOk result (self.new ≡ self.old ++ text.now ∷ []) }
    {
        if text.len() > LONGEST - self.bytes.len() {
            return Err(NoMemory);
        }
        self.ends.reserve(1)?;
        self.bytes.extend_from_slice(text.as_bytes())?;
        self.ends.push_reserved(self.bytes.len() as u32);
        Ok(())
    }

    /// Takes all texts away.
    pub(crate) fn clear(&mut self)
        ensures { self.new ≡ [] }
    {
        self.bytes.clear();
        self.ends.clear();
    }

    /// Gives back the room that the texts don't take, where a smaller block can be had.
    pub(crate) fn give_back_room(&mut self)
        ensures { self.new ≡ self.old }
    {
        self.bytes.shrink_to_fit();
        self.ends.shrink_to_fit();
    }
}

/// Where the text at this place starts and ends.
fn bounds(ends: &Vec<u32>, place: usize) -> (usize, usize)
    requires { place < length ends.now.items }
    ensures start { result.0 ≡ prev 0 ends.now.items place }
    ensures end { result.1 ≡ get_or ends.now.items place 0 }
{
    let start = if place == 0 { 0 } else { ends[place - 1] };
    (start as usize, ends[place] as usize)
}
