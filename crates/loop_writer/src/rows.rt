//! The lines of a text, each on its own number.

ghost use Rattle.std.specs.Prelude.{◌≡◌, ◌+◌, ◌-◌, ◌*◌, [], ◌++◌, replicate, IfOk, OnOk};

use no_memory::NoMemory;
use std::alloc::Global;
use std::marker::Model;

/// The lines that were written so far.
#[derive(Drop)]
pub(crate) struct Rows {
    pub(crate) text: Vec<u8>,
    /// The number of the line that is written next, counted from 1.
    pub(crate) next: u64,
}

/// The empty lines from one number on up to another.
fn write_empty_lines(out: &mut Vec<u8>, from: u64, to: u64) -> Result<(), NoMemory>
    ensures { OnOk result (out.new.items ≡ out.old.items ++ replicate (to - from) 10) }
{
    let mut line = from;
    while line < to {
        out.push(b'\n')?;
        line += 1;
    }
    Ok(())
}

/// What stands before a line: two spaces for each block that is open round it. Contracts see how many blocks these are.
#[derive(Drop)]
pub(crate) struct Indent {
    /// One space for each block.
    spaces: Vec<u8>,
}

impl Model for Indent {
    ghost use Rattle.std.specs.Prelude.{◌≡◌, ℕ, length, replicate};

    ghost Value = { ℕ };

    ghost view = { λ i. length i.spaces.items };

    ghost invariant = { λ i. i.spaces.items ≡ replicate (length i.spaces.items) 32 };
}

impl Indent {
    /// No block.
    pub(crate) fn new(alloc: Global) -> Indent
        ensures { result ≡ 0 }
    {
        let spaces = Vec::new(alloc);
        Indent { spaces }
    }

    /// One more open block.
    pub(crate) fn deeper(&self) -> Result<Indent, NoMemory>
        ensures { IfOk result (λ d. d ≡ self.now + 1) }
    {
        let mut spaces = Vec::new(*self.spaces.allocator());
        spaces.extend_from_slice(&self.spaces)?;
        spaces.push(b' ')?;
        Ok(Indent { spaces })
    }

    /// Writes it.
    fn write(&self, out: &mut Vec<u8>) -> Result<(), NoMemory>
        ensures { OnOk result (out.new.items ≡ out.old.items ++ replicate (2 * self.now) 32) }
    {
        out.extend_from_slice(&self.spaces)?;
        out.extend_from_slice(&self.spaces)?;
        Ok(())
    }
}

impl Rows {
    ghost use Rattle.loop_writer.specs.Writing.{Begun, Ended};

    /// No line yet; the first has the number 1.
    pub(crate) fn new(alloc: Global) -> Rows
        ensures text { result.text.items ≡ [] }
        ensures next { result.next ≡ 1 }
    {
        Rows {
            text: Vec::new(alloc),
            next: 1,
        }
    }

    /// Goes to the line with that number, behind empty lines, inside so many open blocks.
    pub(crate) fn begin(&mut self, line: u32, depth: &Indent) -> Result<(), NoMemory>
        ensures { OnOk result (Begun self.old self.new line depth.now) }
    {
        let line = u64::from(line);
        write_empty_lines(&mut self.text, self.next, line)?;
        depth.write(&mut self.text)?;
        self.next = line + 1;
        Ok(())
    }

    /// The same outside all blocks.
    pub(crate) fn begin_outside(&mut self, line: u32) -> Result<(), NoMemory>
        ensures { OnOk result (Begun self.old self.new line 0) }
    {
        let outside = Indent::new(*self.text.allocator());
        self.begin(line, &outside)
    }

    /// The same inside the loop alone.
    pub(crate) fn begin_in_loop(&mut self, line: u32) -> Result<(), NoMemory>
        ensures { OnOk result (Begun self.old self.new line 1) }
    {
        let inside = Indent::new(*self.text.allocator()).deeper()?;
        self.begin(line, &inside)
    }

    /// Ends a line.
    pub(crate) fn end(&mut self) -> Result<(), NoMemory>
        ensures { OnOk result (Ended self.old self.new) }
    {
        self.text.push(b'\n')?;
        Ok(())
    }
}
