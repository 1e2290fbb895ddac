//! Writes a program.

ghost use Rattle.std.specs.Prelude.{◌≡◌, IfOk};
ghost use Rattle.loop_writer.specs.Programs.{canonical_text};
ghost use Rattle.loop_syntax.specs.Programs.{IsSpelled};

use crate::program::Program;
use loop_writer::write_tree;
use no_memory::NoMemory;
use std::alloc::Global;

/// The canonical text of a program, which spells the same program, line numbers included: each line stands on its own
/// number, the lines that the program doesn't use are empty, and tokens are parted by one space but where the language's
/// rules say none. It may be longer than a loop file may be. The only error is want of memory.
pub fn write_program(alloc: Global, program: &Program) -> Result<Vec<u8>, NoMemory>
    ensures text { IfOk result (λ v. v.items ≡ canonical_text program.now) }
    ensures spelled { IsSpelled (canonical_text program.now) program.now }
{
    write_tree(alloc, program.tree())
}
