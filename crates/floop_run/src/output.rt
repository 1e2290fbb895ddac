ghost use Rattle.std.specs.Prelude.{◌≡◌, ◌≢◌, ◌≤◌, Err, OnOk, OnErr, ◌+◌, length, IfSome};
ghost use Rattle.edge_io.specs.Counts.{RoseByOne};
ghost use Rattle.edge_io.specs.Writing.{Puts, PutsPrefix};
ghost use Rattle.floop_run.specs.Written.{joined};
ghost use Rattle.floop_run.specs.TopCall.{LastPutFailed, PutsEach};
ghost use Rattle.floop_run.specs.Outputs.{lines_in};

use edge_io::{NoMemory, Sink, SinkFailed};
use std::alloc::Global;

/// Why a text wasn't written whole.
#[derive(Clone, Copy, Debug, PartialEq, Eq)]
pub enum WriteStop {
    /// The sink failed; a prefix of the text was written.
    Failed,
    /// Memory ran out; nothing was written.
    NoMemory,
}

impl From<NoMemory> for WriteStop {
    ghost use Rattle.std.specs.Prelude.{◌≡◌};
    ghost use Rattle.floop_run.specs.declared.output.WriteStop.TheVariants.{NoMemory};

    ghost from_gives = { λ _ e. e ≡ NoMemory };

    fn from(_error: NoMemory) -> WriteStop {
        WriteStop::NoMemory
    }
}

/// Writes the lines, each by one put, after room was made for all of them. After the first put that fails nothing
/// more is put.
pub fn write_lines<K: Sink>(alloc: Global, out: &mut K, lines: &[Vec<u8>]) -> Result<(), WriteStop>
    // Each line is one put.
    ensures written { OnOk result
        (Puts (K.written out.old) (K.written out.new) (joined (lines_in lines.now))) }
    ensures put_each { OnOk result (PutsEach (lines_in lines.now) (K.puts out.old) (K.puts out.new)) }

    // A put that failed is the last.
    ensures failed { result ≡ Err WriteStop.Failed → RoseByOne (K.faults out.old) (K.faults out.new) }
    ensures prefix { result ≡ Err WriteStop.Failed →
        PutsPrefix (K.written out.old) (K.written out.new) (joined (lines_in lines.now)) }
    ensures last { result ≡ Err WriteStop.Failed → LastPutFailed (lines_in lines.now)
        (K.written out.old) (K.written out.new) (K.puts out.old) (K.puts out.new) }
    ensures kept { result ≢ Err WriteStop.Failed → K.faults out.new ≡ K.faults out.old }

    // For want of memory nothing is put.
    ensures no_memory { result ≡ Err WriteStop.NoMemory → K.written out.new ≡ K.written out.old }
    ensures no_memory_put { result ≡ Err WriteStop.NoMemory → K.puts out.new ≡ K.puts out.old }
{
    let Some(length) = total_length(lines) else {
        return Err(WriteStop::NoMemory);
    };
    out.reserve(alloc, length)?;
    match put_lines(out, lines) {
        Ok(()) => Ok(()),
        Err(SinkFailed) => Err(WriteStop::Failed),
    }
}

/// How many bytes the lines have together.
fn total_length(lines: &[Vec<u8>]) -> Option<u64>
    ensures { IfSome result (λ n. n ≡ length (joined (lines_in lines.now))) }
{
    let mut total: u64 = 0;
    for line in lines {
        total = total.checked_add(line.len() as u64)?;
    }
    Some(total)
}

/// Puts the lines, for which there must be room, until a put fails.
fn put_lines<K: Sink>(out: &mut K, lines: &[Vec<u8>]) -> Result<(), SinkFailed>
    requires { length (joined (lines_in lines.now)) ≤ K.room out.old }
    ensures written { OnOk result
        (Puts (K.written out.old) (K.written out.new) (joined (lines_in lines.now))) }
    ensures put_each { OnOk result (PutsEach (lines_in lines.now) (K.puts out.old) (K.puts out.new)) }
    ensures not_failed { OnOk result (K.faults out.new ≡ K.faults out.old) }
    ensures prefix { OnErr result
        (PutsPrefix (K.written out.old) (K.written out.new) (joined (lines_in lines.now))) }
    ensures last { OnErr result (LastPutFailed (lines_in lines.now)
        (K.written out.old) (K.written out.new) (K.puts out.old) (K.puts out.new)) }
    ensures failed { OnErr result (RoseByOne (K.faults out.old) (K.faults out.new)) }
{
    for line in lines {
        out.put(line.as_slice())?;
    }
    Ok(())
}
