ghost use Rattle.std.specs.Prelude.{◌≡◌, ◌≢◌};
ghost use Rattle.edge_io.specs.Counts.{RoseByOne, RoseByOneAtMost};
ghost use Rattle.program_words.specs.Words.{texts};
ghost use Rattle.program_words.specs.declared.command.Call.TheVariants.{Direct as Here};
ghost use Rattle.floop_run.specs.TopCall.{Headline, WordsRefused, WordsPrefix, WordsPut, WordsUnread, Answered, AnsweredPuts};
ghost use Rattle.floop_run.specs.TopCall.{ReadFaultWords, ReadFaultAnswer, NotHeldAnswer, WriteFaultWrote, WriteFaultLast};
ghost use Rattle.floop_run.specs.TopCall.{FewReads, WriteFaultRose, LeftBy, KeptBut};
ghost use Rattle.floop_run.specs.TopCall.{Gives, PutsEach, PutsPrefixOf, LastPutFailed, IsAnswered};
ghost use Rattle.floop_run.specs.Outputs.{written_in, lines_in};

use crate::Status;
use crate::answer::{Output, OutputStop, output_for};
use crate::output::{WriteStop, write_lines};
use edge_io::{Files, Sink};
use piece_ledger::Gate;
use std::alloc::Global;
use std::thread::Threads;

/// Runs the program on its words.
///
/// The words are a command and its settings, as `program_words` reads them: `run`, `check` or `explain` with `loop=NAME`, the
/// name of a loop file of at most 65,536 bytes, and maybe `data=NAMES`, the names of one to eight data files of at most
/// 67,108,864 bytes each. `run` writes the result of each `print` line, and how many faults were skipped where the loop skips
/// them, or the fault that stopped the loop; `check` writes how many items and reducers there are; `explain` writes the stages
/// to which the loop is lowered. Where something is refused, each writes the first reason: of the words, the loop file, its
/// legality, the data files, the head. Each line is one put, with its LF.
///
/// `run` may say in which way it folds the loop, by `executor`, `base` and `workers`, on which no answer depends. With
/// `report=yes` one more line tells how many parts were run and how many items skipped. Threads are had of `rt`, and `gate`
/// is called before a leaf is run; the executor `seq` runs the whole as one part and needs neither.
///
/// The clauses tie the status and what was written to the answer, `IsAnswer` in specs/Answers, of which there is just one, by
/// what may be written for it, `IsWritten` in specs/Written:
///
/// - `Done` where the loop ran, was checked or explained; `LoopFault` where its leftmost stop is a fault;
/// - `Refused` where the words, the loop file, a data file or the head are refused;
/// - `ReadFault` where a file that the call reaches isn't held, or its read failed; nothing was written;
/// - `WriteFault` where a put failed; a prefix of the text was written;
/// - `NoMemory` for want of memory; nothing was written.
pub fn floop_words<R: Threads + Sync, F: Files, K: Sink, G: Gate + Sync>(
    rt: &R,
    alloc: Global,
    words: &[String],
    files: &mut F,
    out: &mut K,
    gate: &G,
) -> Status
    // Where the bytes are told and no count of faults rose, the call gives the answer, unless memory ran out.
    ensures headline { Headline Here (texts words.now) (F.held files.old) result
        (F.faults files.old) (F.faults files.new) (K.faults out.old) (K.faults out.new)
        (K.written out.old) (K.written out.new) }

    // Words that are no request are refused, whatever files tell; where the sink fails, a prefix of their text is left.
    ensures words_refused { WordsRefused Here (texts words.now) result
        (K.faults out.old) (K.faults out.new) (K.written out.old) (K.written out.new) }
    ensures words_prefix { WordsPrefix Here (texts words.now) result
        (K.written out.old) (K.written out.new) }

    // Done, LoopFault and Refused come only as the answer, also where a count rose, and then there were as many puts as lines.
    ensures answered { Answered Here (texts words.now) (F.held files.old) result
        (K.written out.old) (K.written out.new) }
    ensures put_each { AnsweredPuts Here (texts words.now) (F.held files.old) result
        (K.puts out.old) (K.puts out.new) }

    // ReadFault comes only after words that are a request, and where no read failed exactly where the answer says so.
    ensures read_fault_words { ReadFaultWords Here (texts words.now) result }
    ensures read_fault { ReadFaultAnswer Here (texts words.now) (F.held files.old) result
        (F.faults files.old) (F.faults files.new) }
    ensures not_held { NotHeldAnswer Here (texts words.now) (F.held files.old) result
        (F.faults files.old) (F.faults files.new) }
    ensures read_fault_wrote { LeftBy Status.ReadFault result
        (K.written out.old) (K.written out.new) }
    ensures read_fault_put { LeftBy Status.ReadFault result (K.puts out.old) (K.puts out.new) }

    // WriteFault comes only where the sink's count rose, by one, after a prefix of a text that may be written; the put that
    // failed is the last.
    ensures write_fault { WriteFaultRose result (K.faults out.old) (K.faults out.new) }
    ensures write_fault_wrote { WriteFaultWrote Here (texts words.now) (F.held files.old) result
        (K.written out.old) (K.written out.new) }
    ensures last_put { WriteFaultLast Here (texts words.now) (F.held files.old) result
        (K.written out.old) (K.written out.new) (K.puts out.old) (K.puts out.new) }

    // The refusal of words is one put, whether it fails or not.
    ensures words_put { WordsPut Here (texts words.now) result (K.puts out.old) (K.puts out.new) }

    // Want of memory may come at any place before the first put.
    ensures no_memory { LeftBy Status.NoMemory result (K.written out.old) (K.written out.new) }
    ensures no_memory_put { LeftBy Status.NoMemory result (K.puts out.old) (K.puts out.new) }

    // A count of faults rises nowhere else, and by one: no failed read or put is passed over, tried again, or made good by
    // another.
    ensures files_kept { KeptBut Status.ReadFault result (F.faults files.old) (F.faults files.new) }
    ensures sink_kept { KeptBut Status.WriteFault result (K.faults out.old) (K.faults out.new) }
    ensures failed_once { RoseByOneAtMost (F.faults files.old) (F.faults files.new) }

    // There are no more reads than files named, the loop file and each data file, and none for words that are no request.
    ensures reads { FewReads Here (texts words.now) (F.reads files.old) (F.reads files.new) }
    ensures words_unread { WordsUnread Here (texts words.now)
        (F.reads files.old) (F.reads files.new) }

    // Nothing changes of what files tell that they hold.
    ensures held { F.held files.new ≡ F.held files.old }
{
    match output_for(rt, alloc, words, files, gate) {
        Ok(output) => give(alloc, out, &output),
        Err(OutputStop::ReadFault) => Status::ReadFault,
        Err(OutputStop::NoMemory) => Status::NoMemory,
    }
}

/// Writes an output, whose status is then the call's, unless the sink fails or memory runs out.
fn give<K: Sink>(alloc: Global, out: &mut K, output: &Output) -> Status
    requires { IsAnswered output.now.status }
    ensures given { IsAnswered result →
        Gives (written_in output.now) result (K.written out.old) (K.written out.new) }
    ensures put_each { IsAnswered result →
        PutsEach (lines_in output.now.lines.items) (K.puts out.old) (K.puts out.new) }
    ensures cases { result ≢ Status.WriteFault → result ≢ Status.NoMemory → IsAnswered result }
    ensures write_fault { result ≡ Status.WriteFault → RoseByOne (K.faults out.old) (K.faults out.new) }
    ensures prefix { result ≡ Status.WriteFault →
        PutsPrefixOf (written_in output.now) (K.written out.old) (K.written out.new) }
    ensures last_put { result ≡ Status.WriteFault → LastPutFailed (lines_in output.now.lines.items)
        (K.written out.old) (K.written out.new) (K.puts out.old) (K.puts out.new) }
    ensures kept { result ≢ Status.WriteFault → K.faults out.new ≡ K.faults out.old }
    ensures no_memory { result ≡ Status.NoMemory → K.written out.new ≡ K.written out.old }
    ensures no_memory_put { result ≡ Status.NoMemory → K.puts out.new ≡ K.puts out.old }
{
    match write_lines(alloc, out, &output.lines) {
        Ok(()) => output.status,
        Err(WriteStop::Failed) => Status::WriteFault,
        Err(WriteStop::NoMemory) => Status::NoMemory,
    }
}
