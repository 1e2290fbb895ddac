//! Laws of what is written: public functions with no body, whose contracts are the laws.

ghost use Rattle.loop_writer.specs.Laws.{WrittenIsSpelled};

/// The canonical text of each program that some text spells is spelled as that program, line numbers included. It may be
/// longer than a loop file may be.
pub fn written_is_spelled()
    ensures { WrittenIsSpelled }
{}
