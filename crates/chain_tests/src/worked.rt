//! What chains make of lists, worked by hand: the contracts of functions that do nothing.

ghost use Rattle.chain_tests.specs.Worked.{EndsAfterFirst, EndStays, LaterEndStands, NothingEnds};

/// The first element that passes ends the list after it; of two such stages the later one's end stands; an end that came in stays
/// where no element is left to bring another; and of no element a stage makes none.
pub fn ends_worked()
    ensures after_first { EndsAfterFirst }
    ensures later { LaterEndStands }
    ensures stays { EndStays }
    ensures nothing { NothingEnds }
{}
