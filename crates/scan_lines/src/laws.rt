//! The law of lines, the contract of a function that does nothing.

ghost use Rattle.scan_lines.specs.Laws.{LinesAreReadInOneWay};

/// Where two texts begin with lines and are the same, the lines have the same fields, and what follows them is the same: so a
/// reader that goes on from line to line finds the fields of each.
pub fn lines_are_read_in_one_way()
    ensures { LinesAreReadInOneWay }
{}
