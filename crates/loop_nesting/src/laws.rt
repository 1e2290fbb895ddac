//! What holds of every list of lines, whoever reads it.

ghost use Rattle.loop_nesting.specs.Claims.{OneProgram, OneRefusal, NeverBoth, NeverNeither};

/// Lines are the lines of one program at most, whatever the room.
pub fn one_program()
    ensures { OneProgram }
{}

/// There is one reason at most why lines are no program.
pub fn one_refusal()
    ensures { OneRefusal }
{}

/// No lines are both the lines of a program and refused.
pub fn never_both()
    ensures { NeverBoth }
{}

/// No lines are neither.
pub fn never_neither()
    ensures { NeverNeither }
{}
