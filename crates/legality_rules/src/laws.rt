//! What holds of the definitions, for readers and for callers' proofs: each function is empty, and its contract is the law.

ghost use Rattle.legality_rules.specs.Cuts.{EntriesOfTwo, FirstAtEntry, FirstEndsCheck, FirstOfTwo};
ghost use Rattle.legality_rules.specs.Laws.{FirstIsFirst, LegalBreaksNone, LegalHasNone, LegalKeepsKinds, LegalPrintsReducers};
ghost use Rattle.legality_rules.specs.Laws.{OneFirst};
ghost use Rattle.legality_rules.specs.Rising.{FirstOfBranch, FirstOfParts, FirstOfRising, LinesRise};

/// The first offence is that of the least line that breaks a rule, the least number there, and the leftmost name.
pub fn first_is_first()
    ensures { FirstIsFirst }
{}

/// A program has one first offence at most.
pub fn one_first()
    ensures { OneFirst }
{}

/// A program has no first offence exactly where it is legal.
pub fn legal_has_none()
    ensures { LegalHasNone }
{}

/// A program is legal exactly where no line of it breaks a rule.
pub fn legal_breaks_none()
    ensures { LegalBreaksNone }
{}

/// In a legal program all that stands on a line keeps to the kinds.
pub fn legal_keeps_kinds()
    ensures { LegalKeepsKinds }
{}

/// A legal program prints reducers alone.
pub fn legal_prints_reducers()
    ensures { LegalPrintsReducers }
{}

/// The first offence at one entry is against the least rule that it breaks, at the leftmost name.
pub fn first_at_entry()
    ensures { FirstAtEntry }
{}

/// The first offence of two stretches of entries is the first of both.
pub fn first_of_two()
    ensures { FirstOfTwo }
{}

/// An offence that no later one precedes is the first.
pub fn first_ends_check()
    ensures { FirstEndsCheck }
{}

/// The entries of two stretches of a program are those of the first, and then those of the second under the names in scope
/// after the first.
pub fn entries_of_two()
    ensures { EntriesOfTwo }
{}

/// The lines of a program that some text spells rise from part to part.
pub fn lines_rise()
    ensures { LinesRise }
{}

/// Where one stretch of entries stands above another, an offence in the first comes before all of the second.
pub fn first_of_rising()
    ensures { FirstOfRising }
{}

/// The first offence of parts that rise is that of the first part, or else of the others.
pub fn first_of_parts()
    ensures { FirstOfParts }
{}

/// The first offence of a branch and of what follows it is that of its condition, or else of its block, or else of the others.
pub fn first_of_branch()
    ensures { FirstOfBranch }
{}
