//! The check of a program's tree.

ghost use Rattle.std.specs.Prelude.{◌≡◌, ◌≢◌, ℕ, List, Err};
ghost use Rattle.loop_grammar.specs.Texts.{SpellsProgram};
ghost use Rattle.legality_rules.specs.Offences.{first_offence, precedes};
ghost use Rattle.legality_names.specs.Answers.{answer};
ghost use Rattle.legality_check.specs.Programs.{earlier, earlier_offence, tried};

use legality_lines::check_lines;
use legality_names::{Deed, names_done};
use legality_rules::{LegalRefusal, Offence};
use legality_scratches::check_scratches;
use loop_grammar::ProgramTree;
use std::alloc::Global;

/// Whether an offence comes before another: on an earlier line, or on the same line with a lesser number.
fn precedes(offence: &Offence, other: &Offence) -> bool
    ensures { result ≡ precedes offence.now other.now }
{
    offence.line < other.line || (offence.line == other.line && offence.number < other.number)
}

/// The earlier of two refusals; want of memory comes before all.
fn earlier(
    left: Result<(), LegalRefusal>,
    right: Result<(), LegalRefusal>,
) -> Result<(), LegalRefusal>
    ensures { result ≡ earlier left right }
{
    match left {
        Ok(()) => right,
        Err(LegalRefusal::NoMemory) => Err(LegalRefusal::NoMemory),
        Err(LegalRefusal::Illegal(offence)) => earlier_offence(offence, right),
    }
}

fn earlier_offence(offence: Offence, right: Result<(), LegalRefusal>) -> Result<(), LegalRefusal>
    ensures { result ≡ earlier_offence offence right }
{
    match right {
        Ok(()) => Err(LegalRefusal::Illegal(offence)),
        Err(LegalRefusal::NoMemory) => Err(LegalRefusal::NoMemory),
        Err(LegalRefusal::Illegal(other)) => {
            if precedes(&other, &offence) {
                return Err(LegalRefusal::Illegal(other));
            }
            Err(LegalRefusal::Illegal(offence))
        }
    }
}

/// Tries all rules on a program.
fn try_rules(alloc: Global, program: &ProgramTree) -> Result<(), LegalRefusal>
    ensures { result ≢ Err LegalRefusal.NoMemory → result ≡ tried program.now }
{
    let reducers = names_done(alloc, Deed::Reduces, program.body.as_slice())?;
    let lines = check_lines(alloc, reducers.as_slice(), program);
    let scratches = check_scratches(alloc, program);
    earlier(lines, scratches)
}

/// Checks the tree of a program that some text spells: `Ok` exactly where it is legal.
///
/// # Errors
///
/// `Illegal` with exactly its first offence: the least line that breaks a rule, there the least number, there the leftmost
/// name; `NoMemory` for want of memory.
pub(crate) fn check_tree(alloc: Global, program: &ProgramTree) -> Result<(), LegalRefusal>
    ensures { (text : List ℕ) → SpellsProgram text program.now → result ≢ Err LegalRefusal.NoMemory →
        result ≡ answer (first_offence program.now) }
{
    try_rules(alloc, program)
}
