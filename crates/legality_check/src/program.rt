//! Legal programs.

ghost use Rattle.std.specs.Prelude.{◌≡◌, ◌≢◌, ◌↔◌, Err, IfOk, IsOk};
ghost use Rattle.legality_rules.specs.declared.refusal.Offence.{Offence};
ghost use Rattle.legality_rules.specs.Offences.{IsFirstOffence, IsLegal};

use crate::tree::check_tree;
use legality_rules::LegalRefusal;
use loop_syntax::Program;
use std::alloc::Global;
use std::marker::Model;

/// A program that keeps to the ten rules. It comes from [`check_program`] alone.
#[derive(Debug, Drop)]
pub struct LegalProgram {
    program: Program,
}

impl Model for LegalProgram {
    ghost use Rattle.loop_grammar.specs.declared.tree.ProgramTree.{ProgramTree};
    ghost use Rattle.loop_grammar.specs.contracts.tree.ProgramTree as row;
    ghost use Rattle.legality_rules.specs.Offences.{IsLegal};

    ghost Value = { ProgramTree };

    ghost coded = { row.the_row.coded };

    ghost view = { λ p. p.program };

    ghost invariant = { λ p. IsLegal p.program };
}

impl LegalProgram {
    /// The program.
    pub fn program(&self) -> &Program
        ensures same { result.now ≡ self.now }
        ensures legal { IsLegal self.now }
    {
        &self.program
    }
}

/// Checks a program: `Ok` exactly where it is legal, and then the same program.
///
/// # Errors
///
/// `Illegal` with exactly the first offence: the least line that breaks a rule, there the rule of the least number, there the
/// leftmost name; `NoMemory` for want of memory. The refused program is given up.
pub fn check_program(alloc: Global, program: Program) -> Result<LegalProgram, LegalRefusal>
    ensures same { IfOk result (λ legal. legal ≡ program) }
    ensures legal { result ≢ Err LegalRefusal.NoMemory → IsOk result ↔ IsLegal program }
    ensures first { (o : Offence) → result ≢ Err LegalRefusal.NoMemory →
        result ≡ Err (LegalRefusal.Illegal o) ↔ IsFirstOffence program o }
{
    check_tree(alloc, program.tree())?;
    Ok(LegalProgram { program })
}
