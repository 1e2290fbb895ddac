//! Reads a loop file.

ghost use Rattle.std.specs.Prelude.{◌≡◌, ◌≢◌, ◌≤◌, ◌+◌, length, map, IfOk, IfErr, OnOk};
ghost use Rattle.loop_tokens.specs.Lines.{lines_of};
ghost use Rattle.loop_grammar.specs.declared.refusal.SyntaxRefusal.TheVariants as refusal;
ghost use Rattle.loop_grammar.specs.Texts.{AllSay, FirstLineRefusal, SpellsProgram, FirstRefusal};
ghost use Rattle.loop_syntax.specs.Programs.{kept, loop_file_limit};

use crate::program::Program;
use loop_grammar::{Line, NumberedLine, SyntaxRefusal};
use loop_lines::read_line;
use loop_nesting::nest;
use loop_tokens::{tokens, utf8_text};
use no_memory::NoMemory;
use std::alloc::Global;
use std::collections::VecDeque;

/// The most bytes of a loop file. Contracts call it `loop_file_limit`.
pub const LOOP_FILE_LIMIT: usize = 65536;

/// Reads the program that the bytes of a loop file spell. They are at most [`LOOP_FILE_LIMIT`].
///
/// # Errors
///
/// The first refusal of the text, exactly where it spells no program; `NoMemory` for want of memory.
pub fn read_program(alloc: Global, text: &[u8]) -> Result<Program, SyntaxRefusal>
    requires { length text.now ≤ loop_file_limit }
    ensures spelled { IfOk result (λ p. SpellsProgram text.now p) }
    ensures refused { IfErr result (λ r. r ≢ refusal.NoMemory → FirstRefusal text.now r) }
{
    match utf8_text(text) {
        Ok(text) => read_text(alloc, text),
        Err(bad) => Err(SyntaxRefusal::NotUtf8 { byte: bad.byte }),
    }
}

fn read_text(alloc: Global, text: &str) -> Result<Program, SyntaxRefusal>
    requires { length text.now ≤ loop_file_limit }
    ensures spelled { IfOk result (λ p. SpellsProgram text.now p) }
    ensures refused { IfErr result (λ r. r ≢ refusal.NoMemory → FirstRefusal text.now r) }
{
    let (lines, end) = read_lines(alloc, text)?;
    let tree = nest(alloc, lines, end)?;
    Ok(Program::from_tree(tree))
}

/// The lines of a text.
fn lines_in(alloc: Global, text: &str) -> Result<Vec<&str>, NoMemory>
    ensures lines { IfOk result (λ v. map (λ l. l.now) v.items ≡ lines_of text.now) }
    ensures few { IfOk result (λ v. length v.items ≤ length text.now) }
{
    Ok(text.lines().collect(alloc)?)
}

/// One line more, where it isn't blank.
fn keep(forms: &mut VecDeque<NumberedLine>, line: u32, form: Option<Line>) -> Result<(), NoMemory>
    ensures { OnOk result (forms.new.items ≡ kept forms.old.items line form) }
{
    match form {
        Some(form) => Ok(forms.push_back(NumberedLine { line, form })?),
        None => Ok(()),
    }
}

/// What the lines of a text say, and the number of the line behind the last.
fn read_lines(alloc: Global, text: &str) -> Result<(VecDeque<NumberedLine>, u32), SyntaxRefusal>
    requires { length text.now ≤ loop_file_limit }
    ensures said { IfOk result (λ p. AllSay 1 (lines_of text.now) p.0.items) }
    ensures end { IfOk result (λ p. p.1 ≡ length (lines_of text.now) + 1) }
    ensures refused { IfErr result (λ r.
        r ≢ refusal.NoMemory → FirstLineRefusal 1 (lines_of text.now) r) }
{
    let lines = lines_in(alloc, text)?;
    let mut forms = VecDeque::new(alloc);
    let mut number: u32 = 1;
    for line in &lines {
        let tokens = tokens(alloc, line)?;
        let form = read_line(alloc, number, &tokens)?;
        keep(&mut forms, number, form)?;
        number += 1;
    }
    Ok((forms, number))
}
