//! Reads a line by its form.

ghost use Rattle.std.specs.Prelude.{◌≡◌, ◌≢◌, ◌∷◌, [], IfOk, MatchOption, MatchBool};
ghost use Rattle.loop_tokens.specs.declared.token.Token.TheVariants as t;
ghost use Rattle.loop_tokens.specs.declared.sign.Sign.TheVariants as sg;
ghost use Rattle.loop_tokens.specs.declared.keyword.AtWord.TheVariants as at;
ghost use Rattle.loop_exprs.specs.Grammar.{NotFirst};
ghost use Rattle.loop_grammar.specs.LineForms.{SpellsLine};
ghost use Rattle.loop_lines.specs.Claims.{GivesLine, GivesReduced, reducing, OneLine};

use crate::front::{assigned, is_end, is_skip, split};
use crate::parts::{names_up_to, text, whole_expr, whole_literal};
use crate::tower::read_tower;
use loop_data::{Kind, TowerExpr};
use loop_exprs::ReadError;
use loop_grammar::Line;
use loop_heads::{eat, eat_name, eat_word, read_heads};
use loop_tokens::{AtWord, Keyword, Piece, Sign, Token};
use std::alloc::Global;

/// Reads what follows `var`.
fn var(alloc: Global, tokens: &[Token<'_>]) -> Result<(Line, bool), ReadError>
    ensures { GivesLine (t.Keyword Keyword.Var ∷ tokens.now) result }
{
    let Some((word, rest)) = assigned(tokens) else {
        return Err(ReadError::NotSpelled);
    };
    let (value, wide) = whole_literal(alloc, rest)?;
    let name = text(alloc, word)?;
    Ok((Line::Var { name, value }, wide))
}

/// Reads what follows `@init`.
fn init(alloc: Global, tokens: &[Token<'_>]) -> Result<(Line, bool), ReadError>
    ensures { GivesLine (t.At at.Init ∷ tokens.now) result }
{
    let Some((word, rest)) = assigned(tokens) else {
        return Err(ReadError::NotSpelled);
    };
    let (value, wide) = whole_literal(alloc, rest)?;
    let name = text(alloc, word)?;
    Ok((Line::Init { name, value }, wide))
}

/// Reads what follows `for`.
fn for_line(alloc: Global, tokens: &[Token<'_>]) -> Result<(Line, bool), ReadError>
    ensures { GivesLine (t.Keyword Keyword.For ∷ tokens.now) result }
{
    let (heads, wide) = read_heads(alloc, tokens)?;
    Ok((Line::For(heads), wide))
}

/// Reads what follows `let`.
fn let_line(alloc: Global, tokens: &[Token<'_>]) -> Result<(Line, bool), ReadError>
    ensures { GivesLine (t.Keyword Keyword.Let ∷ tokens.now) result }
{
    let (names, rest) = names_up_to(alloc, Sign::Assign, tokens)?;
    let (expr, wide) = whole_expr(alloc, rest)?;
    Ok((Line::Let { names, expr }, wide))
}

/// Reads what follows the name that comes first and `=`.
fn set(alloc: Global, word: &Piece<'_>, tokens: &[Token<'_>]) -> Result<(Line, bool), ReadError>
    ensures { GivesLine (t.Name word.now ∷ t.Sign sg.Assign ∷ tokens.now) result }
{
    let (expr, wide) = whole_expr(alloc, tokens)?;
    let name = text(alloc, word)?;
    Ok((Line::Set { name, expr }, wide))
}

/// Reads what follows the name that comes first, which is no `=`.
fn skip_line(word: &Piece<'_>, tokens: &[Token<'_>]) -> Result<(Line, bool), ReadError>
    requires { NotFirst (t.Sign sg.Assign) tokens.now }
    ensures { GivesLine (t.Name word.now ∷ tokens.now) result }
{
    if is_skip(word, tokens) {
        Ok((Line::SkipFaults, false))
    } else {
        Err(ReadError::NotSpelled)
    }
}

/// Reads what follows the name that comes first.
fn name_line(
    alloc: Global,
    word: &Piece<'_>,
    tokens: &[Token<'_>],
) -> Result<(Line, bool), ReadError>
    ensures { GivesLine (t.Name word.now ∷ tokens.now) result }
{
    match eat(Sign::Assign, tokens) {
        Some(rest) => set(alloc, word, rest),
        None => skip_line(word, tokens),
    }
}

/// Reads what follows `if`.
fn if_line(alloc: Global, tokens: &[Token<'_>]) -> Result<(Line, bool), ReadError>
    ensures { GivesLine (t.Keyword Keyword.If ∷ tokens.now) result }
{
    let (expr, wide) = whole_expr(alloc, tokens)?;
    Ok((Line::If(expr), wide))
}

/// Reads what follows `elseif`.
fn elseif_line(alloc: Global, tokens: &[Token<'_>]) -> Result<(Line, bool), ReadError>
    ensures { GivesLine (t.Keyword Keyword.ElseIf ∷ tokens.now) result }
{
    let (expr, wide) = whole_expr(alloc, tokens)?;
    Ok((Line::ElseIf(expr), wide))
}

/// Reads what follows `@keep`.
fn keep(alloc: Global, tokens: &[Token<'_>]) -> Result<(Line, bool), ReadError>
    ensures { GivesLine (t.At at.Keep ∷ tokens.now) result }
{
    let Some((word, rest)) = assigned(tokens) else {
        return Err(ReadError::NotSpelled);
    };
    let (expr, wide) = whole_expr(alloc, rest)?;
    let name = text(alloc, word)?;
    Ok((Line::Keep { name, expr }, wide))
}

/// Reads what follows `+=`: the tower is a sum.
fn add(alloc: Global, word: &Piece<'_>, tokens: &[Token<'_>]) -> Result<(Line, bool), ReadError>
    ensures { GivesLine (reducing word.now sg.PlusAssign tokens.now) result }
{
    let (expr, wide) = whole_expr(alloc, tokens)?;
    let name = text(alloc, word)?;
    let kind = Kind::Sum;
    let tower = TowerExpr::Leaf { kind, expr };
    let start = None;
    Ok((Line::Reduce { name, tower, start }, wide))
}

/// Ends an `@reduce` line behind its tower, where no `from` follows.
fn no_start(
    alloc: Global,
    word: &Piece<'_>,
    tower: TowerExpr,
    wide: bool,
    rest: &[Token<'_>],
) -> Result<(Line, bool), ReadError>
    requires { NotFirst (t.Keyword Keyword.From) rest.now }
    ensures { GivesReduced word.now tower wide rest.now result }
{
    if is_end(rest) {
        let name = text(alloc, word)?;
        let start = None;
        Ok((Line::Reduce { name, tower, start }, wide))
    } else {
        Err(ReadError::NotSpelled)
    }
}

/// Reads the start value of an `@reduce` line, behind its tower and `from`.
fn start_value(
    alloc: Global,
    word: &Piece<'_>,
    tower: TowerExpr,
    wide: bool,
    rest: &[Token<'_>],
) -> Result<(Line, bool), ReadError>
    ensures { GivesReduced word.now tower wide (t.Keyword Keyword.From ∷ rest.now) result }
{
    let (value, also) = whole_literal(alloc, rest)?;
    let name = text(alloc, word)?;
    let start = Some(value);
    Ok((Line::Reduce { name, tower, start }, wide | also))
}

/// Reads what follows the `=` of an `@reduce` line.
fn fed(alloc: Global, word: &Piece<'_>, tokens: &[Token<'_>]) -> Result<(Line, bool), ReadError>
    ensures { GivesLine (reducing word.now sg.Assign tokens.now) result }
{
    let (found, wide, rest) = read_tower(alloc, tokens)?;
    match eat_word(Keyword::From, rest) {
        Some(behind) => start_value(alloc, word, found, wide, behind),
        None => no_start(alloc, word, found, wide, rest),
    }
}

/// Reads what follows the name of an `@reduce` line, which isn't `+=`.
fn fed_line(
    alloc: Global,
    word: &Piece<'_>,
    tokens: &[Token<'_>],
) -> Result<(Line, bool), ReadError>
    requires { NotFirst (t.Sign sg.PlusAssign) tokens.now }
    ensures { GivesLine (t.At at.Reduce ∷ t.Name word.now ∷ tokens.now) result }
{
    let Some(rest) = eat(Sign::Assign, tokens) else {
        return Err(ReadError::NotSpelled);
    };
    fed(alloc, word, rest)
}

/// Reads what follows `@reduce`.
fn reduce(alloc: Global, tokens: &[Token<'_>]) -> Result<(Line, bool), ReadError>
    ensures { GivesLine (t.At at.Reduce ∷ tokens.now) result }
{
    let Some((word, rest)) = eat_name(tokens) else {
        return Err(ReadError::NotSpelled);
    };
    match eat(Sign::PlusAssign, rest) {
        Some(behind) => add(alloc, word, behind),
        None => fed_line(alloc, word, rest),
    }
}

/// Reads what follows `print`.
fn print(alloc: Global, tokens: &[Token<'_>]) -> Result<(Line, bool), ReadError>
    ensures { GivesLine (t.Keyword Keyword.Print ∷ tokens.now) result }
{
    let Some((word, rest)) = eat_name(tokens) else {
        return Err(ReadError::NotSpelled);
    };
    if is_end(rest) {
        let name = text(alloc, word)?;
        Ok((Line::Print(name), false))
    } else {
        Err(ReadError::NotSpelled)
    }
}

/// Ends a line that is one word.
fn else_line(tokens: &[Token<'_>]) -> Result<(Line, bool), ReadError>
    ensures { GivesLine (t.Keyword Keyword.Else ∷ tokens.now) result }
{
    if is_end(tokens) {
        Ok((Line::Else, false))
    } else {
        Err(ReadError::NotSpelled)
    }
}

fn continue_line(tokens: &[Token<'_>]) -> Result<(Line, bool), ReadError>
    ensures { GivesLine (t.Keyword Keyword.Continue ∷ tokens.now) result }
{
    if is_end(tokens) {
        Ok((Line::Continue, false))
    } else {
        Err(ReadError::NotSpelled)
    }
}

fn break_line(tokens: &[Token<'_>]) -> Result<(Line, bool), ReadError>
    ensures { GivesLine (t.Keyword Keyword.Break ∷ tokens.now) result }
{
    if is_end(tokens) {
        Ok((Line::Break, false))
    } else {
        Err(ReadError::NotSpelled)
    }
}

fn end_line(tokens: &[Token<'_>]) -> Result<(Line, bool), ReadError>
    ensures { GivesLine (t.Keyword Keyword.End ∷ tokens.now) result }
{
    if is_end(tokens) {
        Ok((Line::End, false))
    } else {
        Err(ReadError::NotSpelled)
    }
}

/// Reads what follows the reserved word that comes first.
fn word_line(alloc: Global, word: Keyword, tokens: &[Token<'_>]) -> Result<(Line, bool), ReadError>
    ensures { GivesLine (t.Keyword word ∷ tokens.now) result }
{
    match word {
        Keyword::Var => var(alloc, tokens),
        Keyword::For => for_line(alloc, tokens),
        Keyword::Let => let_line(alloc, tokens),
        Keyword::If => if_line(alloc, tokens),
        Keyword::ElseIf => elseif_line(alloc, tokens),
        Keyword::Else => else_line(tokens),
        Keyword::Continue => continue_line(tokens),
        Keyword::Break => break_line(tokens),
        Keyword::End => end_line(tokens),
        Keyword::Print => print(alloc, tokens),
        _ => Err(ReadError::NotSpelled),
    }
}

/// Reads what follows the at-word that comes first.
fn at_line(alloc: Global, word: AtWord, tokens: &[Token<'_>]) -> Result<(Line, bool), ReadError>
    ensures { GivesLine (t.At word ∷ tokens.now) result }
{
    match word {
        AtWord::Init => init(alloc, tokens),
        AtWord::Keep => keep(alloc, tokens),
        AtWord::Reduce => reduce(alloc, tokens),
    }
}

/// Reads the line that all the tokens spell, and whether some number in it is too wide (it then has 0 in its place).
pub(crate) fn form(alloc: Global, tokens: &[Token<'_>]) -> Result<(Line, bool), ReadError>
    ensures { GivesLine tokens.now result }
{
    let Some((first, rest)) = split(tokens) else {
        return Err(ReadError::NotSpelled);
    };
    match first {
        Token::Keyword(word) => word_line(alloc, *word, rest),
        Token::At(word) => at_line(alloc, *word, rest),
        Token::Name(word) => name_line(alloc, word, rest),
        Token::Number(_) | Token::Text(_) | Token::Sign(_) => Err(ReadError::NotSpelled),
    }
}

/// All the tokens of a line together spell one line at most.
pub fn one_line()
    ensures { OneLine }
{}
