//! The checks of lines by their forms, but for the `for` line and `@reduce` lines. Each tries its rules by number and ends at
//! the first that the line breaks.

ghost use Rattle.std.specs.Prelude.{◌≡◌, ◌≢◌, Err};
ghost use Rattle.std.specs.FinMap.{get};
ghost use Rattle.loop_values.specs.Kinds.{kind_of};
ghost use Rattle.legality_rules.specs.Scopes.{found, is_in};
ghost use Rattle.legality_names.specs.Answers.{illegal};
ghost use Rattle.legality_lines.specs.LineChecks.{binding_checked, condition_checked, condition_word, keep_checked};
ghost use Rattle.legality_lines.specs.LineChecks.{let_checked, print_checked, set_checked};
ghost use Rattle.legality_lines.specs.Kinds.{kept_kind, typed_pattern};

use crate::state::{State, bind, bind_each};
use legality_kinds::{fits_pattern, has_kind_of, is_bool, kind_in, literal_kind, pattern_parts};
use legality_names::{
    illegal, is_in, loop_variable, mistyped, name_and_reads, outer_variable, reads_of, refuse,
    repeated, taken, try_names,
};
use legality_rules::{LegalRefusal, Sort};
use loop_data::{Binding, Expr, Many, PrintLine, TextValue, ValueKind};
use loop_values::Types;
use std::alloc::Global;

/// The kinds of the names that a `let` line binds. Refused where the pattern doesn't take the expression, or that has no kind.
fn typed_pattern(
    alloc: Global,
    line: u32,
    names: &[TextValue],
    expr: &Expr,
    kinds: &Types,
) -> Result<Many<ValueKind>, LegalRefusal>
    ensures { result ≢ Err LegalRefusal.NoMemory →
        result ≡ typed_pattern line names.now (found (kind_of expr.now (get kinds.now))) }
{
    match kind_in(alloc, expr, kinds)? {
        Some(kind) => {
            if fits_pattern(names, &kind) {
                return Ok(pattern_parts(alloc, names, kind)?);
            }
            Err(mistyped(alloc, line, names))
        }
        None => Err(mistyped(alloc, line, names)),
    }
}

/// The kind that an `@keep` line gives its name: K of Maybe K. Refused where the expression has another kind or none.
fn kept_kind(
    alloc: Global,
    line: u32,
    name: &TextValue,
    expr: &Expr,
    kinds: &Types,
) -> Result<ValueKind, LegalRefusal>
    ensures { result ≢ Err LegalRefusal.NoMemory → result ≡ kept_kind line name.now (found (kind_of expr.now (get kinds.now))) }
{
    match kind_in(alloc, expr, kinds)? {
        Some(ValueKind::Maybe(kind)) => Ok(kind.into_inner()),
        _ => Err(illegal(alloc, 7, line, name.as_str())),
    }
}

/// Checks a `let` line: rules 1, 2, 5 and 7.
pub(crate) fn check_let(
    alloc: Global,
    reducers: &[TextValue],
    state: State,
    line: u32,
    names: &[TextValue],
    expr: &Expr,
) -> Result<State, LegalRefusal>
    ensures { result ≢ Err LegalRefusal.NoMemory → result ≡ let_checked reducers.now line names.now expr.now state }
{
    let used = reads_of(alloc, expr)?;
    let twice = repeated(state.bound.as_slice(), state.sites.as_slice(), names);
    try_names(
        alloc,
        reducers,
        state.scope.as_slice(),
        line,
        used.as_slice(),
        twice,
        None,
    )?;
    let kinds = typed_pattern(alloc, line, names, expr, &state.kinds)?;
    Ok(bind_each(alloc, state, Sort::Local, names, kinds.as_slice())?)
}

/// Checks an assignment: rules 1, 2, 3, 5 and 7.
pub(crate) fn check_set(
    alloc: Global,
    reducers: &[TextValue],
    state: State,
    line: u32,
    name: &TextValue,
    expr: &Expr,
) -> Result<State, LegalRefusal>
    ensures { result ≢ Err LegalRefusal.NoMemory → result ≡ set_checked reducers.now line name.now expr.now state }
{
    let used = name_and_reads(alloc, name, expr)?;
    let scope = state.scope.as_slice();
    try_names(
        alloc,
        reducers,
        scope,
        line,
        used.as_slice(),
        loop_variable(scope, name),
        outer_variable(scope, name),
    )?;
    if !has_kind_of(alloc, expr, name, &state.kinds)? {
        return Err(illegal(alloc, 7, line, name.as_str()));
    }
    Ok(state)
}

/// Checks the condition of an `if` or, where it isn't the first, of an `elseif`: rules 1, 5 and 7.
pub(crate) fn check_condition(
    alloc: Global,
    reducers: &[TextValue],
    state: &State,
    first: bool,
    line: u32,
    test: &Expr,
) -> Result<(), LegalRefusal>
    ensures { result ≢ Err LegalRefusal.NoMemory → result ≡ condition_checked reducers.now first line test.now state.now }
{
    let used = reads_of(alloc, test)?;
    try_names(
        alloc,
        reducers,
        state.scope.as_slice(),
        line,
        used.as_slice(),
        None,
        None,
    )?;
    if !is_bool(alloc, test, &state.kinds)? {
        return Err(refuse_condition(alloc, line, first));
    }
    Ok(())
}

/// The refusal of a condition that isn't a Bool.
fn refuse_condition(alloc: Global, line: u32, first: bool) -> LegalRefusal
    ensures { result ≢ LegalRefusal.NoMemory → result ≡ illegal 7 line (condition_word first) }
{
    if first {
        return illegal(alloc, 7, line, "if");
    }
    illegal(alloc, 7, line, "elseif")
}

/// Checks an `@keep` line: rules 1, 2, 5 and 7.
pub(crate) fn check_keep(
    alloc: Global,
    reducers: &[TextValue],
    state: State,
    line: u32,
    name: &TextValue,
    expr: &Expr,
) -> Result<State, LegalRefusal>
    ensures { result ≢ Err LegalRefusal.NoMemory → result ≡ keep_checked reducers.now line name.now expr.now state }
{
    let used = reads_of(alloc, expr)?;
    let twice = taken(state.bound.as_slice(), state.sites.as_slice(), name);
    try_names(
        alloc,
        reducers,
        state.scope.as_slice(),
        line,
        used.as_slice(),
        twice,
        None,
    )?;
    let kind = kept_kind(alloc, line, name, expr, &state.kinds)?;
    Ok(bind(alloc, state, Sort::Local, name, Some(&kind))?)
}

/// Checks a `var` or `@init` line, which binds a name of this sort: rule 2.
pub(crate) fn check_binding(
    alloc: Global,
    state: State,
    sort: Sort,
    binding: &Binding,
) -> Result<State, LegalRefusal>
    ensures { result ≢ Err LegalRefusal.NoMemory → result ≡ binding_checked sort binding.now state }
{
    let twice = taken(
        state.bound.as_slice(),
        state.sites.as_slice(),
        &binding.name,
    );
    refuse(alloc, 2, binding.line, twice)?;
    let kind = literal_kind(&binding.value);
    Ok(bind(alloc, state, sort, &binding.name, kind.as_ref())?)
}

/// Checks a `print` line: rule 1.
pub(crate) fn check_print(
    alloc: Global,
    reducers: &[TextValue],
    print: &PrintLine,
) -> Result<(), LegalRefusal>
    ensures { result ≢ Err LegalRefusal.NoMemory → result ≡ print_checked reducers.now print.now }
{
    if !is_in(reducers, &print.name) {
        return Err(illegal(alloc, 1, print.line, print.name.as_str()));
    }
    Ok(())
}
