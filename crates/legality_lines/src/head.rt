//! The check of the `for` line. Its heads stand on one line, so each rule is tried on all of them before the next.

ghost use Rattle.std.specs.Prelude.{◌≡◌, ◌≢◌, Err, IfOk};
ghost use Rattle.std.specs.List.{list_all};
ghost use Rattle.std.specs.FinMap.{get};
ghost use Rattle.std.specs.Option.{option_copied};
ghost use Rattle.legality_lines.specs.HeadChecks.{bound_head_checked, bounds_checked, head_bound, head_checked};
ghost use Rattle.legality_lines.specs.HeadChecks.{inner_bounds_checked, inner_checked, keeps_kinds, known_head_checked};
ghost use Rattle.legality_lines.specs.HeadChecks.{one_inner_checked, reducers_refused, unknown_refused, with_pattern};
ghost use Rattle.legality_lines.specs.Kinds.{is_splittable_in};

use crate::state::{State, bind, bind_each};
use legality_kinds::{are_ints, item_kind, pattern_kinds, takes_items};
use legality_names::{
    bounds_of, first_among, first_bounds, head_names, illegal, inner_bounds, mistyped,
    reads_of_each, refuse, repeated, sort_in, unknown,
};
use legality_rules::{Known, LegalRefusal, Sort};
use loop_data::{Expr, HeadLine, Inner, TextValue, ValueKind};
use loop_values::Types;
use no_memory::NoMemory;
use std::alloc::Global;

/// Binds the names of the first head's pattern.
fn bind_pattern(
    alloc: Global,
    state: State,
    names: &[TextValue],
    kind: Option<ValueKind>,
) -> Result<State, NoMemory>
    ensures { IfOk result (λ s. s ≡ with_pattern names.now kind state) }
{
    let kinds = pattern_kinds(alloc, names, kind)?;
    bind_each(alloc, state, Sort::LoopVariable, names, kinds.as_slice())
}

/// Binds the names of inner heads, whose items are Int. Refused by rule 1 where a bound reads a name that isn't in scope.
fn check_inner(
    alloc: Global,
    reducers: &[TextValue],
    state: State,
    line: u32,
    heads: &[Inner],
) -> Result<State, LegalRefusal>
    ensures { result ≢ Err LegalRefusal.NoMemory → result ≡ inner_checked reducers.now line heads.now state }
{
    let mut state = state;
    for head in heads {
        state = check_one_inner(alloc, reducers, state, line, head)?;
    }
    Ok(state)
}

fn check_one_inner(
    alloc: Global,
    reducers: &[TextValue],
    state: State,
    line: u32,
    head: &Inner,
) -> Result<State, LegalRefusal>
    ensures { result ≢ Err LegalRefusal.NoMemory → result ≡ one_inner_checked reducers.now line head.now state }
{
    let bounds = bounds_of(alloc, &head.range)?;
    let used = reads_of_each(alloc, bounds.as_slice())?;
    refuse(
        alloc,
        1,
        line,
        unknown(reducers, state.scope.as_slice(), used.as_slice()),
    )?;
    Ok(bind(
        alloc,
        state,
        Sort::LoopVariable,
        &head.name,
        Some(&ValueKind::Int),
    )?)
}

/// Whether a bound is a literal or an outer variable.
fn is_splittable(scope: &[Known], expr: &Expr) -> bool
    ensures { result ≡ is_splittable_in scope.now expr.now }
{
    match expr {
        Expr::Lit(_) => true,
        Expr::Name(name) => matches!(sort_in(scope, name), Some(Sort::Variable)),
        _ => false,
    }
}

/// Whether all bounds are literals or outer variables.
fn are_splittable(scope: &[Known], exprs: &[Expr]) -> bool
    ensures { result ≡ list_all (is_splittable_in scope.now) exprs.now }
{
    for expr in exprs {
        if !is_splittable(scope, expr) {
            return false;
        }
    }
    true
}

/// Whether the pattern takes the items, and all bounds are Int.
fn keeps_kinds(
    alloc: Global,
    fits: bool,
    first: &[Expr],
    inner: &[Expr],
    kinds: &Types,
) -> Result<bool, NoMemory>
    ensures { IfOk result (λ b. b ≡ keeps_kinds fits first.now inner.now (get kinds.now)) }
{
    Ok(fits && are_ints(alloc, first, kinds)? && are_ints(alloc, inner, kinds)?)
}

/// Tries the rules on the kinds and the bounds of the `for` line, told whether the pattern takes the items and whether the
/// bounds of the first head are literals or outer variables: rules 7 and 9.
fn check_bounds(
    alloc: Global,
    state: State,
    head: &HeadLine,
    first: &[Expr],
    inner: &[Expr],
    fits: bool,
    splittable: bool,
) -> Result<State, LegalRefusal>
    ensures { result ≢ Err LegalRefusal.NoMemory → result ≡ bounds_checked head.now first.now inner.now fits splittable state }
{
    let names = head.names.as_slice();
    if !keeps_kinds(alloc, fits, first, inner, &state.kinds)? {
        return Err(mistyped(alloc, head.line, names));
    }
    if !splittable {
        return Err(illegal(alloc, 9, head.line, "for"));
    }
    Ok(state)
}

/// Refuses a `for` line whose bounds read a reducer: rule 5.
fn refuse_reducers(
    alloc: Global,
    reducers: &[TextValue],
    line: u32,
    bounds: &[Expr],
) -> Result<(), LegalRefusal>
    ensures { result ≢ Err LegalRefusal.NoMemory → result ≡ reducers_refused reducers.now line bounds.now }
{
    let used = reads_of_each(alloc, bounds)?;
    refuse(alloc, 5, line, first_among(reducers, used.as_slice()))
}

/// Tries what is left behind the first head's reducers: rules 5, 7 and 9.
fn check_inner_bounds(
    alloc: Global,
    reducers: &[TextValue],
    state: State,
    head: &HeadLine,
    first: &[Expr],
    fits: bool,
    splittable: bool,
) -> Result<State, LegalRefusal>
    ensures { result ≢ Err LegalRefusal.NoMemory →
        result ≡ inner_bounds_checked reducers.now head.now first.now fits splittable state }
{
    let inner = inner_bounds(alloc, head.inner.as_slice())?;
    refuse_reducers(alloc, reducers, head.line, inner.as_slice())?;
    check_bounds(
        alloc,
        state,
        head,
        first,
        inner.as_slice(),
        fits,
        splittable,
    )
}

/// Tries the rules behind the first on the `for` line, whose names are bound by now, told the leftmost name that it binds
/// twice: rules 2, 5, 7 and 9.
fn check_bound_head(
    alloc: Global,
    reducers: &[TextValue],
    state: State,
    head: &HeadLine,
    twice: Option<&TextValue>,
    fits: bool,
    splittable: bool,
) -> Result<State, LegalRefusal>
    ensures { result ≢ Err LegalRefusal.NoMemory →
        result ≡ bound_head_checked reducers.now head.now (option_copied twice.entry) fits splittable state }
{
    refuse(alloc, 2, head.line, twice)?;
    let first = first_bounds(alloc, head.axes.as_slice())?;
    refuse_reducers(alloc, reducers, head.line, first.as_slice())?;
    check_inner_bounds(
        alloc,
        reducers,
        state,
        head,
        first.as_slice(),
        fits,
        splittable,
    )
}

/// Refuses a `for` line whose first head reads a name that isn't in scope: rule 1.
fn refuse_unknown(
    alloc: Global,
    reducers: &[TextValue],
    state: &State,
    line: u32,
    bounds: &[Expr],
) -> Result<(), LegalRefusal>
    ensures { result ≢ Err LegalRefusal.NoMemory → result ≡ unknown_refused reducers.now line bounds.now state.now }
{
    let used = reads_of_each(alloc, bounds)?;
    refuse(
        alloc,
        1,
        line,
        unknown(reducers, state.scope.as_slice(), used.as_slice()),
    )
}

/// Binds the names of all heads, told the kind of the first head's items. Refused by rule 1 where a bound of an inner head reads
/// a name that isn't in scope.
fn bind_head(
    alloc: Global,
    reducers: &[TextValue],
    state: State,
    head: &HeadLine,
    kind: Option<ValueKind>,
) -> Result<State, LegalRefusal>
    ensures { result ≢ Err LegalRefusal.NoMemory → result ≡ head_bound reducers.now head.now kind state }
{
    let state = bind_pattern(alloc, state, head.names.as_slice(), kind)?;
    check_inner(alloc, reducers, state, head.line, head.inner.as_slice())
}

/// Binds the names of the `for` line, and tries all rules but the first of the first head on it.
fn check_known_head(
    alloc: Global,
    reducers: &[TextValue],
    state: State,
    head: &HeadLine,
    first: &[Expr],
) -> Result<State, LegalRefusal>
    ensures { result ≢ Err LegalRefusal.NoMemory → result ≡ known_head_checked reducers.now head.now first.now state }
{
    let all_names = head_names(alloc, head)?;
    let twice = repeated(
        state.bound.as_slice(),
        state.sites.as_slice(),
        all_names.as_slice(),
    );
    let splittable = are_splittable(state.scope.as_slice(), first);
    let kind = item_kind(alloc, head.product, head.axes.as_slice())?;
    let fits = takes_items(head.names.as_slice(), kind.as_ref());
    let state = bind_head(alloc, reducers, state, head, kind)?;
    check_bound_head(alloc, reducers, state, head, twice, fits, splittable)
}

/// Checks the `for` line: rules 1, 2, 5, 7 and 9.
pub(crate) fn check_head(
    alloc: Global,
    reducers: &[TextValue],
    state: State,
    head: &HeadLine,
) -> Result<State, LegalRefusal>
    ensures { result ≢ Err LegalRefusal.NoMemory → result ≡ head_checked reducers.now head.now state }
{
    let first = first_bounds(alloc, head.axes.as_slice())?;
    refuse_unknown(alloc, reducers, &state, head.line, first.as_slice())?;
    check_known_head(alloc, reducers, state, head, first.as_slice())
}
