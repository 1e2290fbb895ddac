//! The check of an `@reduce` line.

ghost use Rattle.std.specs.Prelude.{◌≡◌, ◌≢◌, Err};
ghost use Rattle.std.specs.Option.{option_copied};
ghost use Rattle.legality_lines.specs.ReduceChecks.{reduce_checked};

use crate::state::{State, add_site};
use legality_kinds::{first_site, inputs_fit, is_other, may_start, site_of};
use legality_names::{illegal, one_of, tower_reads, try_names};
use legality_rules::LegalRefusal;
use loop_data::{TextValue, TowerExpr, Value};
use std::alloc::Global;
use tower_inputs::MOST_SITES;

/// Checks an `@reduce` line: rules 1, 2, 5, 6, 7, 8 and 10.
pub(crate) fn check_reduce(
    alloc: Global,
    reducers: &[TextValue],
    state: State,
    line: u32,
    name: &TextValue,
    tower: &TowerExpr,
    start: Option<&Value>,
) -> Result<State, LegalRefusal>
    ensures { result ≢ Err LegalRefusal.NoMemory →
        result ≡ reduce_checked reducers.now line name.now tower.now (option_copied start.entry) state }
{
    let used = tower_reads(alloc, tower)?;
    let twice = one_of(state.bound.as_slice(), name);
    try_names(
        alloc,
        reducers,
        state.scope.as_slice(),
        line,
        used.as_slice(),
        twice,
        None,
    )?;
    let site = site_of(alloc, name, tower, &state.kinds)?;
    let first = first_site(state.sites.as_slice(), name);
    if is_other(&site, first) {
        return Err(illegal(alloc, 6, line, name.as_str()));
    }
    let may = may_start(first, &site.tower);
    if !inputs_fit(start, may, &site.inputs) {
        return Err(illegal(alloc, 7, line, name.as_str()));
    }
    if start.is_some() && !may {
        return Err(illegal(alloc, 8, line, name.as_str()));
    }
    if state.sites.len() == MOST_SITES {
        return Err(illegal(alloc, 10, line, name.as_str()));
    }
    Ok(add_site(alloc, state, site)?)
}
