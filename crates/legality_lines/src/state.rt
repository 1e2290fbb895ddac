//! What the check keeps from line to line.

ghost use Rattle.std.specs.Prelude.{◌≡◌, IfOk, take, Some};
ghost use Rattle.std.specs.Option.{option_copied};
ghost use Rattle.legality_lines.specs.States.{leaving, start, with_each, with_name, with_site};

use legality_rules::{Known, Site, Sort};
use loop_data::{Many, TextValue, ValueKind};
use loop_values::Types;
use no_memory::NoMemory;
use std::alloc::Global;

/// What the lines so far bind and reduce into, and what is in scope.
#[derive(Debug, Drop)]
pub(crate) struct State {
    /// The names that they bind, reducers aside.
    pub bound: Many<TextValue>,
    /// Their `@reduce` lines.
    pub sites: Many<Site>,
    /// The names in scope.
    pub scope: Many<Known>,
    /// The kinds of the names in scope, and of some that are no longer.
    pub kinds: Types,
}

impl State {
    /// Before the first line.
    pub(crate) fn new(alloc: Global) -> State
        ensures { result ≡ start }
    {
        State {
            bound: Many::new(alloc),
            sites: Many::new(alloc),
            scope: Many::new(alloc),
            kinds: Types::new(alloc),
        }
    }
}

fn copy_kind(alloc: Global, kind: Option<&ValueKind>) -> Result<Option<ValueKind>, NoMemory>
    ensures { IfOk result (λ k. k ≡ option_copied kind.entry) }
{
    match kind {
        None => Ok(None),
        Some(kind) => Ok(Some(kind.copy(alloc)?)),
    }
}

/// Binds a name, with its kind where it has one.
pub(crate) fn bind(
    alloc: Global,
    mut state: State,
    sort: Sort,
    name: &TextValue,
    kind: Option<&ValueKind>,
) -> Result<State, NoMemory>
    ensures { IfOk result (λ s. s ≡ with_name sort name.now (option_copied kind.entry) state) }
{
    state.bound.push(alloc, name.copy(alloc)?)?;
    let known = Known {
        name: name.copy(alloc)?,
        sort,
        kind: copy_kind(alloc, kind)?,
    };
    state.scope.push(alloc, known)?;
    if let Some(kind) = kind {
        state.kinds.set(alloc, name.as_str(), kind.copy(alloc)?)?;
    }
    Ok(state)
}

/// Binds names with these kinds one by one.
pub(crate) fn bind_each(
    alloc: Global,
    state: State,
    sort: Sort,
    names: &[TextValue],
    kinds: &[ValueKind],
) -> Result<State, NoMemory>
    ensures { IfOk result (λ s. s ≡ with_each sort names.now kinds.now state) }
{
    let mut state = state;
    for (i, name) in names.iter().enumerate() {
        state = bind(alloc, state, sort, name, kinds.get(i))?;
    }
    Ok(state)
}

/// Keeps an `@reduce` line.
pub(crate) fn add_site(alloc: Global, mut state: State, site: Site) -> Result<State, NoMemory>
    ensures { IfOk result (λ s. s ≡ with_site site state) }
{
    state.sites.push(alloc, site)?;
    Ok(state)
}

/// Leaves a block, before which this many names were in scope.
pub(crate) fn leave(state: State, known: usize) -> State
    ensures { result ≡ leaving known state }
{
    let State {
        bound,
        sites,
        scope,
        kinds,
    } = state;
    let mut inside = scope.into_vec();
    inside.truncate(known);
    State {
        bound,
        sites,
        scope: Many::from_vec(inside),
        kinds,
    }
}
