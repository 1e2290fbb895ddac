//! What the rules ask of an `@reduce` line, and of the first of its name.

ghost use Rattle.std.specs.Prelude.{◌≡◌, IfOk, Some};
ghost use Rattle.std.specs.FinMap.{get};
ghost use Rattle.std.specs.Option.{option_copied};
ghost use Rattle.legality_rules.specs.Rules.{allowed, inputs_fit, site_differs};
ghost use Rattle.legality_rules.specs.Towers.{input_kinds, inputs_differ, takes_start};
ghost use Rattle.legality_kinds.specs.Sites.{first_site, is_only_kind, is_other, may_start, site_of};

use crate::kinds::literal_kind;
use legality_rules::Site;
use loop_data::{Kind, Many, TextValue, TowerExpr, Value, ValueKind};
use loop_values::{TypeStop, Types, is_same_kind};
use no_memory::NoMemory;
use std::alloc::Global;
use tower_inputs::{are_same_kinds, is_same_tower, kind_of_tower, types_of_input};

/// The kinds of a tower's expressions from left to right, where each has one that it takes.
fn input_kinds(
    alloc: Global,
    tower: &TowerExpr,
    kinds: &Types,
) -> Result<Option<Many<ValueKind>>, NoMemory>
    ensures { IfOk result (λ xs. xs ≡ input_kinds tower.now (get kinds.now)) }
{
    match types_of_input(alloc, tower, kinds) {
        Ok(inputs) => Ok(Some(inputs)),
        Err(TypeStop::Differs) => Ok(None),
        Err(TypeStop::NoMemory) => Err(NoMemory),
    }
}

/// What an `@reduce` line reduces into.
pub fn site_of(
    alloc: Global,
    name: &TextValue,
    tower: &TowerExpr,
    kinds: &Types,
) -> Result<Site, NoMemory>
    ensures { IfOk result (λ site. site ≡ site_of name.now tower.now (get kinds.now)) }
{
    let name = name.copy(alloc)?;
    let inputs = input_kinds(alloc, tower, kinds)?;
    let tower = kind_of_tower(alloc, tower)?;
    Ok(Site {
        name,
        tower,
        inputs,
    })
}

/// The first of the `@reduce` lines that reduces into the name.
pub fn first_site<'a>(sites: &'a [Site], name: &TextValue) -> Option<&'a Site>
    ensures { option_copied result ≡ first_site name.now sites.now }
{
    for site in sites {
        if *name == site.name {
            return Some(site);
        }
    }
    None
}

fn inputs_differ(a: &Option<Many<ValueKind>>, b: &Option<Many<ValueKind>>) -> bool
    ensures { result ≡ inputs_differ a.now b.now }
{
    match a {
        Some(a) => match b {
            Some(b) => !are_same_kinds(a.as_slice(), b.as_slice()),
            None => false,
        },
        None => false,
    }
}

/// Whether a line has another tower, or inputs of other kinds.
fn site_differs(site: &Site, first: &Site) -> bool
    ensures { result ≡ site_differs site.now first.now }
{
    !is_same_tower(&site.tower, &first.tower) || inputs_differ(&site.inputs, &first.inputs)
}

/// Whether it has another tower, or inputs of other kinds, than the first line of its name, where there is one.
pub fn is_other(site: &Site, first: Option<&Site>) -> bool
    ensures { result ≡ is_other site.now (option_copied first.entry) }
{
    match first {
        Some(first) => site_differs(site, first),
        None => false,
    }
}

/// Whether `from` may follow a tower of this kind.
fn takes_start(kind: &Kind) -> bool
    ensures { result ≡ takes_start kind.now }
{
    !matches!(
        kind,
        Kind::Count | Kind::LeastAt | Kind::GreatestAt | Kind::Grouped(_) | Kind::Both(_, _)
    )
}

/// Whether `from` may stand on a line: on the first of its name, behind a tower that takes a start value.
pub fn may_start(first: Option<&Site>, tower: &Kind) -> bool
    ensures { result ≡ may_start (option_copied first.entry) tower.now }
{
    first.is_none() && takes_start(tower)
}

/// Whether these are the kinds of one input, of this kind.
fn is_kind_of(kind: &ValueKind, inputs: &[ValueKind]) -> bool
    ensures { result ≡ is_only_kind kind.now inputs.now }
{
    inputs.len() == 1 && is_same_kind(kind, &inputs[0])
}

/// Whether the inputs have kinds that the tower takes, and a start value that may stand there has the input's kind.
pub fn inputs_fit(start: Option<&Value>, may: bool, inputs: &Option<Many<ValueKind>>) -> bool
    ensures { result ≡ inputs_fit (allowed (option_copied start.entry) may) inputs.now }
{
    match inputs {
        None => false,
        Some(inputs) => match start {
            Some(start) if may => starts_fit(start, inputs.as_slice()),
            _ => true,
        },
    }
}

/// Whether a start value has the kind of the one input.
fn starts_fit(start: &Value, inputs: &[ValueKind]) -> bool
    ensures { result ≡ inputs_fit (Some start.now) (Some inputs.now) }
{
    match literal_kind(start) {
        Some(kind) => is_kind_of(&kind, inputs),
        None => false,
    }
}
