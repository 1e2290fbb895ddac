//! What a stage other than `Cat` lets through for one element: each is the wrapper of its kind over a [`Taking`].

ghost use Rattle.std.specs.Prelude.{◌≡◌, Some, None, false, IfOk};
ghost use Rattle.std.specs.FinMap.{get};
ghost use Rattle.loop_values.specs.Values.{value_of};
ghost use Rattle.chain_stages.specs.declared.element.Element.{Element};
ghost use Rattle.chain_stages.specs.Cats.{cat_name, is_inner, sets_range};
ghost use Rattle.transducer_kit.specs.Enters.{Enters};
ghost use Rattle.chain_stages.specs.Stages.{alone, filtered, kept, map_splatted, mapped, passes, reduced_if, through, with_value};
ghost use Rattle.loop_meaning.specs.Statements.{with_parts};
ghost use Rattle.transducer_kit.specs.Steps.{let_through};

use crate::actions::{
    into_parts, item_parts, keep_value, map_element, passes, splat_parts, stopped_at,
};
use crate::{
    Filtering, KeepingSomething, MapSplatting, Mapping, PassStop, Reducing, ReducingIf, Taking,
};
use chain_stages::{Doing, Element, Source, Stage, StepEnd, Test};
use loop_data::{Boxed, Expr, Many, TextValue, Value};
use loop_values::eval;
use no_memory::NoMemory;
use std::alloc::Global;

/// An element or none, and the end after it.
type Took = (Option<Boxed<Element>>, StepEnd);

fn take_map(
    alloc: Global,
    line: u32,
    action: &Doing,
    element: Boxed<Element>,
) -> Result<Took, NoMemory>
    requires enters { Enters false element }
    ensures through { IfOk result (λ took. let_through took.0 took.1 ≡ mapped line action.now element) }
    ensures enters { IfOk result (λ took. (e : Element) → took.0 ≡ Some e → Enters (sets_range action.now) e) }
{
    let stage = Mapping::new(
        |e: Boxed<Element>| -> Result<Boxed<Element>, PassStop> {
            map_element(alloc, line, action, e)
        },
        Taking::new(),
    );
    let mut taken = None;
    let end = stage.step(alloc, &mut taken, element)?;
    Ok((taken, end))
}

fn take_parts(
    alloc: Global,
    names: &[TextValue],
    parts: Many<Value>,
    element: Boxed<Element>,
) -> Result<Took, NoMemory>
    requires enters { Enters false element }
    ensures through { IfOk result (λ took. let_through took.0 took.1
        ≡ alone (record element { env = with_parts element.env names.now parts })) }
    ensures enters { IfOk result (λ took. (e : Element) → took.0 ≡ Some e → Enters false e) }
{
    let stage = MapSplatting::new(
        |e: Boxed<Element>, parts: &[Value]| -> Result<Boxed<Element>, PassStop> {
            splat_parts(alloc, names, parts, e)
        },
        Taking::new(),
    );
    let mut taken = None;
    let end = stage.step(alloc, &mut taken, (element, parts))?;
    Ok((taken, end))
}

fn take_splat(
    alloc: Global,
    line: u32,
    names: &[TextValue],
    source: &Source,
    element: Boxed<Element>,
) -> Result<Took, NoMemory>
    requires enters { Enters false element }
    ensures through { IfOk result (λ took. let_through took.0 took.1
        ≡ map_splatted line names.now source.now element) }
    ensures enters { IfOk result (λ took. (e : Element) → took.0 ≡ Some e → Enters false e) }
{
    match source {
        Source::Item => {
            let parts = item_parts(alloc, &element.get().env)?;
            take_parts(alloc, names, parts, element)
        }
        Source::Of(expr) => match eval(alloc, expr, &element.get().env) {
            Err(stop) => Ok((None, stopped_at(line, stop).answer()?)),
            Ok(value) => take_parts(alloc, names, into_parts(alloc, value), element),
        },
    }
}

fn take_filter(
    alloc: Global,
    line: u32,
    test: &Test,
    element: Boxed<Element>,
) -> Result<Took, NoMemory>
    requires enters { Enters false element }
    ensures through { IfOk result (λ took. let_through took.0 took.1
        ≡ filtered line (passes test.now element) element) }
    ensures enters { IfOk result (λ took. (e : Element) → took.0 ≡ Some e → Enters false e) }
{
    let stage = Filtering::new(
        |e: &Boxed<Element>| -> Result<bool, PassStop> { passes(alloc, line, test, e.get()) },
        Taking::new(),
    );
    let mut taken = None;
    let end = stage.step(alloc, &mut taken, element)?;
    Ok((taken, end))
}

fn take_keep(
    alloc: Global,
    line: u32,
    name: &TextValue,
    expr: &Expr,
    element: Boxed<Element>,
) -> Result<Took, NoMemory>
    requires enters { Enters false element }
    ensures through { IfOk result (λ took. let_through took.0 took.1
        ≡ with_value line (value_of expr.now (get element.env)) (kept name.now element)) }
    ensures enters { IfOk result (λ took. (e : Element) → took.0 ≡ Some e → Enters false e) }
{
    let stage = KeepingSomething::new(
        |e: Boxed<Element>| -> Result<Option<Boxed<Element>>, PassStop> {
            keep_value(alloc, line, name, expr, e)
        },
        Taking::new(),
    );
    let mut taken = None;
    let end = stage.step(alloc, &mut taken, element)?;
    Ok((taken, end))
}

fn take_up_to(
    alloc: Global,
    line: u32,
    test: &Test,
    element: Boxed<Element>,
) -> Result<Took, NoMemory>
    requires enters { Enters false element }
    ensures through { IfOk result (λ took. let_through took.0 took.1
        ≡ reduced_if line (passes test.now element) element) }
    ensures enters { IfOk result (λ took. (e : Element) → took.0 ≡ Some e → Enters false e) }
{
    let stage = ReducingIf::new(
        |e: &Boxed<Element>| -> Result<bool, PassStop> { passes(alloc, line, test, e.get()) },
        line,
        Taking::new(),
    );
    let mut taken = None;
    let end = stage.step(alloc, &mut taken, element)?;
    Ok((taken, end))
}

/// What a stage, which is no `Cat`, lets through for one element: an element or none, and the end after it.
pub(crate) fn take_stage(
    alloc: Global,
    stage: &Stage,
    element: Boxed<Element>,
) -> Result<Took, NoMemory>
    requires other { cat_name stage.now ≡ None }
    requires enters { Enters false element }
    ensures through { IfOk result (λ took. let_through took.0 took.1 ≡ through stage.now element) }
    ensures enters { IfOk result (λ took. (e : Element) → took.0 ≡ Some e → Enters (is_inner stage.now) e) }
{
    match stage {
        Stage::Map { line, action } => take_map(alloc, *line, action, element),
        Stage::MapSplat {
            line,
            names,
            source,
        } => take_splat(alloc, *line, names.as_slice(), source, element),
        Stage::Filter { line, test } => take_filter(alloc, *line, test, element),
        Stage::KeepSomething { line, name, expr } => take_keep(alloc, *line, name, expr, element),
        Stage::Cat { .. } => unreachable!(),
        Stage::ReduceIf { line, test } => take_up_to(alloc, *line, test, element),
    }
}
