//! What the stages' closures do with one element.

ghost use Rattle.std.specs.Prelude.{◌≡◌, Err, false, true, IfOk, OnErr, OnOk};
ghost use Rattle.std.specs.FinMap.{get};
ghost use Rattle.loop_data.specs.ValueParts.{parts_of};
ghost use Rattle.loop_values.specs.InnerItems.{inner_limit};
ghost use Rattle.loop_values.specs.Values.{value_of};
ghost use Rattle.loop_meaning.specs.Statements.{with_parts};
ghost use Rattle.chain_stages.specs.declared.element.Element.{Element};
ghost use Rattle.chain_stages.specs.declared.stages.Doing.TheVariants.{Bind, Inner, Block, Rest};
ghost use Rattle.chain_stages.specs.Elements.{item_name, run_of};
ghost use Rattle.chain_stages.specs.Cats.{sets_range};
ghost use Rattle.transducer_kit.specs.Enters.{Enters, EntersIfSome};
ghost use Rattle.chain_stages.specs.Stages.{after_run, kept, mapped, or_nothing, passes, truth, with_value};
ghost use Rattle.transducer_kit.specs.Steps.{stopped_at, Leaves, LeavesSome, Makes, MakesSome, Tells};

use crate::PassStop;
use chain_stages::{Doing, Element, Mark, Test};
use loop_data::{Boxed, Expr, Many, RangeExpr, Statement, TextValue, Value};
use loop_meaning::{BodyRun, Flow, run_block, run_statement};
use loop_values::{Env, EvalStop, eval, eval_range};
use no_memory::NoMemory;
use std::alloc::Global;

/// The name of an item that a pattern of several names takes apart, which no line can spell.
const ITEM: &str = "@item";

/// How a closure stops where an expression of this line has no value.
pub(crate) fn stopped_at(line: u32, stop: EvalStop) -> PassStop
    ensures { result ≡ stopped_at line stop }
{
    match stop {
        EvalStop::NoMemory => PassStop::NoMemory,
        _ => PassStop::Fault {
            line,
            kind: stop.number(),
        },
    }
}

// ---- Map

/// Binds the expression's value to the name.
fn bind_value(
    alloc: Global,
    line: u32,
    name: &TextValue,
    expr: &Expr,
    element: &mut Element,
) -> Result<(), PassStop>
    ensures leaves { Leaves (mapped line (Bind name.now expr.now) element.old) result element.new }
    ensures width { OnOk result (element.new.width ≡ element.old.width) }
    ensures inner { OnOk result (element.new.inner ≡ element.old.inner) }
{
    match eval(alloc, expr, &element.env) {
        Err(stop) => Err(stopped_at(line, stop)),
        Ok(value) => {
            element.env.bind(alloc, name.as_str(), value)?;
            Ok(())
        }
    }
}

/// Sets the inner range.
fn set_range(
    alloc: Global,
    line: u32,
    range: &RangeExpr,
    element: &mut Element,
) -> Result<(), PassStop>
    requires enters { Enters false element.old }
    ensures leaves { (name : _) → Leaves (mapped line (Inner name range.now) element.old) result element.new }
    ensures enters { OnOk result (Enters true element.new) }
{
    match eval_range(alloc, range, &element.env, element.width) {
        Err(stop) => Err(stopped_at(line, stop)),
        Ok(inner) => {
            element.inner = inner;
            Ok(())
        }
    }
}

/// Leaves the element where a body run left it; or its fault.
fn after_run(run: BodyRun, element: &mut Element) -> Result<(), PassStop>
    ensures leaves { (e : Element) → e.width ≡ element.old.width → e.inner ≡ element.old.inner →
        Leaves (after_run run e) result element.new }
    ensures width { OnOk result (element.new.width ≡ element.old.width) }
    ensures inner { OnOk result (element.new.inner ≡ element.old.inner) }
{
    let BodyRun {
        names,
        emitted,
        flow,
    } = run;
    let mark = match flow {
        Flow::Going => Mark::Going,
        Flow::Continued => Mark::Ended,
        Flow::Broke { line: _ } => Mark::Broke,
        Flow::Faulted { line, kind } => return Err(PassStop::Fault { line, kind }),
    };
    element.env = names;
    element.mark = mark;
    element.emitted = emitted;
    Ok(())
}

/// Runs a statement, whose pairs don't count.
fn do_statement(
    alloc: Global,
    line: u32,
    statement: &Statement,
    element: &mut Element,
) -> Result<(), PassStop>
    ensures leaves { Leaves (mapped line (Block statement.now) element.old) result element.new }
    ensures width { OnOk result (element.new.width ≡ element.old.width) }
    ensures inner { OnOk result (element.new.inner ≡ element.old.inner) }
{
    let names = std::mem::replace(&mut element.env, Env::new(alloc));
    let mut run = BodyRun {
        names,
        emitted: Many::new(alloc),
        flow: Flow::Going,
    };
    run_statement(alloc, statement, &mut run)?;
    run.emitted = std::mem::replace(&mut element.emitted, Many::new(alloc));
    after_run(run, element)
}

/// Runs statements, and puts what they emit behind the element's pairs.
fn do_rest(
    alloc: Global,
    line: u32,
    statements: &[Statement],
    element: &mut Element,
) -> Result<(), PassStop>
    ensures leaves { Leaves (mapped line (Rest statements.now) element.old) result element.new }
    ensures width { OnOk result (element.new.width ≡ element.old.width) }
    ensures inner { OnOk result (element.new.inner ≡ element.old.inner) }
{
    let names = std::mem::replace(&mut element.env, Env::new(alloc));
    let emitted = std::mem::replace(&mut element.emitted, Many::new(alloc));
    let mut run = BodyRun {
        names,
        emitted,
        flow: Flow::Going,
    };
    run_block(alloc, statements, &mut run)?;
    after_run(run, element)
}

/// Does to an element what a `Map` does.
fn do_map(alloc: Global, line: u32, action: &Doing, element: &mut Element) -> Result<(), PassStop>
    requires enters { Enters false element.old }
    ensures leaves { Leaves (mapped line action.now element.old) result element.new }
    ensures enters { OnOk result (Enters (sets_range action.now) element.new) }
{
    match action {
        Doing::Bind { name, expr } => bind_value(alloc, line, name, expr, element),
        Doing::Inner { name: _, range } => set_range(alloc, line, range, element),
        Doing::Block { statement } => do_statement(alloc, line, statement, element),
        Doing::Rest { statements } => do_rest(alloc, line, statements.as_slice(), element),
    }
}

/// What a `Map` makes of an element.
pub(crate) fn map_element(
    alloc: Global,
    line: u32,
    action: &Doing,
    element: Boxed<Element>,
) -> Result<Boxed<Element>, PassStop>
    requires enters { Enters false element }
    ensures makes { Makes (mapped line action.now element) result }
    ensures enters { IfOk result (Enters (sets_range action.now)) }
{
    let mut element = element;
    do_map(alloc, line, action, element.get_mut())?;
    Ok(element)
}

// ---- MapSplat

/// The parts of the tuple that a value is, or none.
pub(crate) fn into_parts(alloc: Global, value: Value) -> Many<Value>
    ensures { result ≡ parts_of value }
{
    match value {
        Value::Tuple(parts) => parts,
        _ => Many::new(alloc),
    }
}

/// The parts of the item.
pub(crate) fn item_parts(alloc: Global, env: &Env) -> Result<Many<Value>, NoMemory>
    ensures { IfOk result (λ parts. parts ≡ parts_of (or_nothing (get env.now item_name))) }
{
    match env.get(ITEM) {
        None => Ok(Many::new(alloc)),
        Some(item) => Ok(into_parts(alloc, item.copy(alloc)?)),
    }
}

/// Binds each name to its part, up to the shorter end.
fn bind_parts(
    alloc: Global,
    names: &[TextValue],
    parts: &[Value],
    env: &mut Env,
) -> Result<(), NoMemory>
    ensures { OnOk result (env.new ≡ with_parts env.old names.now parts.now) }
{
    for (name, part) in names.iter().zip(parts) {
        env.bind(alloc, name.as_str(), part.copy(alloc)?)?;
    }
    Ok(())
}

/// The element with each name bound to its part, up to the shorter end.
pub(crate) fn splat_parts(
    alloc: Global,
    names: &[TextValue],
    parts: &[Value],
    element: Boxed<Element>,
) -> Result<Boxed<Element>, PassStop>
    ensures splatted { IfOk result (λ e. e ≡ record element { env = with_parts element.env names.now parts.now }) }
    ensures memory { OnErr result (result ≡ Err PassStop.NoMemory) }
{
    let mut element = element;
    bind_parts(alloc, names, parts, &mut element.get_mut().env)?;
    Ok(element)
}

// ---- KeepSomething

/// Binds the expression's value to the name, and answers whether it is something; where it isn't, nothing is bound.
fn do_keep(
    alloc: Global,
    line: u32,
    name: &TextValue,
    expr: &Expr,
    element: &mut Element,
) -> Result<bool, PassStop>
    ensures leaves { LeavesSome (with_value line (value_of expr.now (get element.old.env)) (kept name.now element.old))
        result element.new }
    ensures width { OnOk result (element.new.width ≡ element.old.width) }
    ensures inner { OnOk result (element.new.inner ≡ element.old.inner) }
{
    match eval(alloc, expr, &element.env) {
        Err(stop) => Err(stopped_at(line, stop)),
        Ok(Value::Nothing) => Ok(false),
        Ok(value) => {
            element.env.bind(alloc, name.as_str(), value)?;
            Ok(true)
        }
    }
}

/// The element with the expression's value under the name; none where it is nothing.
pub(crate) fn keep_value(
    alloc: Global,
    line: u32,
    name: &TextValue,
    expr: &Expr,
    element: Boxed<Element>,
) -> Result<Option<Boxed<Element>>, PassStop>
    requires enters { Enters false element }
    ensures enters { IfOk result EntersIfSome }
    ensures makes { MakesSome (with_value line (value_of expr.now (get element.env)) (kept name.now element)) result }
{
    let mut element = element;
    let some = do_keep(alloc, line, name, expr, element.get_mut())?;
    if some { Ok(Some(element)) } else { Ok(None) }
}

// ---- Filter and ReduceIf

/// Whether an expression is true.
fn truth(alloc: Global, line: u32, expr: &Expr, env: &Env) -> Result<bool, PassStop>
    ensures { Tells line (truth (value_of expr.now (get env.now))) result }
{
    match eval(alloc, expr, env) {
        Err(stop) => Err(stopped_at(line, stop)),
        Ok(value) => Ok(value.as_bool()),
    }
}

/// Whether an element passes the test of a stage of this line.
pub(crate) fn passes(
    alloc: Global,
    line: u32,
    test: &Test,
    element: &Element,
) -> Result<bool, PassStop>
    ensures { Tells line (passes test.now element.now) result }
{
    match test {
        Test::If(expr) => truth(alloc, line, expr, &element.env),
        Test::IfNot(expr) => Ok(!truth(alloc, line, expr, &element.env)?),
        Test::Broke => Ok(matches!(element.mark, Mark::Broke)),
        Test::Going => Ok(matches!(element.mark, Mark::Going)),
        Test::Always => Ok(true),
        Test::Never => Ok(false),
    }
}
