//! The reducers of a program and the inputs of each.

ghost use Rattle.std.specs.Prelude.{◌≡◌, ◌++◌, ◌∷◌, [], IfOk, OnOk, map, if◌then◌else◌};
ghost use Rattle.std.specs.List.{list_any};
ghost use Rattle.std.specs.Option.{option_copied};
ghost use Rattle.std.specs.Str.{bytes_eq};
ghost use Rattle.loop_data.specs.declared.statement.Statement.{Statement};
ghost use Rattle.loop_data.specs.declared.statement.Branch.{Branch};
ghost use Rattle.loop_meaning.specs.Chosen.{with_name};
ghost use Rattle.loop_meaning.specs.Reducers.{all_sites, sites_in, sites_in_branch, sites_of, each_once, start_among};
ghost use Rattle.loop_meaning.specs.Reducers.{emitted_under, inputs_among, named_among, end_of_run, plain_end};

use crate::runs::loop_run;
use crate::stores::start_store;
use crate::{ItemList, Named, Pair, PlainEnd, Run};
use loop_data::{Branch, Many, Statement, TextValue, Value, copy_start};
use loop_grammar::ProgramTree;
use loop_syntax::Program;
use no_memory::NoMemory;
use std::alloc::Global;

/// An `@reduce` line: the reducer's name and the value after `from`.
#[derive(Debug, PartialEq, Eq, Drop)]
pub struct Site {
    pub name: TextValue,
    pub start: Option<Value>,
}

fn push_site(
    alloc: Global,
    name: &TextValue,
    start: &Option<Value>,
    sites: &mut Many<Site>,
) -> Result<(), NoMemory>
    ensures { OnOk result (sites.new
        ≡ sites.old ++ record { name = name.now; start = start.now } ∷ []) }
{
    let name = name.copy(alloc)?;
    let start = copy_start(alloc, start)?;
    sites.push(alloc, Site { name, start })
}

#[cycle(sites)]
fn push_sites_in(
    alloc: Global,
    statement: &Statement,
    sites: &mut Many<Site>,
) -> Result<(), NoMemory>
    ensures { OnOk result (sites.new ≡ sites.old ++ sites_in statement.now) }
{
    match statement {
        Statement::If {
            line: _,
            branches,
            else_line: _,
            other,
            end_line: _,
        } => {
            push_branches(alloc, branches.as_slice(), sites)?;
            push_block(alloc, other.as_slice(), sites)
        }
        Statement::Reduce {
            line: _,
            name,
            tower: _,
            start,
        } => push_site(alloc, name, start, sites),
        _ => Ok(()),
    }
}

#[cycle(sites)]
fn push_branches(alloc: Global, branches: &[Branch], sites: &mut Many<Site>) -> Result<(), NoMemory>
    ensures { OnOk result (sites.new ≡ sites.old ++ all_sites (map sites_in_branch branches.now)) }
{
    for branch in branches {
        push_block(alloc, branch.block.as_slice(), sites)?;
    }
    Ok(())
}

#[cycle(sites)]
fn push_block(alloc: Global, block: &[Statement], sites: &mut Many<Site>) -> Result<(), NoMemory>
    ensures { OnOk result (sites.new ≡ sites.old ++ all_sites (map sites_in block.now)) }
{
    for statement in block {
        push_sites_in(alloc, statement, sites)?;
    }
    Ok(())
}

/// The `@reduce` lines of a program, by rising lines.
fn sites_of(alloc: Global, program: &ProgramTree) -> Result<Many<Site>, NoMemory>
    ensures { IfOk result (λ sites. sites ≡ sites_of program.now) }
{
    let mut sites = Many::new(alloc);
    push_block(alloc, program.body.as_slice(), &mut sites)?;
    Ok(sites)
}

/// Whether a name stands among these.
fn contains(names: &[TextValue], name: &TextValue) -> bool
    ensures { result ≡ list_any (λ m. bytes_eq m name.now) names.now }
{
    for other in names {
        if other.as_str() == name.as_str() {
            return true;
        }
    }
    false
}

/// Puts a name behind the others, unless it is there already.
fn add_name(alloc: Global, names: &mut Many<TextValue>, name: &TextValue) -> Result<(), NoMemory>
    ensures { OnOk result (names.new ≡ with_name names.old name.now) }
{
    if contains(names.as_slice(), name) {
        return Ok(());
    }
    names.push(alloc, name.copy(alloc)?)
}

/// The names of these lines, each once, in the order of their first lines.
fn names_once(alloc: Global, sites: &[Site]) -> Result<Many<TextValue>, NoMemory>
    ensures { IfOk result (λ names. names ≡ each_once (map (λ site. site.name) sites.now)) }
{
    let mut names = Many::new(alloc);
    for site in sites {
        add_name(alloc, &mut names, &site.name)?;
    }
    Ok(names)
}

/// The value after `from` on the first of these lines that has this name.
fn start_among<'a>(sites: &'a [Site], name: &TextValue) -> Option<&'a Value>
    ensures { option_copied result ≡ start_among sites.now name.now }
{
    for site in sites {
        if site.name.as_str() == name.as_str() {
            return site.start.as_ref();
        }
    }
    None
}

/// The inputs of a name: its start value, where it has one, and then all that was emitted under it, in order.
fn inputs_among(
    alloc: Global,
    sites: &[Site],
    emitted: &[Pair],
    name: &TextValue,
) -> Result<Many<Value>, NoMemory>
    ensures { IfOk result (λ inputs. inputs ≡ inputs_among sites.now emitted.now name.now) }
{
    let mut inputs = Many::new(alloc);
    if let Some(start) = start_among(sites, name) {
        inputs.push(alloc, start.copy(alloc)?)?;
    }
    push_emitted(alloc, emitted, name, &mut inputs)?;
    Ok(inputs)
}

/// Puts what was emitted under a name behind these inputs, in order.
fn push_emitted(
    alloc: Global,
    emitted: &[Pair],
    name: &TextValue,
    inputs: &mut Many<Value>,
) -> Result<(), NoMemory>
    ensures { OnOk result (inputs.new ≡ inputs.old ++ emitted_under name.now emitted.now) }
{
    for one in emitted {
        if one.name.as_str() == name.as_str() {
            inputs.push(alloc, one.input.copy(alloc)?)?;
        }
    }
    Ok(())
}

/// How a run ended, with the inputs of each reducer.
fn end_of_run(alloc: Global, program: &ProgramTree, run: &Run) -> Result<PlainEnd, NoMemory>
    ensures { IfOk result (λ end. end ≡ end_of_run program.now run.now) }
{
    let sites = sites_of(alloc, program)?;
    let names = names_once(alloc, sites.as_slice())?;
    let inputs = named_inputs(
        alloc,
        sites.as_slice(),
        run.emitted.as_slice(),
        names.as_slice(),
    )?;
    Ok(PlainEnd {
        stop: run.stop,
        inputs,
        skipped: run.skipped,
    })
}

/// The inputs of each of these names.
fn named_inputs(
    alloc: Global,
    sites: &[Site],
    emitted: &[Pair],
    names: &[TextValue],
) -> Result<Many<Named>, NoMemory>
    ensures { IfOk result (λ all. all ≡ map (named_among sites.now emitted.now) names.now) }
{
    let mut all = Many::new(alloc);
    for name in names {
        let list = inputs_among(alloc, sites, emitted, name)?;
        let name = name.copy(alloc)?;
        all.push(alloc, Named { name, list })?;
    }
    Ok(all)
}

/// The plain loop over a list of items, from the store in which it begins and place 1: how it ends, the inputs of each reducer
/// in the order of their first lines, each with its start value first, and how many faults it skipped.
///
/// It is for reference and for tests: one store lives on over all items, each expression is evaluated as it stands, and all
/// inputs are kept. Refused only for want of memory.
pub fn run_plain(alloc: Global, program: &Program, items: &ItemList) -> Result<PlainEnd, NoMemory>
    ensures { IfOk result (λ end. end ≡ plain_end program.now items.now) }
{
    let store = start_store(alloc, program)?;
    let run = loop_run(alloc, program, store, items.as_slice())?;
    end_of_run(alloc, program.tree(), &run)
}
