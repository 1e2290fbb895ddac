//! The store: the values of the outer variables and scratches.

ghost use Rattle.std.specs.Prelude.{◌≡◌, IfOk, OnOk, map};
ghost use Rattle.loop_data.specs.declared.head.Binding.{Binding as Line};
ghost use Rattle.loop_meaning.specs.Stores.{with_literals, variables, start_store, stored_names, names_of, keeping};

use loop_data::Binding;
use loop_grammar::ProgramTree;
use loop_syntax::Program;
use loop_values::Env;
use no_memory::NoMemory;
use std::alloc::Global;

/// Binds the names of these lines to their literals' values.
fn with_literals(alloc: Global, names: &mut Env, lines: &[Binding]) -> Result<(), NoMemory>
    ensures { OnOk result (names.new ≡ with_literals names.old lines.now) }
{
    for line in lines {
        let value = line.value.copy(alloc)?;
        names.bind(alloc, line.name.as_str(), value)?;
    }
    Ok(())
}

/// The values of the outer variables, which are the names that a head's bounds may read. Refused only for want of memory.
pub fn variables(alloc: Global, program: &ProgramTree) -> Result<Env, NoMemory>
    ensures { IfOk result (λ names. names ≡ variables program.now) }
{
    let mut names = Env::new(alloc);
    with_literals(alloc, &mut names, program.vars.as_slice())?;
    Ok(names)
}

/// The store in which a loop begins: each outer variable and each scratch has its literal's value. Refused only for want of
/// memory.
pub fn start_store(alloc: Global, program: &Program) -> Result<Env, NoMemory>
    ensures { IfOk result (λ store. store ≡ start_store program.now) }
{
    let tree = program.tree();
    let mut store = variables(alloc, tree)?;
    with_literals(alloc, &mut store, tree.scratch.as_slice())?;
    Ok(store)
}

/// Gives the names of these lines the values that they have in `after`.
fn keep_names(
    alloc: Global,
    lines: &[Binding],
    names: &mut Env,
    after: &Env,
) -> Result<(), NoMemory>
    ensures { OnOk result (names.new ≡ keeping (names_of lines.now) names.old after.now) }
{
    for line in lines {
        if let Some(value) = after.get(line.name.as_str()) {
            let value = value.copy(alloc)?;
            names.bind(alloc, line.name.as_str(), value)?;
        }
    }
    Ok(())
}

/// Gives the outer variables and scratches the values that they have in `after`.
pub(crate) fn keep_stored(
    alloc: Global,
    program: &ProgramTree,
    names: &mut Env,
    after: &Env,
) -> Result<(), NoMemory>
    ensures { OnOk result (names.new ≡ keeping (stored_names program.now) names.old after.now) }
{
    keep_names(alloc, program.vars.as_slice(), names, after)?;
    keep_names(alloc, program.scratch.as_slice(), names, after)
}
