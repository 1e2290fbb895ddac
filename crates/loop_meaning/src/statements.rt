//! The statements of a body run, one after another.

ghost use Rattle.std.specs.Prelude.{◌≡◌, ◌≢◌, ◌++◌, ◌∷◌, [], IfOk, OnOk, map};
ghost use Rattle.loop_data.specs.declared.statement.Statement.{Statement};
ghost use Rattle.loop_data.specs.ValueParts.{as_bool, parts_of};
ghost use Rattle.loop_values.specs.Values.{value_of};
ghost use Rattle.tower_inputs.specs.Inputs.{input_of};
ghost use Rattle.loop_meaning.specs.Chosen.{unless};
ghost use Rattle.loop_meaning.specs.Statements.{Action, faulting, emitting, naming, with_parts, with_pattern, matching};
ghost use Rattle.loop_meaning.specs.Statements.{keeping_something, evaluating, is_going, block_run, branch_run, first_true};
ghost use Rattle.loop_meaning.specs.Statements.{statement_run};

use crate::{BodyRun, Flow, Pair};
use loop_data::{Branch, Expr, Many, Statement, TextValue, TowerExpr, Value};
use loop_values::{Env, EvalStop, eval};
use no_memory::NoMemory;
use std::alloc::Global;
use tower_inputs::eval_input;

impl Flow {
    /// Whether the next statement runs.
    pub(crate) fn is_going(self) -> bool
        ensures { result ≡ is_going self }
    {
        match self {
            Flow::Going => true,
            _ => false,
        }
    }
}

impl BodyRun {
    /// A fault on this line ends the step. Want of memory is no fault, and goes on to the caller.
    pub(crate) fn fault(&mut self, line: u32, stop: EvalStop) -> Result<(), NoMemory>
        ensures fault { OnOk result (self.new ≡ faulting line stop self.old) }
        ensures memory { OnOk result (stop ≢ EvalStop.NoMemory) }
    {
        if let EvalStop::NoMemory = stop {
            return Err(NoMemory);
        }
        let kind = stop.number();
        self.flow = Flow::Faulted { line, kind };
        Ok(())
    }

    /// The name has the value.
    pub(crate) fn name(&mut self, alloc: Global, name: &str, value: Value) -> Result<(), NoMemory>
        ensures { OnOk result (self.new ≡ naming name.now value self.old) }
    {
        self.names.bind(alloc, name, value)
    }

    /// The input goes to the reducer of that name.
    fn emit(&mut self, alloc: Global, name: &TextValue, input: Value) -> Result<(), NoMemory>
        ensures { OnOk result (self.new ≡ emitting name.now input self.old) }
    {
        let name = name.copy(alloc)?;
        self.emitted.push(alloc, Pair { name, input })
    }
}

/// Binds names to the parts of a tuple, one by one.
fn with_parts(
    alloc: Global,
    names: &mut Env,
    pattern: &[TextValue],
    parts: Many<Value>,
) -> Result<(), NoMemory>
    ensures { OnOk result (names.new ≡ with_parts names.old pattern.now parts) }
{
    for (name, part) in pattern.iter().zip(parts.into_vec()) {
        names.bind(alloc, name.as_str(), part)?;
    }
    Ok(())
}

/// Binds one name to the value, or several to the parts of the tuple that it is, one by one up to the shorter end. Refused only
/// for want of memory.
pub fn bind_pattern(
    alloc: Global,
    names: &mut Env,
    pattern: &[TextValue],
    value: Value,
) -> Result<(), NoMemory>
    ensures { OnOk result (names.new ≡ with_pattern names.old pattern.now value) }
{
    match pattern {
        [name] => names.bind(alloc, name.as_str(), value),
        _ => match value {
            Value::Tuple(parts) => with_parts(alloc, names, pattern, parts),
            _ => Ok(()),
        },
    }
}

fn run_let(
    alloc: Global,
    line: u32,
    pattern: &[TextValue],
    expr: &Expr,
    run: &mut BodyRun,
) -> Result<(), NoMemory>
    ensures { OnOk result (run.new
        ≡ evaluating line (value_of expr.now) (matching pattern.now) run.old) }
{
    match eval(alloc, expr, &run.names) {
        Err(stop) => run.fault(line, stop),
        Ok(value) => bind_pattern(alloc, &mut run.names, pattern, value),
    }
}

fn run_set(
    alloc: Global,
    line: u32,
    name: &TextValue,
    expr: &Expr,
    run: &mut BodyRun,
) -> Result<(), NoMemory>
    ensures { OnOk result (run.new
        ≡ evaluating line (value_of expr.now) (naming name.now) run.old) }
{
    match eval(alloc, expr, &run.names) {
        Err(stop) => run.fault(line, stop),
        Ok(value) => run.name(alloc, name.as_str(), value),
    }
}

fn run_keep(
    alloc: Global,
    line: u32,
    name: &TextValue,
    expr: &Expr,
    run: &mut BodyRun,
) -> Result<(), NoMemory>
    ensures { OnOk result (run.new
        ≡ evaluating line (value_of expr.now) (keeping_something name.now) run.old) }
{
    match eval(alloc, expr, &run.names) {
        Err(stop) => run.fault(line, stop),
        Ok(Value::Nothing) => {
            run.flow = Flow::Continued;
            Ok(())
        }
        Ok(value) => run.name(alloc, name.as_str(), value),
    }
}

fn run_reduce(
    alloc: Global,
    line: u32,
    name: &TextValue,
    tower: &TowerExpr,
    run: &mut BodyRun,
) -> Result<(), NoMemory>
    ensures { OnOk result (run.new
        ≡ evaluating line (input_of tower.now) (emitting name.now) run.old) }
{
    match eval_input(alloc, tower, &run.names) {
        Err(stop) => run.fault(line, stop),
        Ok(input) => run.emit(alloc, name, input),
    }
}

/// Does the first of the blocks whose condition is true, and says whether there was one. A condition that faults counts as one.
#[cycle(statements)]
fn run_branches(alloc: Global, branches: &[Branch], run: &mut BodyRun) -> Result<bool, NoMemory>
    ensures { IfOk result (λ chosen. (other : Action) →
        first_true (map branch_run branches.now) other run.old ≡ unless chosen other run.new) }
{
    for branch in branches {
        match eval(alloc, &branch.test, &run.names) {
            Err(stop) => {
                run.fault(branch.line, stop)?;
                return Ok(true);
            }
            Ok(value) => {
                if value.as_bool() {
                    run_block(alloc, branch.block.as_slice(), run)?;
                    return Ok(true);
                }
            }
        }
    }
    Ok(false)
}

/// Does one statement in a body run, without asking whether it goes on: [`run_block`] asks. Refused only for want of memory: then
/// the body run can only be dropped.
#[cycle(statements)]
pub fn run_statement(
    alloc: Global,
    statement: &Statement,
    run: &mut BodyRun,
) -> Result<(), NoMemory>
    ensures { OnOk result (run.new ≡ statement_run statement.now run.old) }
{
    match statement {
        Statement::Let { line, names, expr } => {
            run_let(alloc, *line, names.as_slice(), expr, run)
        }
        Statement::Set { line, name, expr } => run_set(alloc, *line, name, expr, run),
        Statement::If {
            line: _,
            branches,
            else_line: _,
            other,
            end_line: _,
        } => {
            if run_branches(alloc, branches.as_slice(), run)? {
                return Ok(());
            }
            run_block(alloc, other.as_slice(), run)
        }
        Statement::Keep { line, name, expr } => run_keep(alloc, *line, name, expr, run),
        Statement::Reduce {
            line,
            name,
            tower,
            start: _,
        } => run_reduce(alloc, *line, name, tower, run),
        Statement::Continue { line: _ } => {
            run.flow = Flow::Continued;
            Ok(())
        }
        Statement::Break { line } => {
            run.flow = Flow::Broke { line: *line };
            Ok(())
        }
    }
}

/// Does the statements one after another, as long as the body run goes on: what they bind and assign is in its names, what they
/// emit behind what it had emitted, and its flow says how it stands then. Refused only for want of memory: then the body run can
/// only be dropped.
#[cycle(statements)]
pub fn run_block(alloc: Global, block: &[Statement], run: &mut BodyRun) -> Result<(), NoMemory>
    ensures { OnOk result (run.new ≡ block_run block.now run.old) }
{
    for statement in block {
        if run.flow.is_going() {
            run_statement(alloc, statement, run)?;
        }
    }
    Ok(())
}
