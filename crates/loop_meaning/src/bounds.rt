//! The numbers of a head's bounds, for whoever goes over its ranges. The names that bounds may read are those of
//! [`variables`](crate::variables).

ghost use Rattle.std.specs.Prelude.{◌≡◌, IfOk};
ghost use Rattle.std.specs.FinMap.{get};
ghost use Rattle.loop_values.specs.Values.{value_of};
ghost use Rattle.loop_meaning.specs.Items.{number_of, step_number};

use loop_data::Expr;
use loop_values::{Env, EvalStop, eval};
use no_memory::NoMemory;
use std::alloc::Global;

/// The number of a bound; 0 where it faults or is no number, which no bound of a legal head does or is. Refused only for want of
/// memory.
pub fn number_of(alloc: Global, expr: &Expr, names: &Env) -> Result<i64, NoMemory>
    ensures { IfOk result (λ n. n ≡ number_of (value_of expr.now (get names.now))) }
{
    match eval(alloc, expr, names) {
        Ok(value) => Ok(value.as_int()),
        Err(EvalStop::NoMemory) => Err(NoMemory),
        Err(_) => Ok(0),
    }
}

/// The number of a step, which is 1 where there is none. Refused only for want of memory.
pub fn step_number(alloc: Global, step: &Option<Expr>, names: &Env) -> Result<i64, NoMemory>
    ensures { IfOk result (λ n. n ≡ step_number step.now (get names.now)) }
{
    match step {
        None => Ok(1),
        Some(expr) => number_of(alloc, expr, names),
    }
}
