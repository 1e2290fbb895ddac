//! Reads a loop whose second line has an expression, and evaluates it.

use loop_data::{Expr, Statement, Value};
use loop_syntax::{Program, read_program};
use loop_values::{Env, EvalStop, eval};
use std::alloc::Global;
use std::test::Fail;

/// The program that a text spells.
pub fn read(alloc: Global, text: &str) -> Result<Program, Fail> {
    if text.len() > 65536 {
        return Err(Fail::from("too long"));
    }
    Ok(read_program(alloc, text.as_bytes()).map_err(|_| "refused")?)
}

/// A loop whose second line gives `y` this expression.
pub fn looped(alloc: Global, expr: &str) -> Result<Program, Fail> {
    let text = format!(in alloc; "for x in 1:1\n  let y = {expr}\nend\n")?;
    read(alloc, text.as_str())
}

/// The expression of the first line of a loop's body.
pub fn expr_of(program: &Program) -> Option<&Expr> {
    match program.body().as_slice().first() {
        Some(Statement::Let { expr, .. }) => Some(expr),
        _ => None,
    }
}

/// The value of an expression, or its fault.
pub fn value_of(alloc: Global, expr: &str, env: &Env) -> Result<Result<Value, EvalStop>, Fail> {
    let program = looped(alloc, expr)?;
    match expr_of(&program) {
        Some(expr) => Ok(eval(alloc, expr, env)),
        None => Err(Fail::from("no expression")),
    }
}
