//! Which kinds are one kind.

use crate::asked::{expr_of, looped};
use loop_data::ValueKind;
use loop_values::{EvalStop, TypeStop, Types, is_same_kind, type_of};
use std::alloc::Global;
use std::test::Fail;

/// The kind of an expression, where it has one.
fn kind_of(alloc: Global, expr: &str, names: &Types) -> Result<Result<ValueKind, TypeStop>, Fail> {
    let program = looped(alloc, expr)?;
    match expr_of(&program) {
        Some(expr) => Ok(type_of(alloc, expr, names)),
        None => Err(Fail::from("no expression")),
    }
}

/// Expressions of which no two have the same kind.
static DIFFERENT: [&str; 11] = [
    "1",
    "true",
    "\"\"",
    "(1, 1)",
    "(true, 1)",
    "(\"\", 1)",
    "((1, \"\"), 1)",
    "(1, 1, 1)",
    "tryint(\"\")",
    "if true then (1, 1) else nothing",
    "if true then (1, (true, \"\")) else nothing",
];

/// Whether two expressions have one kind.
fn is_one_kind(alloc: Global, names: &Types, one: &str, other: &str) -> Result<bool, Fail> {
    match (kind_of(alloc, one, names)?, kind_of(alloc, other, names)?) {
        (Ok(kind), Ok(other)) => Ok(is_same_kind(&kind, &other)),
        _ => Err(Fail::from("no kind")),
    }
}

#[test]
fn kinds_that_differ(rt: HostRuntime) -> Result<(), Fail> {
    let alloc = rt.alloc();
    let names = Types::new(alloc);
    for one in &DIFFERENT {
        for other in &DIFFERENT {
            let same = is_one_kind(alloc, &names, one, other)?;
            assert_eq!(rt; same, one == other, "{one} {other}");
        }
    }
    Ok(())
}

#[test]
fn numbers_of_stops(rt: HostRuntime) {
    for (stop, number) in [
        (EvalStop::DivideError, 1),
        (EvalStop::NotANumber, 2),
        (EvalStop::TooManyInner, 3),
        (EvalStop::TextTooLong, 4),
        (EvalStop::StepZero, 5),
        (EvalStop::NoMemory, 6),
    ] {
        assert_eq!(rt; stop.number(), number);
    }
    assert_eq!(rt; TypeStop::Differs.number(), 1);
    assert_eq!(rt; TypeStop::NoMemory.number(), 2);
}
