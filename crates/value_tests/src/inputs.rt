//! The inputs of one small tower, and the items of an inner range.

use loop_data::{Expr, Kind, Many, TowerExpr, Value};
use loop_values::{Env, EvalStop, InnerRange, TypeStop, Types, ValueKind};
use no_memory::NoMemory;
use std::alloc::Global;
use std::test::Fail;
use tower_inputs::{are_same_kinds, eval_input, is_same_tower, kind_of_tower, types_of_input};

/// `argmax(7)`
fn greatest_of_7() -> TowerExpr {
    TowerExpr::Leaf {
        kind: Kind::GreatestAt,
        expr: Expr::Lit(Value::Int(7)),
    }
}

fn its_kind(alloc: Global) -> Result<Kind, NoMemory> {
    kind_of_tower(alloc, &greatest_of_7())
}

#[test]
fn a_kind_is_that_of_its_tower(rt: HostRuntime) -> Result<(), Fail> {
    let kind = its_kind(rt.alloc())?;
    assert!(rt; is_same_tower(&kind, &Kind::GreatestAt));
    assert!(rt; !is_same_tower(&kind, &Kind::LeastAt));
    Ok(())
}

/// Its input at the third place.
fn its_input(alloc: Global) -> Result<Value, EvalStop> {
    let mut env = Env::new(alloc);
    env.bind(alloc, "place", Value::Int(3))?;
    eval_input(alloc, &greatest_of_7(), &env)
}

#[test]
fn an_input_has_the_value_and_its_place(rt: HostRuntime) {
    let input = its_input(rt.alloc()).ok().expect(&rt, "an input");
    let mut numbers = input.parts().iter().map(|part| part.as_int());
    assert_eq!(rt; numbers.next(), Some(7));
    assert_eq!(rt; numbers.next(), Some(3));
    assert_eq!(rt; numbers.next(), None);
}

fn its_kinds(alloc: Global) -> Result<Many<ValueKind>, TypeStop> {
    types_of_input(alloc, &greatest_of_7(), &Types::new(alloc))
}

#[test]
fn a_number_is_what_it_takes(rt: HostRuntime) {
    let kinds = its_kinds(rt.alloc()).ok().expect(&rt, "kinds");
    assert!(rt; are_same_kinds(kinds.as_slice(), &[ValueKind::Int]));
    assert!(rt; !are_same_kinds(kinds.as_slice(), &[ValueKind::Text]));
}

#[test]
fn items_count_from_1(rt: HostRuntime) {
    let range = InnerRange {
        first: 10,
        step: -3,
        count: 4,
    };
    assert_eq!(rt; range.item(1), 10);
    assert_eq!(rt; range.item(4), 1);
}
