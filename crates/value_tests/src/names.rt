//! The values and the kinds of names.

use loop_data::{Value, ValueKind};
use loop_values::{Env, Types};
use std::test::Fail;

#[test]
fn a_name_has_its_last_value(rt: HostRuntime) -> Result<(), Fail> {
    let alloc = rt.alloc();
    let mut env = Env::new(alloc);
    for (name, n) in [("n", 2), ("m", 5), ("n", 3)] {
        env.bind(alloc, name, Value::Int(n))?;
    }
    for (name, want) in [("n", Some(3)), ("m", Some(5)), ("k", None), ("", None)] {
        let got = env.get(name).map(|value| value.as_int());
        assert_eq!(rt; got, want, "{name}");
    }
    Ok(())
}

#[test]
fn a_name_has_its_last_kind(rt: HostRuntime) -> Result<(), Fail> {
    let alloc = rt.alloc();
    let mut names = Types::new(alloc);
    names.set(alloc, "x", ValueKind::Text)?;
    names.set(alloc, "x", ValueKind::Int)?;
    assert!(rt; names.get("x") == Some(&ValueKind::Int));
    assert!(rt; names.get("y").is_none());
    Ok(())
}

#[test]
fn a_copy_has_the_same_values(rt: HostRuntime) -> Result<(), Fail> {
    let alloc = rt.alloc();
    let mut env = Env::new(alloc);
    env.bind(alloc, "x", Value::Int(7))?;
    env.bind(alloc, "place", Value::Int(3))?;
    let copy = env.copy(alloc)?;
    env.bind(alloc, "x", Value::Int(4))?;
    for (name, here, there) in [("x", 4, 7), ("place", 3, 3)] {
        assert_eq!(rt;
            env.get(name).map(|value| value.as_int()),
            Some(here),
            "{name}"
        );
        assert_eq!(rt;
            copy.get(name).map(|value| value.as_int()),
            Some(there),
            "{name}"
        );
    }
    Ok(())
}
