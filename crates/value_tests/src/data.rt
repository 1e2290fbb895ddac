//! The data of the loop language: texts short and long, lists and boxes.

use loop_data::{Boxed, Many, TextValue};
use std::collections::BTreeMap;
use std::test::Fail;

#[test]
fn texts_short_and_long(rt: HostRuntime) -> Result<(), Fail> {
    let alloc = rt.alloc();
    for (left, right, whole) in [
        ("", "", ""),
        ("12345678901", "123456789012", "12345678901123456789012"),
        ("12345678901", "1234567890123", "123456789011234567890123"),
        ("123456789012345678901234", "", "123456789012345678901234"),
    ] {
        let joined = TextValue::joined(alloc, left, right)?;
        assert_eq!(rt; joined.as_str(), whole);
        assert_eq!(rt; joined.copy(alloc)?, TextValue::new(alloc, whole)?);
    }
    assert_eq!(rt;
        TextValue::from_int(alloc, i64::MIN)?.as_str(),
        "-9223372036854775808"
    );
    Ok(())
}

#[test]
fn texts_are_keys_by_their_bytes(rt: HostRuntime) -> Result<(), Fail> {
    let alloc = rt.alloc();
    let mut tree = BTreeMap::new(alloc);
    for (k, v) in [("b", 1), ("\u{e9}", 2), ("B", 3), ("ba", 4), ("b", 5)] {
        tree.insert(TextValue::new(alloc, k)?, v)?;
    }
    let mut listed = String::new(alloc);
    for (k, v) in &tree {
        listed.push_str(k.as_str())?;
        listed.push_str(if *v == 5 { "! " } else { " " })?;
    }
    assert_eq!(rt; listed.as_str(), "B b! ba \u{e9} ");
    Ok(())
}

#[test]
fn lists_and_boxes(rt: HostRuntime) -> Result<(), Fail> {
    let alloc = rt.alloc();
    let mut list = Many::new(alloc);
    assert_eq!(rt; list.is_empty(), true);
    list.push(alloc, 7)?;
    list.push(alloc, 9)?;
    assert_eq!(rt; list.len(), 2);
    assert_eq!(rt; list.as_slice(), [7, 9].as_slice());
    assert_eq!(rt; Many::from_vec(list.into_vec()).len(), 2);
    assert_eq!(rt; Boxed::new(alloc, 7)?.into_inner(), 7);
    Ok(())
}
