//! Why loops aren't lowered, and which reason is told.

use crate::loops::{legal, table_of};
use loop_lower::lower;
use std::alloc::Global;
use std::test::Fail;

/// A loop over the column `v`, and why it isn't lowered.
static REFUSED: [(&str, &str); 8] = [
    (
        "for (a, b) in zip(col(\"w\"), 1:0:3)\nend\n",
        "line 1: no column w",
    ),
    (
        "for (a, b) in zip(1:0:3, col(\"w\"))\nend\n",
        "line 1: step is zero",
    ),
    // each collection is tried before the product is
    (
        "for p in product(1:65536, 1:65536, 1:2, 1:0:1)\nend\n",
        "line 1: step is zero",
    ),
    (
        "for p in product(1:65536, 1:65536, 1:2)\nend\n",
        "line 1: 8589934592 items, at most 4294967296",
    ),
    // a range that is too long is refused wherever it stands
    (
        "for p in product(1:4294967297, 1:0)\nend\n",
        "line 1: 4294967297 items, at most 4294967296",
    ),
    (
        "for (a, b) in zip(1:4294967297, col(\"w\"))\nend\n",
        "line 1: 4294967297 items, at most 4294967296",
    ),
    // a product of no items is none of too many
    (
        "for p in product(1:65536, 1:65536, 1:2, 1:0)\nend\n",
        "lowered",
    ),
    ("for t in col(\"v\")\nend\n", "lowered"),
];

/// Why a loop isn't lowered.
fn refusal(alloc: Global, text: &str) -> Result<String, Fail> {
    let program = legal(alloc, text)?;
    let table = table_of(alloc, "v\n1\n2\n")?;
    match lower(alloc, &program, &table) {
        Ok(_) => Ok(String::from_str(alloc, "lowered")?),
        Err(why) => Ok(format!(in alloc; "{why}")?),
    }
}

#[test]
fn the_first_reason_is_told(rt: HostRuntime) -> Result<(), Fail> {
    for (text, wanted) in &REFUSED {
        let got = refusal(rt.alloc(), text)?;
        assert_eq!(rt; got.as_str(), *wanted, "{text}");
    }
    Ok(())
}
