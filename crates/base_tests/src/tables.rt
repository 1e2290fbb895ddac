//! The table that is made from a seed, by values worked out outside.

use no_memory::NoMemory;
use try_table::try_bytes;

#[test]
fn tables_of_a_seed(rt: HostRuntime) -> Result<(), NoMemory> {
    let cases: [(u64, u64, &str); 5] = [
        (0, 0, "region,qty\n"),
        (7, 0, "region,qty\n"),
        (0, 2, "region,qty\nr7,975\nr0,553\n"),
        (1, 5, "region,qty\nr6,346\nr1,19\nr4,649\nr6,108\nr2,379\n"),
        (u64::MAX, 3, "region,qty\nr0,61\nr7,542\nr5,834\n"),
    ];
    for (seed, rows, want) in cases {
        let have = try_bytes(rt.alloc(), seed, rows)?;
        assert!(rt; have.as_slice() == want.as_bytes(), "{seed} {rows}");
    }
    Ok(())
}
