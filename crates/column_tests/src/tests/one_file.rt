//! One file: its records, its header, and each refusal.

use super::{lines, shown};
use column_input::{Table, TableRefusal};
use std::test::Fail;

/// Bytes, the name of a column, and its texts.
static COLUMNS: [(&[u8], &str, &str); 29] = [
    // Line ends.
    (b"a,b\n1,2\n3,4\n", "a", "|1|3"),
    (b"a,b\r\n1,2\r\n3,4\r\n", "b", "|2|4"),
    (b"a,b\r1,2\r3,4\r", "b", "|2|4"),
    (b"a,b\r\n1,2\r3,4\n5,6", "b", "|2|4|6"),
    (b"\n\r\na\n\n\n1\r\n\r\n2\n\n", "a", "|1|2"),
    // Quotes.
    (
        b"region,qty\r\n\"north\",10\r\nsouth,5\r\n",
        "region",
        "|north|south",
    ),
    (b"a\n\"1\"\"2\"\n", "a", "|1\"2"),
    (b"a\n1\"2\n", "a", "|1\"2"),
    (b"a\n\"1\"2\n", "a", "|12"),
    (b"a\n\"1\n2,", "a", "|1\n2,"),
    (b"a,b\n\"1,2\",3\n", "a", "|1,2"),
    (b"a,b\n\"1,2\",3\n", "b", "|3"),
    (b"a,b\n\"1\r\n2\",\"\n\"\n", "a", "|1\r\n2"),
    (b"a,b\n\"1\r\n2\",\"\n\"\n", "b", "|\n"),
    (b"a\n 1 \n\t2\n", "a", "| 1 |\t2"),
    (b"a,b\n,\n", "b", "|"),
    // A byte-order mark.
    (b"\xEF\xBB\xBFa\n1\n", "a", "|1"),
    (b"\xEF\xBB\xBF\xEF\xBB\xBFa\n1\n", "a", "none"),
    (b"\xEF\xBB\xBF\xEF\xBB\xBFa\n1\n", "\u{FEFF}a", "|1"),
    (b"a\n\xEF\xBB\xBF1\n", "a", "|\u{FEFF}1"),
    // The header and its names.
    (b"v", "v", ""),
    (b"v\n", "w", "none"),
    (b"\"\"\n", "", ""),
    (b"v\n\"\"\n", "v", "|"),
    (b"a,a,b\n1,2,3\n", "a", "|1"),
    (b"a,b,a\n1,2,3\n", "b", "|2"),
    (b"\"q\"\"r\",s\n1,2\n", "q\"r", "|1"),
    (b"\"a,b\n1,2\n", "a,b\n1,2\n", ""),
    (b"n\xC3\xA4me\nM\xC3\xBCller\n", "n\u{E4}me", "|M\u{FC}ller"),
];

#[test]
fn gives_the_texts_of_a_column(rt: HostRuntime) -> Result<(), Fail> {
    for case in &COLUMNS {
        let (bytes, name, want) = *case;
        let table = Table::read(rt.alloc(), bytes).ok().expect(&rt, "a table");
        let got = shown(rt.alloc(), &table, name)?;
        assert_eq!(rt; got.as_str(), want, "{name} of {bytes:?}");
    }
    Ok(())
}

/// Bytes and their refusal.
static REFUSED: [(&[u8], TableRefusal); 15] = [
    (b"", TableRefusal::NoHeader),
    (b"\r\n\n", TableRefusal::NoHeader),
    (b"\xEF\xBB\xBF", TableRefusal::NoHeader),
    (b"\xFF", TableRefusal::NotUtf8 { number: 1 }),
    (b"a,\xFF\n1\n", TableRefusal::NotUtf8 { number: 1 }),
    (b"a,b\n1,2\n3,\xFF\n", TableRefusal::NotUtf8 { number: 3 }),
    (b"a,b\n\xFF\n", TableRefusal::NotUtf8 { number: 2 }),
    (b"a,b\n\xC3,\xA9\n", TableRefusal::NotUtf8 { number: 2 }),
    (
        b"a\n\xC3\xA9\n\xA9\xC3\n",
        TableRefusal::NotUtf8 { number: 3 },
    ),
    (
        b"a,b\n1,2,3\n4,5\n",
        TableRefusal::Ragged {
            number: 2,
            fields: 3,
            header: 2,
        },
    ),
    (
        b"a,b\n1\n4,5\n",
        TableRefusal::Ragged {
            number: 2,
            fields: 1,
            header: 2,
        },
    ),
    (
        b"a,b\n1,2\n3,4,5",
        TableRefusal::Ragged {
            number: 3,
            fields: 3,
            header: 2,
        },
    ),
    (
        b"a,b\n1,2\n3,4\n5\n",
        TableRefusal::Ragged {
            number: 4,
            fields: 1,
            header: 2,
        },
    ),
    (
        b"a,b\n1,2\n3\n4,\xFF\n",
        TableRefusal::Ragged {
            number: 3,
            fields: 1,
            header: 2,
        },
    ),
    (
        b"a\n\n1,2\n",
        TableRefusal::Ragged {
            number: 2,
            fields: 2,
            header: 1,
        },
    ),
];

#[test]
fn refuses_the_first_bad_record(rt: HostRuntime) {
    for case in &REFUSED {
        let (bytes, want) = *case;
        let got = Table::read(rt.alloc(), bytes).err();
        assert_eq!(rt; got, Some(want), "{bytes:?}");
    }
}

#[test]
fn takes_1024_columns(rt: HostRuntime) -> Result<(), Fail> {
    let most = lines(rt.alloc(), 1, 1024)?;
    assert_eq!(rt; Table::read(rt.alloc(), most.as_slice()).err(), None);
    let over = lines(rt.alloc(), 1, 1025)?;
    let refusal = TableRefusal::TooManyColumns { columns: 1025 };
    assert_eq!(rt;
        Table::read(rt.alloc(), over.as_slice()).err(),
        Some(refusal)
    );
    Ok(())
}

#[test]
fn takes_as_many_fields_as_the_limit(rt: HostRuntime) -> Result<(), Fail> {
    let most = lines(rt.alloc(), 4, 256)?;
    assert_eq!(rt;
        Table::read_within(rt.alloc(), most.as_slice(), 1024).err(),
        None
    );
    let over = lines(rt.alloc(), 5, 256)?;
    let refusal = TableRefusal::TooManyFields {
        number: 5,
        limit: 1024,
    };
    assert_eq!(rt;
        Table::read_within(rt.alloc(), over.as_slice(), 1024).err(),
        Some(refusal)
    );
    Ok(())
}

#[test]
fn has_no_column_when_empty(rt: HostRuntime) {
    let table = Table::empty(rt.alloc());
    assert_eq!(rt; table.rows(), 0);
    assert!(rt; table.column("").is_none());
}
