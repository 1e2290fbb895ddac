//! Several files under one header.

use super::{lines, read_files, shown};
use column_input::{Table, TableRefusal};
use std::test::Fail;

/// Files, the name of a column, and its texts.
static COLUMNS: [(&[&[u8]], &str, &str); 14] = [
    (&[b"v\n1\n2\n", b"v\r\n3\r\n"], "v", "|1|2|3"),
    (
        &[b"a,b\n1,2\n", b"a,b\r3,4\r", b"a,b\r\n5,6"],
        "b",
        "|2|4|6",
    ),
    (&[b"v\n1\n2\n", b"v\n1\n2\n"], "v", "|1|2|1|2"),
    (&[b"v\n1\n", b"\xEF\xBB\xBFv\n2\n"], "v", "|1|2"),
    (&[b"\xEF\xBB\xBFv\n1\n", b"v\n2\n"], "v", "|1|2"),
    (&[b"v\n", b"v\n1\n", b"v", b"v\n2"], "v", "|1|2"),
    (&[b"a,b\n1,2\n", b"\"a\",b\n3,\n"], "b", "|2|"),
    (&[b"a,a\n1,2\n", b"a,a\n3,4\n"], "a", "|1|3"),
    (&[b"a\n \n", b"a\n"], "a", "| "),
    (&[b"a,b\n1,"], "b", "|"),
    (&[b"v\n\""], "v", "|"),
    (&[b"\xEF\xBB\xBF\"a\"\n1\n"], "a", "|1"),
    // A quote that is never closed ends with its file.
    (&[b"a\n\"1", b"a\n2\n"], "a", "|1|2"),
    (
        &[
            b"v\n1", b"v\n2", b"v\n3", b"v\n4", b"v\n5", b"v\n6", b"v\n7", b"v\n8",
        ],
        "v",
        "|1|2|3|4|5|6|7|8",
    ),
];

#[test]
fn joins_the_rows_of_all_files(rt: HostRuntime) -> Result<(), Fail> {
    for case in &COLUMNS {
        let (files, name, want) = *case;
        let table = read_files(rt.alloc(), files).ok().expect(&rt, "a table");
        let got = shown(rt.alloc(), &table, name)?;
        assert_eq!(rt; got.as_str(), want, "{name}");
    }
    Ok(())
}

/// Files, the last of which has this refusal.
static REFUSED: [(&[&[u8]], TableRefusal); 17] = [
    (&[b"v\n1\n", b""], TableRefusal::NoHeader),
    (&[b"v\n1\n", b"\n\r\n"], TableRefusal::NoHeader),
    (&[b"v\n1\n", b"\xEF\xBB\xBF"], TableRefusal::NoHeader),
    (
        &[b"v\n1\n", b"v,w\n1,2\n"],
        TableRefusal::HeaderDiffers { field: 2 },
    ),
    (
        &[b"v,w\n1,2\n", b"v\n1\n"],
        TableRefusal::HeaderDiffers { field: 2 },
    ),
    (
        &[b"v,w\n1,2\n", b"v,x,y\n"],
        TableRefusal::HeaderDiffers { field: 2 },
    ),
    (
        &[b"v\n1\n", b" v\n1\n"],
        TableRefusal::HeaderDiffers { field: 1 },
    ),
    (
        &[b"v\n", b"\xEF\xBB\xBF\xEF\xBB\xBFv\n"],
        TableRefusal::HeaderDiffers { field: 1 },
    ),
    (
        &[b"v\n1\n", b"w,\xFF\n1\n"],
        TableRefusal::NotUtf8 { number: 1 },
    ),
    (
        &[b"v\n1\n2\n", b"v\n1\n\xFF\n"],
        TableRefusal::NotUtf8 { number: 3 },
    ),
    (
        &[b"v\n1\n2\n", b"v\n\xFF,1\n"],
        TableRefusal::NotUtf8 { number: 2 },
    ),
    (
        &[b"v\n1\n2\n", b"v\n1,2\n"],
        TableRefusal::Ragged {
            number: 2,
            fields: 2,
            header: 1,
        },
    ),
    (
        &[b"a,b\n1,2\n", b"a,b\n", b"a,b\n1,2\n3\n"],
        TableRefusal::Ragged {
            number: 3,
            fields: 1,
            header: 2,
        },
    ),
    (&[b"", b"v,w\n"], TableRefusal::NoHeader),
    (
        &[b"v\n1\n", b"v,w,x\n"],
        TableRefusal::HeaderDiffers { field: 2 },
    ),
    (
        &[b"v,w,x\n", b"v\n1\n"],
        TableRefusal::HeaderDiffers { field: 2 },
    ),
    (
        &[b"v\n1\n", b"w\n\xFF\n"],
        TableRefusal::HeaderDiffers { field: 1 },
    ),
];

#[test]
fn refuses_the_first_bad_file(rt: HostRuntime) {
    for case in &REFUSED {
        let (files, want) = *case;
        let got = read_files(rt.alloc(), files).err();
        assert_eq!(rt; got, Some(want));
    }
}

#[test]
fn keeps_the_files_before_a_refusal(rt: HostRuntime) -> Result<(), Fail> {
    let mut table = read_files(rt.alloc(), &[b"a,b\n1,2\n", b"a,b\n3,4\n"])
        .ok()
        .expect(&rt, "a table");
    for bad in &[
        b"a,b\n5,6\n7\n".as_slice(),
        b"a,b\n5,6\n\xFF,7\n",
        b"b,a\n",
        b"",
    ] {
        if table.files() > 0 {
            let bytes: &[u8] = *bad;
            assert!(rt; table.append(rt.alloc(), bytes).is_err());
        }
    }
    assert_eq!(rt; table.files(), 2);
    assert_eq!(rt; table.rows(), 2);
    assert_eq!(rt; shown(rt.alloc(), &table, "b")?.as_str(), "|2|4");
    if table.files() > 0 {
        assert!(rt; table.append(rt.alloc(), b"a,b\n5,6\n").is_ok());
    }
    assert_eq!(rt; shown(rt.alloc(), &table, "a")?.as_str(), "|1|3|5");
    Ok(())
}

/// The second file after one of four fields, how many fields all files may have, and what comes of it.
static LIMITED: [(&[u8], u64, Option<TableRefusal>); 6] = [
    (b"a,b\n3,4\n", 8, None),
    (
        b"a,b\n3,4\n5,6\n",
        8,
        Some(TableRefusal::TooManyFields {
            number: 3,
            limit: 8,
        }),
    ),
    (
        b"a,b\n3,4\n5,\xFF\n",
        8,
        Some(TableRefusal::NotUtf8 { number: 3 }),
    ),
    (b"x,b\n", 4, Some(TableRefusal::HeaderDiffers { field: 1 })),
    (
        b"a,b\n",
        4,
        Some(TableRefusal::TooManyFields {
            number: 1,
            limit: 4,
        }),
    ),
    (
        b"a,b\n1,2,3\n",
        6,
        Some(TableRefusal::Ragged {
            number: 2,
            fields: 3,
            header: 2,
        }),
    ),
];

#[test]
fn counts_the_fields_of_all_files(rt: HostRuntime) {
    for case in &LIMITED {
        let (bytes, limit, want) = *case;
        let mut table = Table::read_within(rt.alloc(), b"a,b\n1,2\n", 8)
            .ok()
            .expect(&rt, "a table");
        if table.files() > 0 && limit <= 8 {
            let got = table.append_within(rt.alloc(), bytes, limit).err();
            assert_eq!(rt; got, want, "{bytes:?}");
        }
        if want.is_none() && table.files() > 0 {
            let got = table.append_within(rt.alloc(), b"a,b", 8).err();
            assert_eq!(rt;
                got,
                Some(TableRefusal::TooManyFields {
                    number: 1,
                    limit: 8
                })
            );
        }
    }
}

/// A first file, how many fields it may have, and its refusal.
static FIRST_LIMITED: [(&[u8], u64, TableRefusal); 3] = [
    (
        b"a,b\n",
        1,
        TableRefusal::TooManyFields {
            number: 1,
            limit: 1,
        },
    ),
    (b"a,b\n\xFF,1\n", 2, TableRefusal::NotUtf8 { number: 2 }),
    (
        b"a,b\n1,2,3\n",
        2,
        TableRefusal::Ragged {
            number: 2,
            fields: 3,
            header: 2,
        },
    ),
];

#[test]
fn counts_the_fields_of_a_first_file(rt: HostRuntime) {
    for case in &FIRST_LIMITED {
        let (bytes, limit, want) = *case;
        if limit <= 8 {
            let got = Table::read_within(rt.alloc(), bytes, limit).err();
            assert_eq!(rt; got, Some(want), "{bytes:?}");
        }
    }
}

#[test]
fn a_further_header_is_never_too_wide(rt: HostRuntime) -> Result<(), Fail> {
    let alloc = rt.alloc();
    let wide = lines(alloc, 1, 1024)?;
    let wider = lines(alloc, 1, 1025)?;
    let mut table = read_files(alloc, &[wide.as_slice()])
        .ok()
        .expect(&rt, "a table");
    if table.files() > 0 {
        let got = table.append(alloc, wider.as_slice()).err();
        assert_eq!(rt; got, Some(TableRefusal::HeaderDiffers { field: 1025 }));
    }
    let got = Table::read(alloc, wider.as_slice()).err();
    assert_eq!(rt; got, Some(TableRefusal::TooManyColumns { columns: 1025 }));
    Ok(())
}

#[test]
fn a_wide_header_that_is_no_text_is_no_text(rt: HostRuntime) -> Result<(), Fail> {
    let mut bytes = Vec::from_slice(rt.alloc(), b"\xFF,")?;
    let wide = lines(rt.alloc(), 1, 1024)?;
    bytes.extend_from_slice(wide.as_slice())?;
    let got = Table::read(rt.alloc(), bytes.as_slice()).err();
    assert_eq!(rt; got, Some(TableRefusal::NotUtf8 { number: 1 }));
    Ok(())
}

#[test]
fn holds_16777216_fields_and_no_more(rt: HostRuntime) -> Result<(), Fail> {
    let alloc = rt.alloc();
    let most = lines(alloc, 16384, 1024)?;
    let one = lines(alloc, 1, 1024)?;
    let mut table = read_files(alloc, &[most.as_slice()])
        .ok()
        .expect(&rt, "a table");
    assert_eq!(rt; table.rows(), 16383);
    if table.files() > 0 {
        let got = table.append(alloc, one.as_slice()).err();
        assert_eq!(rt;
            got,
            Some(TableRefusal::TooManyFields {
                number: 1,
                limit: 16777216
            })
        );
    }
    Ok(())
}

/// A refusal and its text.
static TEXTS: [(TableRefusal, &str); 8] = [
    (TableRefusal::NoHeader, "no header"),
    (TableRefusal::NotUtf8 { number: 2 }, "record 2: not UTF-8"),
    (
        TableRefusal::HeaderDiffers { field: 2 },
        "header differs at field 2",
    ),
    (
        TableRefusal::Ragged {
            number: 4,
            fields: 1,
            header: 2,
        },
        "record 4: 1 fields, header has 2",
    ),
    (
        TableRefusal::TooManyColumns { columns: 1025 },
        "1025 columns, at most 1024",
    ),
    (
        TableRefusal::TooManyFields {
            number: 9,
            limit: 16777216,
        },
        "over 16777216 fields",
    ),
    (
        TableRefusal::TooManyFields {
            number: 9,
            limit: 8,
        },
        "over 8 fields",
    ),
    (TableRefusal::NoMemory, "out of memory"),
];

#[test]
fn shows_each_refusal(rt: HostRuntime) -> Result<(), Fail> {
    for case in &TEXTS {
        let (refusal, want) = *case;
        let got = format!(in rt.alloc(); "{refusal}")?;
        assert_eq!(rt; got.as_str(), want);
    }
    Ok(())
}
