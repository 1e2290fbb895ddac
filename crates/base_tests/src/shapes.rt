//! The worked values of ranges, shapes and parts.

use splittable::{Part, Range, RangeRefusal, Shape, ShapeRefusal, Splittable, least_part};
use std::alloc::{AllocError, Global};

fn items(alloc: Global, range: &Range) -> Result<Vec<i64>, AllocError> {
    let mut items = Vec::new(alloc);
    for k in 0..range.amount() {
        items.push(range.at(k + 1))?;
    }
    Ok(items)
}

#[test]
fn ranges_hold_their_items(rt: HostRuntime) -> Result<(), AllocError> {
    let cases: [(i64, i64, i64, &[i64]); 10] = [
        (1, 2, 9, &[1, 3, 5, 7, 9]),
        (1, 2, 8, &[1, 3, 5, 7]),
        (10, -3, 1, &[10, 7, 4, 1]),
        (10, -3, 2, &[10, 7, 4]),
        (5, 1, 1, &[]),
        (1, -1, 5, &[]),
        (7, 3, 7, &[7]),
        (i64::MIN, i64::MAX, i64::MAX, &[i64::MIN, -1, i64::MAX - 1]),
        (i64::MAX, i64::MIN, i64::MIN, &[i64::MAX, -1]),
        (
            -9223372036854775806,
            -1,
            i64::MIN,
            &[-9223372036854775806, -9223372036854775807, i64::MIN],
        ),
    ];
    for (first, step, last, want) in cases {
        match Range::new(first, step, last) {
            Ok(range) => {
                let have = items(rt.alloc(), &range)?;
                assert!(rt; have.as_slice() == want, "{first}:{step}:{last}");
            }
            Err(_) => assert!(rt; false, "{first}:{step}:{last} is refused"),
        }
    }
    Ok(())
}

#[test]
fn ranges_are_refused(rt: HostRuntime) {
    let cases = [
        (1, 0, 5, Some(RangeRefusal::StepZero)),
        (5, 0, 1, Some(RangeRefusal::StepZero)),
        (1, 1, 4294967296, None),
        (
            1,
            1,
            4294967297,
            Some(RangeRefusal::TooLong { count: 4294967297 }),
        ),
        (
            i64::MIN,
            1,
            i64::MAX,
            Some(RangeRefusal::TooLong {
                count: 18446744073709551616,
            }),
        ),
        (
            i64::MAX,
            -1,
            i64::MIN,
            Some(RangeRefusal::TooLong {
                count: 18446744073709551616,
            }),
        ),
        (i64::MAX, 1, i64::MIN, None),
    ];
    for (first, step, last, want) in cases {
        assert!(rt;
            Range::new(first, step, last).err() == want,
            "{first}:{step}:{last}"
        );
    }
}

#[test]
fn a_range_is_halved(rt: HostRuntime) -> Result<(), AllocError> {
    let Ok(range) = Range::new(1, 2, 9) else {
        assert!(rt; false);
        return Ok(());
    };
    assert_eq!(rt; range.amount(), 5);
    let Some((left, right)) = range.halve() else {
        assert!(rt; false);
        return Ok(());
    };
    assert!(rt; items(rt.alloc(), &left)?.as_slice() == [1, 3].as_slice());
    assert!(rt; items(rt.alloc(), &right)?.as_slice() == [5, 7, 9].as_slice());
    Ok(())
}

#[test]
fn shapes_count_or_are_refused(rt: HostRuntime) {
    let cases: [(&[u64], Result<u64, ShapeRefusal>); 12] = [
        (&[], Err(ShapeRefusal::NoAxis)),
        (&[1, 1, 1, 1, 1], Err(ShapeRefusal::TooManyAxes)),
        (&[0, 0, 0, 0, 0], Err(ShapeRefusal::TooManyAxes)),
        (&[1], Ok(1)),
        (&[0, 5], Ok(0)),
        (&[2, 3], Ok(6)),
        (&[3, 5, 7], Ok(105)),
        (&[65536, 65536], Ok(4294967296)),
        (
            &[65536, 65537],
            Err(ShapeRefusal::TooManyItems { count: 4295032832 }),
        ),
        (&[65536, 65536, 2, 0], Ok(0)),
        (
            &[4294967296, 4294967296, 4294967296, 4294967296],
            Err(ShapeRefusal::TooManyItems {
                count: 18446744073709551616,
            }),
        ),
        (&[4294967296, 4294967296, 4294967296, 0], Ok(0)),
    ];
    for (lens, want) in cases {
        assert!(rt; shape(lens).map(|shape| shape.count()) == want, "{lens:?}");
    }
}

#[test]
fn equal_shapes_have_equal_lengths(rt: HostRuntime) {
    assert!(rt; shape(&[2, 3]) == shape(&[2, 3]));
    assert!(rt; shape(&[2, 3]) != shape(&[3, 2]));
    assert!(rt; shape(&[2]) != shape(&[2, 1]));
    let Ok(two) = shape(&[2]) else {
        assert!(rt; false);
        return;
    };
    assert!(rt; two.lens() == [2].as_slice());
}

#[test]
fn a_part_is_halved_on_its_slowest_axis(rt: HostRuntime) {
    let Some(whole) = whole(&[2, 3]) else {
        assert!(rt; false);
        return;
    };
    assert_eq!(rt; (whole.first(), whole.len(), whole.amount()), (1, 6, 6));
    if whole.first() <= 4 && 4 < whole.first() + whole.len() {
        assert!(rt; whole.place(4) == [2, 2, 1, 1]);
    }
    let Some((left, right)) = whole.halve() else {
        assert!(rt; false);
        return;
    };
    assert_eq!(rt; (left.first(), left.len()), (1, 2));
    assert_eq!(rt; (right.first(), right.len()), (3, 4));
}

#[test]
fn only_shapes_with_items_have_a_whole(rt: HostRuntime) {
    assert!(rt; whole(&[0, 5]).is_none());
    assert!(rt; whole(&[5, 0]).is_none());
    let part = Part::default();
    assert_eq!(rt; (part.first(), part.len()), (1, 1));
    assert!(rt; part.halve().is_none());
    assert!(rt; part.place(part.first()) == [1, 1, 1, 1]);
}

/// The place on each axis runs through the mixed base, the first axis fastest.
#[test]
fn places_run_fastest_on_the_first_axis(rt: HostRuntime) {
    let Some(whole) = whole(&[3, 5, 7]) else {
        assert!(rt; false);
        return;
    };
    let mut k = 1;
    for c in 1u64..8 {
        for b in 1u64..6 {
            for a in 1u64..4 {
                if whole.first() <= k && k - whole.first() < whole.len() {
                    assert!(rt; whole.place(k) == [a, b, c, 1], "{k}");
                }
                k = u64::wrapping_add(k, 1);
            }
        }
    }
    assert_eq!(rt; k, 106);
}

/// The lengths of the leaves from left to right, each a digit, were worked out by a program of windows and lists of places.
#[test]
fn leaves_stand_from_left_to_right(rt: HostRuntime) -> Result<(), AllocError> {
    let ones = [b'1'; 1000];
    let cases: [(&[u64], u64, &[u8]); 7] = [
        (&[8], 1, b"11111111"),
        (&[10], 4, b"2323"),
        (&[2, 3], 1, b"111111"),
        (&[6, 4], 5, b"33333333"),
        (&[3, 5, 7], 4, b"33333333333333333333333333333333333"),
        (
            &[1000],
            7,
            b"7444444744444474444444444444474444447444444744444444444444744444474444447444444444444447444444744444474444444444444474444447444444744444444444444744444474444447444444444444447444444744444474444444444444474444447444444744444444444444",
        ),
        (&[1000], 1, &ones),
    ];
    for (lens, least, want) in cases {
        let mut have = Vec::new(rt.alloc());
        if let Some(whole) = whole(lens) {
            leaves(&whole, least, &mut have)?;
        }
        let mut first = 1;
        for (leaf, digit) in have.iter().zip(want) {
            let len = u64::from(digit.wrapping_sub(b'0'));
            assert!(rt; *leaf == (first, len), "{lens:?} {least} {first}");
            first = u64::wrapping_add(first, len);
        }
        assert_eq!(rt; have.len(), want.len());
    }
    Ok(())
}

#[test]
fn the_least_part_size_grows_with_the_count(rt: HostRuntime) {
    let cases = [
        (1, 0, 1),
        (1, 1, 1),
        (1, 16384, 1),
        (1, 16385, 2),
        (1024, 4294967296, 262144),
        (4294967296, 7, 4294967296),
    ];
    for (base, count, want) in cases {
        if 1 <= base && base <= 4294967296 && count <= 4294967296 {
            assert_eq!(rt; least_part(base, count), want);
        }
    }
}

fn shape(lens: &[u64]) -> Result<Shape, ShapeRefusal> {
    if lens.iter().all(|len| *len <= 4294967296) {
        Shape::new(lens)
    } else {
        Err(ShapeRefusal::NoAxis)
    }
}

fn whole(lens: &[u64]) -> Option<Part> {
    shape(lens).ok()?.whole()
}

/// The first places and lengths of the leaves of a part.
fn leaves(part: &Part, least: u64, into: &mut Vec<(u64, u64)>) -> Result<(), AllocError> {
    match part.halve() {
        Some((left, right)) if part.len() > least => {
            leaves(&left, least, into)?;
            leaves(&right, least, into)
        }
        _ => {
            into.push((part.first(), part.len()))?;
            Ok(())
        }
    }
}
