//! What the pipelines come to, item by item.

use crate::pipelines::{put_together, sum_of_squares};
use no_memory::NoMemory;
use transducer_kit::StepEnd;

/// How the fold ends after the first square over 20.
fn ended() -> StepEnd {
    StepEnd::Ended { line: 4 }
}

#[test]
fn squares_end_with_their_item(rt: HostRuntime) -> Result<(), NoMemory> {
    let numbers = [1, 2, 3, 4, 5, 6];
    let rows = [
        (0, 0, StepEnd::Going),
        (1, 0, StepEnd::Going),
        (2, 0, StepEnd::Going),
        (3, 9, StepEnd::Going),
        (4, 25, StepEnd::Going),
        (5, 50, ended()),
        (6, 50, ended()),
    ];
    for (count, sum, end) in rows {
        let mut have = 0;
        let answer = sum_of_squares(rt.alloc(), &mut have, &numbers[..count])?;
        assert_eq!(rt; (have, answer), (sum, end), "{count}");
    }
    Ok(())
}

#[test]
fn lists_are_put_one_after_another(rt: HostRuntime) -> Result<(), NoMemory> {
    let past = StepEnd::Fault { line: 1, kind: 1 };
    let rows: [(&[([i64; 2], u64)], &[i64], StepEnd); 3] = [
        (
            &[([1, 2], 2), ([0, 0], 0), ([3, 0], 1)],
            &[1, 2, 3],
            StepEnd::Going,
        ),
        (&[], &[], StepEnd::Going),
        // past the end of the second list, after its two numbers
        (&[([5, 0], 1), ([6, 7], 3), ([8, 9], 2)], &[5, 6, 7], past),
    ];
    for (lists, numbers, end) in rows {
        let (have, answer) = put_together(rt.alloc(), lists)?;
        assert_eq!(rt; have.as_slice(), numbers);
        assert_eq!(rt; answer, end);
    }
    Ok(())
}
