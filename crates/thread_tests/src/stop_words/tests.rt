use super::{least_of_all, lesser_of_two, splits_to_one};
use std::test::Fail;
use stop_word::{NONE, StopWord, WHOLE};

#[test]
fn the_word_falls_to_the_least_report(rt: HostRuntime) -> Result<(), Fail> {
    let Ok((word, mut seat)) = StopWord::new(rt.alloc()) else {
        panic!(rt; "no memory")
    };
    assert!(rt; seat.weight() == WHOLE);
    let at_first = word.seen(&mut seat);
    let before_seven = word.report(&mut seat, 7);
    let before_nine = word.report(&mut seat, 9);
    let at_last = word.seen(&mut seat);
    assert!(rt; [at_first, before_seven, before_nine, at_last] == [NONE, NONE, 7, 7]);
    assert!(rt; word.close(seat) == 7);
    Ok(())
}

#[test]
fn a_seat_sees_what_another_reported(rt: HostRuntime) -> Result<(), Fail> {
    let Ok((word, mut one)) = StopWord::new(rt.alloc()) else {
        panic!(rt; "no memory")
    };
    let mut other = word.split(&mut one);
    let before_seven = word.report(&mut one, 7);
    let seen = word.seen(&mut other);
    let before_nine = word.report(&mut other, 9);
    let before_three = word.report(&mut other, 3);
    let at_last = word.seen(&mut one);
    assert!(rt; [before_seven, seen, before_nine, before_three, at_last] == [NONE, 7, 7, 7, 3]);
    word.join(&mut one, other);
    assert!(rt; word.close(one) == 3);
    Ok(())
}

#[test]
fn a_word_without_reports_closes_as_none(rt: HostRuntime) -> Result<(), Fail> {
    let Ok((splits, word)) = splits_to_one(rt.alloc()) else {
        panic!(rt; "no memory")
    };
    assert!(rt; (splits, word) == (32, NONE));
    Ok(())
}

#[test]
fn two_threads_report_a_place_each(rt: HostRuntime) -> Result<(), Fail> {
    assert!(rt; matches!(lesser_of_two(&rt, rt.alloc(), 900, 3), Ok(3)));
    assert!(rt; matches!(lesser_of_two(&rt, rt.alloc(), 5, NONE - 1), Ok(5)));
    Ok(())
}

#[test]
fn two_and_eight_seats_report_in_turn(rt: HostRuntime) -> Result<(), Fail> {
    for _ in 0..20 {
        assert!(rt; matches!(least_of_all(&rt, rt.alloc(), 5000, 1), Ok(4001)));
        assert!(rt; matches!(least_of_all(&rt, rt.alloc(), 5000, 3), Ok(4001)));
    }
    Ok(())
}
