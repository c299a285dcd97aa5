//! Numbers of messages that come and go.
use crate::tests::route::digits;
use smq_kit::{Dir, Place, SessionId};
use smq_route::Numbers;
use std::process::Abort;

const FIRST: Place = Place {
    session: SessionId(10),
    dir: Dir::FromClient,
    offset: 0,
};

const SECOND: Place = Place {
    session: SessionId(10),
    dir: Dir::FromClient,
    offset: 49,
};

/// Asserts that the places under a prefix are these, in order.
fn assert_under(rt: &impl Abort, numbers: &mut Numbers, prefix: &[u8], wanted: &[Place]) {
    let places = numbers.under(&digits(rt, prefix)).expect(rt, "memory");
    assert!(rt; places.as_slice() == wanted);
}

/// Adds the numbers of two messages.
fn add_two(rt: &impl Abort, numbers: &mut Numbers) {
    numbers.add(digits(rt, b"4479"), FIRST).expect(rt, "memory");
    numbers.add(digits(rt, b"447"), SECOND).expect(rt, "memory");
}

/// The second message is to a number that the first one's begins with, so it comes first.
fn assert_two(rt: &impl Abort, numbers: &mut Numbers) {
    assert_under(rt, numbers, b"447", &[SECOND, FIRST]);
    assert_under(rt, numbers, b"4479", &[FIRST]);
    assert_under(rt, numbers, b"44791", &[]);
}

fn assert_second_is_removed_and_undone(rt: &impl Abort, numbers: &mut Numbers) {
    numbers
        .remove(&digits(rt, b"447"), SECOND)
        .expect(rt, "memory");
    assert_under(rt, numbers, b"4", &[FIRST]);
    numbers.undo();
    assert_under(rt, numbers, b"4", &[SECOND, FIRST]);
    assert!(rt; numbers.touches() > 0);
}

#[test]
fn numbers_come_and_go(rt: HostRuntime) {
    let mut numbers = Numbers::new(rt.alloc());
    add_two(&rt, &mut numbers);
    assert_two(&rt, &mut numbers);
    numbers.settle();
    assert_second_is_removed_and_undone(&rt, &mut numbers);
}
