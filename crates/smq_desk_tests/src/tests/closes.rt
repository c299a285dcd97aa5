//! What `close` tells of seats that don't fit.
use crate::tests::*;

/// A commit of a clock: by the first seat or the second, of so many ms.
type Clock = (bool, u64);

/// Two seats of a desk after these commits, of which those that are wanted come into a list. Commits that the book refuses have an
/// entry and a call, too.
fn play<R: Abort + Wait>(
    rt: &R,
    desk: &Desk,
    commits: &[Clock],
    wanted: (bool, bool),
    seats: &mut Vec<Seat>,
) {
    let mut one = seat_of(rt, desk);
    let mut two = seat_of(rt, desk);
    commit_clocks(rt, desk, &mut one, &mut two, commits);
    put_wanted(rt, seats, one, wanted.0);
    put_wanted(rt, seats, two, wanted.1);
}

fn commit_clocks<R: Wait>(rt: &R, desk: &Desk, one: &mut Seat, two: &mut Seat, commits: &[Clock]) {
    for (first, clock) in commits {
        let _ = if *first {
            commit_clock(rt, desk, one, *clock)
        } else {
            commit_clock(rt, desk, two, *clock)
        };
    }
}

/// The same at a desk of its own, which then ends.
fn play_elsewhere<R: Abort + Wait + AllocGlobal>(
    rt: &R,
    commits: &[Clock],
    wanted: (bool, bool),
    seats: &mut Vec<Seat>,
) {
    let desk = new_desk(rt, 100).expect(rt, "a desk");
    play(rt, &desk, commits, wanted, seats);
    end_desk(rt, desk);
}

/// Puts a seat into a list, or not.
fn put_wanted(rt: &impl Abort, seats: &mut Vec<Seat>, seat: Seat, is_wanted: bool) {
    if is_wanted {
        put_seat(rt, seats, seat);
    }
}

/// What two desks with two seats each commit, which of the first desk's seats and which of the other's come to the close
/// of the first, and the seat and number that are told as torn: of no seat where it closes, of seat 0 where seats are out.
type Close = (
    &'static str,
    &'static [Clock],
    &'static [Clock],
    (bool, bool),
    (bool, bool),
    Option<(u32, u64)>,
);

/// What `close` tells.
fn told<R: Abort + Wait + AllocGlobal>(rt: &R, alloc: Global, case: &Close) -> Option<(u32, u64)> {
    let (_, ours, theirs, own, other, _) = case;
    let desk = new_desk(rt, 100).expect(rt, "a desk");
    let mut seats = Vec::new(alloc);
    play(rt, &desk, ours, *own, &mut seats);
    play_elsewhere(rt, theirs, *other, &mut seats);
    told_by(close_and_end(rt, alloc, desk, seats))
}

/// The seat and number that are told as torn: of no seat where the desk closes, of seat 0 where seats are out.
fn told_by(told: Told) -> Option<(u32, u64)> {
    match told {
        Told::Closed(_) => None,
        Told::Open(CloseFault::SeatsOut) => Some((0, 0)),
        Told::Open(CloseFault::Torn { seat, number }) => Some((seat, number)),
        Told::Lost => Some((u32::MAX, 0)),
    }
}

const CLOSES: &[Close] = &[
    (
        "seats of this desk close it, also one that never called",
        &[(true, 5), (true, 4), (true, 6)],
        &[],
        (true, true),
        (false, false),
        None,
    ),
    (
        "a seat that never called is missed",
        &[(true, 5)],
        &[],
        (true, false),
        (false, false),
        Some((0, 0)),
    ),
    (
        "a call of another desk's seat is none of an empty history",
        &[],
        &[(true, 5)],
        (true, true),
        (true, false),
        Some((1, 1)),
    ),
    (
        "a call is taken out",
        &[(true, 5), (true, 6)],
        &[(true, 5)],
        (false, true),
        (true, false),
        Some((1, 2)),
    ),
    (
        "a call is doubled",
        &[(false, 5), (true, 6)],
        &[(false, 5), (true, 6)],
        (true, true),
        (true, false),
        Some((1, 2)),
    ),
    (
        "two seats' calls are exchanged",
        &[(true, 4), (true, 5), (false, 6)],
        &[(true, 4), (false, 5), (true, 6)],
        (false, false),
        (true, true),
        Some((1, 2)),
    ),
    (
        "a call is of another edit",
        &[(false, 5), (true, 6)],
        &[(false, 5), (true, 7)],
        (false, true),
        (true, false),
        Some((1, 2)),
    ),
    (
        "a call has another reply",
        &[(false, 5), (true, 4)],
        &[(false, 3), (true, 4)],
        (false, true),
        (true, false),
        Some((1, 2)),
    ),
    (
        "a call is past the history",
        &[(true, 5)],
        &[(true, 5), (false, 6)],
        (true, false),
        (false, true),
        Some((2, 2)),
    ),
    (
        "the least of several is told, with its entry's seat",
        &[(true, 5)],
        &[(false, 1), (false, 2)],
        (true, false),
        (false, true),
        Some((1, 1)),
    ),
];

#[test]
fn a_desk_closes_for_the_seats_whose_calls_are_its_history(rt: HostRuntime) {
    for case in CLOSES {
        let is_as_wanted = told(&rt, rt.alloc(), case) == case.5;
        assert!(rt; is_as_wanted, "{}", case.0);
    }
}
