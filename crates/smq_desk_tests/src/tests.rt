//! What no clause says of a desk: that its calls succeed with ample memory and room, what they answer then, and that two
//! threads share it. A function owns one seat, watcher or batch at most beside a desk, and lends it; what must be there comes by
//! `expect`.

mod closes;
mod contention;
mod crowds;
mod desks;
mod editions;
mod histories;
mod jobs;
mod memory;
mod stopped_jobs;
mod workers;

use bytes::Bytes;
use desks::{
    Ended, Told, close, close_and_end, close_late, count, end, end_closed, end_desk, entries_of,
    fault_of, is_whole, new_desk,
};
use smq_book::{Batch, Edit, Outcome, prepare};
use smq_desk::{CloseFault, Desk, Entry, Reply, Seat};
use smq_frame::Tail;
use smq_kit::{Dir, LinkId, Moment, Refusal, SessionId};
use std::alloc::{AllocError, AllocGlobal, Global};
use std::process::Abort;
use std::sync::Wait;
use std::sync::atomic::{AtomicBool, Ordering};
use std::thread;
use std::thread::Threads;

/// A submit_sm to 447700900123 with sequence number 1, which asks for a receipt (SMPP 3.4, 4.4.1).
const SUBMIT: &[u8] =
    b"\0\0\0\x31\0\0\0\x04\0\0\0\0\0\0\0\x01\0\0\x001000\0\x01\x01447700900123\0\0\0\0\0\0\x01\0\0\0\0";

/// Its submit_sm_resp, with the id `1` (4.4.2).
const RESPONSE: &[u8] = b"\0\0\0\x12\x80\0\0\x04\0\0\0\0\0\0\0\x011\0";

/// A session of a link, and the direction, moment and octets of a piece.
type Row = (u32, u64, Dir, u64, &'static [u8]);

/// A submit_sm of session 10 of link 1.
const FIRST: Row = (1, 10, Dir::FromClient, 1000, SUBMIT);

/// A session of a link, and a direction and moment.
type Origin = (u32, u64, Dir, u64);

/// The batch of octets on a tail.
fn batch_on(alloc: Global, tail: &Tail, origin: Origin, octets: &[u8]) -> Result<Batch, Refusal> {
    let (link, session, dir, moment) = origin;
    let moment = Moment::new(moment)?;
    let Ok(octets) = Bytes::copy_from_slice(alloc, octets) else {
        return Err(Refusal::Memory);
    };
    prepare(
        alloc,
        LinkId(link),
        SessionId(session),
        dir,
        tail,
        moment,
        octets,
    )
}

/// Commits a piece that is prepared on a tail.
fn put_on<R: Wait>(
    rt: &R,
    alloc: Global,
    desk: &Desk,
    seat: &mut Seat,
    tail: &Tail,
    row: Row,
) -> Result<u64, Refusal> {
    let (link, session, dir, moment, octets) = row;
    let batch = batch_on(alloc, tail, (link, session, dir, moment), octets)?;
    desk.commit(rt, seat, Edit::Append { batch })
}

/// Commits a piece on the tail as it is now.
fn put<R: Wait>(
    rt: &R,
    alloc: Global,
    desk: &Desk,
    seat: &mut Seat,
    row: Row,
) -> Result<u64, Refusal> {
    let tail = desk.tail(rt, SessionId(row.1), row.2)?;
    put_on(rt, alloc, desk, seat, &tail, row)
}

/// Commits a submit_sm and its response, and gives the numbers of their entries, where both were made.
fn put_both<R: Wait>(
    rt: &R,
    alloc: Global,
    desk: &Desk,
    seat: &mut Seat,
    link: u32,
    session: u64,
) -> Option<(u64, u64)> {
    let submit = (link, session, Dir::FromClient, 1000, SUBMIT);
    let response = (link, session, Dir::FromCentre, 1200, RESPONSE);
    let first = put(rt, alloc, desk, seat, submit);
    let second = put(rt, alloc, desk, seat, response);
    match (first, second) {
        (Ok(first), Ok(second)) => Some((first, second)),
        _ => None,
    }
}

/// Commits a submit_sm of the client of session 30 that is prepared on a tail.
fn put_at<R: Wait>(
    rt: &R,
    alloc: Global,
    desk: &Desk,
    seat: &mut Seat,
    tail: &Tail,
) -> Result<u64, Refusal> {
    let row = (3, 30, Dir::FromClient, 1000, SUBMIT);
    put_on(rt, alloc, desk, seat, tail, row)
}

/// What two seats are answered that commit a submit_sm one after the other, where both took the tail of session 30 before.
fn put_on_one_tail<R: Abort + Wait>(
    rt: &R,
    alloc: Global,
    desk: &Desk,
    three: &mut Seat,
    four: &mut Seat,
) -> (Result<u64, Refusal>, Result<u64, Refusal>) {
    let first = tail_of_30(rt, desk);
    let second = tail_of_30(rt, desk);
    (
        put_at(rt, alloc, desk, three, &first),
        put_at(rt, alloc, desk, four, &second),
    )
}

/// The tail of the client of session 30.
fn tail_of_30<R: Abort + Wait>(rt: &R, desk: &Desk) -> Tail {
    desk.tail(rt, SessionId(30), Dir::FromClient)
        .expect(rt, "a tail")
}

/// Commits a clock of so many ms.
fn commit_clock<R: Wait>(
    rt: &R,
    desk: &Desk,
    seat: &mut Seat,
    milliseconds: u64,
) -> Result<u64, Refusal> {
    let clock = Moment::new(milliseconds)?;
    desk.commit(rt, seat, Edit::Advance { clock })
}

/// Publishes a seat's calls.
fn publish<R: Wait>(rt: &R, desk: &Desk, seat: &mut Seat) -> Result<(), Refusal> {
    match desk.publish(rt, seat) {
        Ok(_note) => Ok(()),
        Err(refusal) => Err(refusal),
    }
}

/// A seat of a desk.
fn seat_of<R: Abort + Wait>(rt: &R, desk: &Desk) -> Seat {
    desk.seat(rt).expect(rt, "a seat")
}

/// A list of one seat of a desk.
fn one_seat<R: Abort + Wait>(rt: &R, alloc: Global, desk: &Desk) -> Vec<Seat> {
    let mut seats = Vec::new(alloc);
    put_seat(rt, &mut seats, seat_of(rt, desk));
    seats
}

/// Puts a seat into a list.
fn put_seat(rt: &impl Abort, seats: &mut Vec<Seat>, seat: Seat) {
    seats.push(seat).expect(rt, "memory");
}

#[test]
fn four_seats_commit_one_after_the_other(rt: HostRuntime) {
    let alloc = rt.alloc();
    let desk = new_desk(&rt, 100).expect(&rt, "a desk");
    let mut one = seat_of(&rt, &desk);
    let mut two = seat_of(&rt, &desk);
    let mut three = seat_of(&rt, &desk);
    let mut four = seat_of(&rt, &desk);
    assert!(rt; (one.number(), four.number()) == (1, 4));
    assert!(rt; put_both(&rt, alloc, &desk, &mut one, 1, 10) == Some((1, 2)));
    assert!(rt; put_both(&rt, alloc, &desk, &mut two, 2, 20) == Some((3, 4)));
    assert_fifth(&rt, alloc, &desk, &mut three, &mut four);
    let seats = vec![in alloc; one, two, three, four].expect(&rt, "memory");
    let closes = is_whole(close_and_end(&rt, alloc, desk, seats));
    assert!(rt; closes);
}

/// Asserts that of two pieces on the same tail the first is the fifth entry, and the second is out of step.
fn assert_fifth<R: Abort + Wait>(
    rt: &R,
    alloc: Global,
    desk: &Desk,
    three: &mut Seat,
    four: &mut Seat,
) {
    let (first, second) = put_on_one_tail(rt, alloc, desk, three, four);
    assert!(rt; first == Ok(5));
    assert!(rt; second == Err(Refusal::OutOfStep { offset: 49 }));
}

/// Whether both commits of a thread were made, in their order.
fn is_ordered(numbers: Option<(u64, u64)>) -> bool {
    match numbers {
        Some((first, second)) => first < second,
        None => false,
    }
}

/// Sets its own flag, and tells whether one of at most so many looks finds the other's.
fn meet(ours: &AtomicBool, theirs: &AtomicBool) -> bool {
    ours.store(true, Ordering::SeqCst);
    for _ in 0..10_000_000 {
        if theirs.load(Ordering::SeqCst) {
            return true;
        }
        thread::yield_now();
    }
    false
}

/// Whether two threads met, and each commits in its own order.
fn commit_in_order<R: Threads + Wait + Sync>(
    rt: &R,
    alloc: Global,
    desk: &Desk,
    one: &mut Seat,
    two: &mut Seat,
) -> bool {
    let (left, right) = (AtomicBool::new(false), AtomicBool::new(false));
    let (first, second) = thread::join_mut(
        rt,
        &mut || {
            let met = meet(&left, &right);
            (met, put_both(rt, alloc, desk, one, 1, 10))
        },
        &mut || {
            let met = meet(&right, &left);
            (met, put_both(rt, alloc, desk, two, 2, 20))
        },
    );
    first.0 && second.0 && is_ordered(first.1) && is_ordered(second.1)
}

#[test]
fn two_threads_commit_in_their_own_order(rt: HostRuntime) {
    let alloc = rt.alloc();
    let desk = new_desk(&rt, 100).expect(&rt, "a desk");
    let mut one = seat_of(&rt, &desk);
    let mut two = seat_of(&rt, &desk);
    let mut three = seat_of(&rt, &desk);
    let mut four = seat_of(&rt, &desk);
    let ordered = commit_in_order(&rt, alloc, &desk, &mut one, &mut two);
    assert!(rt; ordered);
    assert_fifth(&rt, alloc, &desk, &mut three, &mut four);
    let seats = vec![in alloc; one, two, three, four].expect(&rt, "memory");
    let closes = is_whole(close_and_end(&rt, alloc, desk, seats));
    assert!(rt; closes);
}

#[test]
fn a_full_history_takes_no_entry_and_a_missing_seat_keeps_the_desk_open(rt: HostRuntime) {
    let alloc = rt.alloc();
    let desk = new_desk(&rt, 2).expect(&rt, "a desk");
    let mut one = seat_of(&rt, &desk);
    let mut missing = Some(seat_of(&rt, &desk));
    assert!(rt; put_both(&rt, alloc, &desk, &mut one, 1, 10) == Some((1, 2)));
    let full = put_at(&rt, alloc, &desk, &mut one, &Tail::at(0));
    assert!(rt; full == Err(Refusal::HistoryFull));
    let seats = vec![in alloc; one].expect(&rt, "memory");
    let closed = close_late(&rt, alloc, desk, seats, &mut missing);
    assert!(rt; closed == Ok(Some(2)));
}

/// The number of the last of 65,536 seats, and how the next is refused.
fn last_seat<R: Wait>(rt: &R, desk: &Desk) -> (u32, Option<Refusal>) {
    let mut last = 0;
    for _ in 0..65_536 {
        match seat_number(rt, desk) {
            Ok(number) => last = number,
            Err(refusal) => return (last, Some(refusal)),
        }
    }
    (last, seat_number(rt, desk).err())
}

/// The number of another seat.
fn seat_number<R: Wait>(rt: &R, desk: &Desk) -> Result<u32, Refusal> {
    match desk.seat(rt) {
        Ok(seat) => Ok(seat.number()),
        Err(refusal) => Err(refusal),
    }
}

#[test]
fn the_desk_gives_out_65536_seats(rt: HostRuntime) {
    let desk = new_desk(&rt, 1).expect(&rt, "a desk");
    let (last, refused) = last_seat(&rt, &desk);
    end_desk(&rt, desk);
    assert!(rt; last == 65_536);
    assert!(rt; refused == Some(Refusal::NoSeat));
}
