//! Two threads and four that put their submits into one session, each from a seat of its own.

use crate::tests::contention::{submit_batch, tail_of};
use crate::tests::*;

/// Whether a direction has some submits of 49 octets more than so many octets.
fn is_steps_on(offset: u64, before: u64) -> bool {
    before < offset && offset.saturating_sub(before) % 49 == 0
}

/// Whether a submit_sm is committed, or is out of step where other threads put submits in. None where neither comes.
fn put_once<R: Abort + Wait>(
    rt: &R,
    alloc: Global,
    desk: &Desk,
    seat: &mut Seat,
    sequence_number: u8,
) -> Option<bool> {
    let tail = tail_of(rt, desk).expect(rt, "a tail");
    let batch = submit_batch(alloc, &tail, sequence_number).expect(rt, "a batch");
    is_put(desk.commit(rt, seat, Edit::Append { batch }), tail.offset())
}

/// Whether a commit on a tail of so many octets was made, or was out of step by other submits.
fn is_put(committed: Result<u64, Refusal>, before: u64) -> Option<bool> {
    match committed {
        Ok(_) => Some(true),
        Err(Refusal::OutOfStep { offset }) if is_steps_on(offset, before) => Some(false),
        Err(_) => None,
    }
}

/// Commits a submit_sm, on the tail anew where it is out of step, and gives how often it was.
fn put_numbered<R: Abort + Wait>(
    rt: &R,
    alloc: Global,
    desk: &Desk,
    seat: &mut Seat,
    sequence_number: u8,
) -> Option<u64> {
    for missed in 0..=150 {
        if put_once(rt, alloc, desk, seat, sequence_number)? {
            return Some(missed);
        }
    }
    None
}

/// Commits 50 submits, with this sequence number and those after it, and gives how many answers were `OutOfStep`.
fn put_fifty<R: Abort + Wait>(
    rt: &R,
    alloc: Global,
    desk: &Desk,
    seat: &mut Seat,
    first: u8,
) -> Option<u64> {
    let mut missed: u64 = 0;
    for sequence_number in first..first.saturating_add(50) {
        let more = put_numbered(rt, alloc, desk, seat, sequence_number)?;
        missed = missed.saturating_add(more);
    }
    Some(missed)
}

/// How many answers were `OutOfStep` while two threads that met put 50 submits each, from these seats.
fn put_from_two<R: Abort + Wait + Threads + Sync>(
    rt: &R,
    alloc: Global,
    desk: &Desk,
    one: &mut Seat,
    two: &mut Seat,
    first: u8,
) -> Option<u64> {
    let (left, right) = (AtomicBool::new(false), AtomicBool::new(false));
    let (lower, upper) = thread::join_mut(
        rt,
        &mut || {
            if meet(&left, &right) {
                put_fifty(rt, alloc, desk, one, first)
            } else {
                None
            }
        },
        &mut || {
            if meet(&right, &left) {
                put_fifty(rt, alloc, desk, two, first.saturating_add(50))
            } else {
                None
            }
        },
    );
    Some(lower?.saturating_add(upper?))
}

/// The same from two new seats, which come into a list.
fn put_hundred<R: Abort + Wait + Threads + Sync>(
    rt: &R,
    alloc: Global,
    desk: &Desk,
    seats: &mut Vec<Seat>,
    first: u8,
) -> Option<u64> {
    let mut one = seat_of(rt, desk);
    let mut two = seat_of(rt, desk);
    let missed = put_from_two(rt, alloc, desk, &mut one, &mut two, first);
    put_seat(rt, seats, one);
    put_seat(rt, seats, two);
    missed
}

/// The same of four threads.
fn put_two_hundred<R: Abort + Wait + Threads + Sync>(
    rt: &R,
    alloc: Global,
    desk: &Desk,
    seats: &mut Vec<Seat>,
) -> Option<u64> {
    let mut others = Vec::new(alloc);
    let missed = put_from_four(rt, alloc, desk, seats, &mut others);
    seats.append(&mut others).expect(rt, "memory");
    missed
}

fn put_from_four<R: Abort + Wait + Threads + Sync>(
    rt: &R,
    alloc: Global,
    desk: &Desk,
    seats: &mut Vec<Seat>,
    others: &mut Vec<Seat>,
) -> Option<u64> {
    let (lower, upper) = thread::join_mut(
        rt,
        &mut || put_hundred(rt, alloc, desk, seats, 1),
        &mut || put_hundred(rt, alloc, desk, others, 101),
    );
    Some(lower?.saturating_add(upper?))
}

/// How many answers were `OutOfStep` while two threads or four put 50 submits each, and what their desk then closes with.
fn contend<R: Abort + Wait + Threads + Sync + AllocGlobal>(
    rt: &R,
    are_four: bool,
) -> (Option<u64>, Told) {
    let alloc = rt.alloc();
    let desk = new_desk(rt, 1000).expect(rt, "a desk");
    let mut seats = Vec::new(alloc);
    let missed = if are_four {
        put_two_hundred(rt, alloc, &desk, &mut seats)
    } else {
        put_hundred(rt, alloc, &desk, &mut seats, 1)
    };
    let told = close_and_end(rt, alloc, desk, seats);
    (missed, told)
}

/// How many octets session 10 has from the client, how many of its submits wait, and how many entries there are, and of these were
/// out of step.
fn figures_told(told: Told) -> Option<(u64, u64, usize, usize)> {
    match told {
        Told::Closed(figures) => Some((
            figures.octets,
            figures.waiting.0,
            figures.entries,
            figures.out_of_step,
        )),
        Told::Open(_) | Told::Lost => None,
    }
}

/// Whether there are four threads, how many submits they put in, of how many octets, and how many answers may be out of step: each
/// such answer of a thread is for a submit that another thread put in since it took the tail.
const CROWDS: &[(bool, usize, u64, u64)] = &[(false, 100, 4_900, 100), (true, 200, 9_800, 600)];

#[test]
fn threads_put_their_submits_into_one_session(rt: HostRuntime) {
    for (are_four, submits, octets, most_missed) in CROWDS {
        let (missed, told) = contend(&rt, *are_four);
        let missed = missed.expect(&rt, "submits");
        assert!(rt; missed <= *most_missed, "{missed} answers are out of step");
        let entries = (missed as usize).saturating_add(*submits);
        let wanted = Some((*octets, *submits as u64, entries, missed as usize));
        assert!(rt; figures_told(told) == wanted);
    }
}
