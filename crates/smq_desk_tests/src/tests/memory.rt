//! A desk with each allocation in its calls refused in turn (gate/check-out-of-memory-in-calls): history, the seat's
//! calls and the board are as before, the same call is answered then as ever, and the desk closes.
ghost use Rattle.std.specs.Prelude.{◌≤◌};
ghost use Rattle.smq_desk.specs.declared.ledger.TheConstants.{LONGEST_HISTORY};

use crate::tests::desks::boxed_desk;
use crate::tests::editions::front_of;
use crate::tests::*;
use smq_desk::{Note, Watcher};
use smq_marks::Call;

/// Whether a call was refused for memory.
fn wants_memory<T>(answer: &Result<T, Refusal>) -> bool {
    match answer {
        Ok(_) => false,
        Err(refusal) => *refusal == Refusal::Memory,
    }
}

fn marked_desk<R: AllocGlobal>(rt: &R, limit: u64) -> Result<Desk, Refusal>
    requires { (1 ≤ limit) × (limit ≤ LONGEST_HISTORY) }
{
    smq_marks::begin(rt.alloc(), Call::NewDesk);
    let desk = Desk::new(rt, limit);
    smq_marks::end(rt.alloc(), wants_memory(&desk));
    desk
}

/// A desk for so many entries at most, which is asked for again where memory was refused.
fn desk_again<R: Wait + AllocGlobal>(rt: &R, limit: u64) -> Result<Box<Desk>, Refusal>
    requires { (1 ≤ limit) × (limit ≤ LONGEST_HISTORY) }
{
    match marked_desk(rt, limit) {
        Ok(desk) => boxed_desk(rt, rt.alloc(), desk),
        Err(_) => new_desk(rt, limit),
    }
}

fn marked_seat<R: Wait>(rt: &R, alloc: Global, desk: &Desk) -> Result<Seat, Refusal> {
    smq_marks::begin(alloc, Call::Seat);
    let seat = desk.seat(rt);
    smq_marks::end(alloc, wants_memory(&seat));
    seat
}

/// A seat, which is asked for again where memory was refused.
fn seat_again<R: Abort + Wait>(rt: &R, alloc: Global, desk: &Desk) -> Seat {
    match marked_seat(rt, alloc, desk) {
        Ok(seat) => seat,
        Err(_) => seat_of(rt, desk),
    }
}

fn marked_watcher<R: Wait>(rt: &R, alloc: Global, desk: &Desk) -> Result<Watcher, Refusal> {
    smq_marks::begin(alloc, Call::Watcher);
    let watcher = desk.watcher(rt);
    smq_marks::end(alloc, wants_memory(&watcher));
    watcher
}

/// A watcher, which is asked for again where memory was refused.
fn watcher_again<R: Abort + Wait>(rt: &R, alloc: Global, desk: &Desk) -> Watcher {
    match marked_watcher(rt, alloc, desk) {
        Ok(watcher) => watcher,
        Err(_) => desk.watcher(rt).expect(rt, "a watcher"),
    }
}

fn marked_tail<R: Wait>(rt: &R, alloc: Global, desk: &Desk, session: u64) -> Result<Tail, Refusal> {
    smq_marks::begin(alloc, Call::Tail);
    let tail = desk.tail(rt, SessionId(session), Dir::FromClient);
    smq_marks::end(alloc, wants_memory(&tail));
    tail
}

/// The tail of what the client of a session sends, which is asked for again where memory was refused.
fn tail_again<R: Abort + Wait>(rt: &R, alloc: Global, desk: &Desk, session: u64) -> Tail {
    match marked_tail(rt, alloc, desk, session) {
        Ok(tail) => tail,
        Err(_) => desk
            .tail(rt, SessionId(session), Dir::FromClient)
            .expect(rt, "a tail"),
    }
}

/// The first octets of a submit_sm, which the client of session 11 sends in two pieces: a tail keeps them.
const WAITING: &[Row] = &[
    (1, 11, Dir::FromClient, 1000, b"\0\0\0\x31\0\0\0\x04"),
    (1, 11, Dir::FromClient, 1000, b"\0\0\0\0\0\0"),
];

/// Whether the tail of octets that wait has them.
fn keeps_octets<R: Abort + Wait>(rt: &R, alloc: Global, desk: &Desk, seat: &mut Seat) -> bool {
    for row in WAITING {
        put(rt, alloc, desk, seat, *row).expect(rt, "an entry");
    }
    tail_again(rt, alloc, desk, 11).offset() == 14
}

/// The edit that puts a submit_sm after a tail.
fn next_edit<R: Abort + Wait>(rt: &R, alloc: Global, desk: &Desk) -> Edit {
    let tail = tail_again(rt, alloc, desk, 10);
    let batch = batch_on(alloc, &tail, (1, 10, Dir::FromClient, 1000), SUBMIT).expect(
        rt, "a batch",
    );
    Edit::Append { batch }
}

fn marked_commit<R: Wait>(
    rt: &R,
    alloc: Global,
    desk: &Desk,
    seat: &mut Seat,
    edit: Edit,
) -> Result<u64, Refusal> {
    smq_marks::begin(alloc, Call::Commit);
    let answer = desk.commit(rt, seat, edit);
    smq_marks::end(alloc, answer == Err(Refusal::Memory));
    answer
}

/// Commits a submit_sm on the present tail, and once more where memory was refused: then neither the seat nor the history had it.
fn put_again<R: Abort + Wait>(rt: &R, alloc: Global, desk: &Desk, seat: &mut Seat) -> bool {
    let before = seat.calls().len();
    let edit = next_edit(rt, alloc, desk);
    let copy = edit.copy().expect(rt, "a copy");
    let mut answer = marked_commit(rt, alloc, desk, seat, copy);
    if answer == Err(Refusal::Memory) && seat.calls().len() == before {
        answer = desk.commit(rt, seat, edit);
    }
    answer == Ok(before as u64 + 1) && seat.calls().len() == before + 1
}

fn marked_publish<R: Wait>(
    rt: &R,
    alloc: Global,
    desk: &Desk,
    seat: &mut Seat,
) -> Result<Note, Refusal> {
    smq_marks::begin(alloc, Call::Publish);
    let note = desk.publish(rt, seat);
    smq_marks::end(alloc, wants_memory(&note));
    note
}

/// Publishes the seat's calls, and once more where memory was refused: then the watcher shows what it showed.
fn publish_again<R: Wait>(
    rt: &R,
    alloc: Global,
    desk: &Desk,
    seat: &mut Seat,
    watcher: &mut Watcher,
) -> bool {
    let before = front_of(watcher);
    let calls = seat.calls().len();
    let mut published = marked_publish(rt, alloc, desk, seat).is_ok();
    if !published && front_of(watcher) == before {
        published = publish(rt, desk, seat) == Ok(());
    }
    published && seat.calls().len() == calls && front_of(watcher) == Some(calls as u64)
}

/// Commits clocks, two pieces, and then nine times a submit_sm, each of which is published: whether each leaves the desk as wanted.
fn put_nine<R: Abort + Wait>(
    rt: &R,
    alloc: Global,
    desk: &Desk,
    seat: &mut Seat,
    clocks: u64,
) -> bool {
    for number in 0..clocks {
        commit_clock(rt, desk, seat, number).expect(rt, "an entry");
    }
    let mut watcher = watcher_again(rt, alloc, desk);
    if !keeps_octets(rt, alloc, desk, seat) {
        return false;
    }
    for _ in 0..9 {
        if !put_again(rt, alloc, desk, seat)
            || !publish_again(rt, alloc, desk, seat, &mut watcher)
        {
            return false;
        }
    }
    true
}

/// How many entries a closed desk has, and how many octets session 10 has from the client.
fn size_of(told: Told) -> Option<(usize, u64)> {
    match told {
        Told::Closed(figures) => Some((figures.entries, figures.octets)),
        Told::Open(_) | Told::Lost => None,
    }
}

/// Whether a desk is left as wanted by its calls, and what it has when it closes.
fn put_and_close<R: Abort + Wait + AllocGlobal>(
    rt: &R,
    clocks: u64,
) -> (bool, Option<(usize, u64)>) {
    let alloc = rt.alloc();
    let desk = desk_again(rt, 2000).expect(rt, "a desk");
    let mut seat = seat_again(rt, alloc, &desk);
    let are_put = put_nine(rt, alloc, &desk, &mut seat, clocks);
    let seats = vec![in alloc; seat].expect(rt, "memory");
    (are_put, size_of(close_and_end(rt, alloc, desk, seats)))
}

/// A submit_sm has 49 octets. A history seals its entries at 1,024 of them.
#[test]
fn want_of_memory_leaves_the_desk_as_it_was(rt: HostRuntime) {
    let new = put_and_close(&rt, 0);
    assert!(rt; new == (true, Some((11, 441))));
    let sealing = put_and_close(&rt, 1018);
    assert!(rt; sealing == (true, Some((1029, 441))));
}
