//! Callers who edit one session at a time: batches that are out of step, a full history, and a seat of another desk.
ghost use Rattle.std.specs.Prelude.{◌≤◌};
ghost use Rattle.smq_desk.specs.declared.ledger.TheConstants.{LONGEST_HISTORY};

use crate::tests::*;

/// The batch of octets for session 10 of link 1 from the client, on a tail.
fn batch_of(alloc: Global, tail: &Tail, octets: &[u8]) -> Result<Batch, Refusal> {
    batch_on(alloc, tail, (1, 10, Dir::FromClient, 1000), octets)
}

/// The tail of session 10 from the client.
pub(crate) fn tail_of<R: Wait>(rt: &R, desk: &Desk) -> Result<Tail, Refusal> {
    desk.tail(rt, SessionId(10), Dir::FromClient)
}

/// The batch of a submit_sm with this sequence number.
pub(crate) fn submit_batch(
    alloc: Global,
    tail: &Tail,
    sequence_number: u8,
) -> Result<Batch, Refusal> {
    let Ok(mut octets) = Vec::from_slice(alloc, SUBMIT) else {
        return Err(Refusal::Memory);
    };
    if let Some(octet) = octets.get_mut(15) {
        *octet = sequence_number;
    }
    batch_of(alloc, tail, octets.as_slice())
}

/// What a commit answers.
#[derive(Clone, Copy, PartialEq, Eq)]
enum Answer {
    /// The number of its entry.
    Entry(u64),
    OutOfStep(u64),
    NoSession,
    HistoryFull,
    Other,
}

fn answer_of(committed: Result<u64, Refusal>) -> Answer {
    match committed {
        Ok(number) => Answer::Entry(number),
        Err(Refusal::OutOfStep { offset }) => Answer::OutOfStep(offset),
        Err(Refusal::NoSession) => Answer::NoSession,
        Err(Refusal::HistoryFull) => Answer::HistoryFull,
        Err(_) => Answer::Other,
    }
}

/// What two callers do with sessions of link 1, and what each commit answers.
#[derive(Clone, Copy)]
enum Step {
    /// The first prepares a submit_sm on the tail of session 10.
    Prepare,
    /// The first commits what it prepared.
    Commit(Answer),
    /// The second puts octets into session 10.
    Put(&'static [u8], Answer),
    /// The second withdraws a session.
    Withdraw(u64, Answer),
}

/// A session is withdrawn, and begun anew, between `prepare` and `commit`. The octets `00` and `ff` are as long, and not the same.
const BETWEEN: &[Step] = &[
    Step::Put(SUBMIT, Answer::Entry(1)),
    Step::Prepare,
    Step::Withdraw(10, Answer::Entry(2)),
    Step::Commit(Answer::OutOfStep(0)),
    Step::Put(b"\0", Answer::Entry(4)),
    Step::Prepare,
    Step::Withdraw(10, Answer::Entry(5)),
    Step::Put(b"\xff", Answer::Entry(6)),
    Step::Commit(Answer::OutOfStep(1)),
];

/// A refusal by the book takes one of three entries, and that by a full history none.
const FULL: &[Step] = &[
    Step::Withdraw(9, Answer::NoSession),
    Step::Put(SUBMIT, Answer::Entry(2)),
    Step::Put(SUBMIT, Answer::Entry(3)),
    Step::Withdraw(9, Answer::HistoryFull),
];

/// Whether a step is answered as it says.
fn is_answered<R: Abort + Wait>(
    rt: &R,
    alloc: Global,
    desk: &Desk,
    first: &mut Seat,
    second: &mut Seat,
    prepared: &mut Option<Batch>,
    step: Step,
) -> bool {
    match step {
        Step::Prepare => {
            prepare_submit(rt, alloc, desk, prepared);
            true
        }
        Step::Commit(wanted) => commit_prepared(rt, desk, first, prepared) == Some(wanted),
        Step::Put(octets, wanted) => put_octets(rt, alloc, desk, second, octets) == wanted,
        Step::Withdraw(session, wanted) => withdraw(rt, desk, second, session) == wanted,
    }
}

fn prepare_submit<R: Abort + Wait>(
    rt: &R,
    alloc: Global,
    desk: &Desk,
    prepared: &mut Option<Batch>,
) {
    let tail = tail_of(rt, desk).expect(rt, "a tail");
    *prepared = Some(submit_batch(alloc, &tail, 2).expect(rt, "a batch"));
}

fn commit_prepared<R: Wait>(
    rt: &R,
    desk: &Desk,
    first: &mut Seat,
    prepared: &mut Option<Batch>,
) -> Option<Answer> {
    let batch = prepared.take()?;
    let answer = desk.commit(rt, first, Edit::Append { batch });
    Some(answer_of(answer))
}

fn put_octets<R: Abort + Wait>(
    rt: &R,
    alloc: Global,
    desk: &Desk,
    second: &mut Seat,
    octets: &[u8],
) -> Answer {
    let tail = tail_of(rt, desk).expect(rt, "a tail");
    let batch = batch_of(alloc, &tail, octets).expect(rt, "a batch");
    answer_of(desk.commit(rt, second, Edit::Append { batch }))
}

fn withdraw<R: Wait>(rt: &R, desk: &Desk, second: &mut Seat, session: u64) -> Answer {
    let session = SessionId(session);
    answer_of(desk.commit(rt, second, Edit::Withdraw { session }))
}

/// Whether all steps of two callers are answered as they say.
fn are_answered<R: Abort + Wait>(
    rt: &R,
    alloc: Global,
    desk: &Desk,
    first: &mut Seat,
    second: &mut Seat,
    steps: &[Step],
) -> bool {
    let mut prepared = None;
    let mut are_answered = true;
    for step in steps {
        are_answered = is_answered(rt, alloc, desk, first, second, &mut prepared, *step)
            && are_answered;
    }
    are_answered
}

/// Whether all steps are answered as they say, and with how many entries the desk closes for both seats.
fn play_and_close<R: Abort + Wait + AllocGlobal>(
    rt: &R,
    limit: u64,
    steps: &[Step],
) -> (bool, Option<usize>)
    requires { (1 ≤ limit) × (limit ≤ LONGEST_HISTORY) }
{
    let alloc = rt.alloc();
    let desk = new_desk(rt, limit).expect(rt, "a desk");
    let mut first = seat_of(rt, &desk);
    let mut second = seat_of(rt, &desk);
    let are_answered = are_answered(rt, alloc, &desk, &mut first, &mut second, steps);
    let seats = vec![in alloc; first, second].expect(rt, "memory");
    let entries = entries_of(close_and_end(rt, alloc, desk, seats));
    (are_answered, entries)
}

#[test]
fn commits_are_answered_by_what_came_before_them(rt: HostRuntime) {
    assert_played(&rt, 100, BETWEEN, 7);
    assert_played(&rt, 3, FULL, 3);
}

/// Asserts that all steps are answered as they say at a desk of so many entries, which then closes with so many.
fn assert_played<R: Abort + Wait + AllocGlobal>(rt: &R, limit: u64, steps: &[Step], entries: usize)
    requires { (1 ≤ limit) × (limit ≤ LONGEST_HISTORY) }
{
    let played = play_and_close(rt, limit, steps);
    assert!(rt; played == (true, Some(entries)), "limit {limit}");
}

/// A seat of a desk that ended, which made one call there.
fn seat_elsewhere<R: Abort + Wait + AllocGlobal>(rt: &R) -> Seat {
    let desk = new_desk(rt, 100).expect(rt, "a desk");
    let mut seat = seat_of(rt, &desk);
    put_at(rt, rt.alloc(), &desk, &mut seat, &Tail::at(0)).expect(rt, "a call");
    end_desk(rt, desk);
    seat
}

/// What `publish` and `close` answer another desk's seat.
fn bring_elsewhere<R: Abort + Wait + AllocGlobal>(rt: &R) -> (Option<Refusal>, Option<CloseFault>) {
    let alloc = rt.alloc();
    let mut other = seat_elsewhere(rt);
    let desk = new_desk(rt, 100).expect(rt, "a desk");
    let mut seats = one_seat(rt, alloc, &desk);
    let refusal = publish(rt, &desk, &mut other).err();
    put_seat(rt, &mut seats, other);
    let fault = fault_of(close_and_end(rt, alloc, desk, seats));
    (refusal, fault)
}

#[test]
fn a_seat_of_another_desk_neither_publishes_nor_closes(rt: HostRuntime) {
    let (refusal, fault) = bring_elsewhere(&rt);
    assert!(rt; refusal == Some(Refusal::TornSeat { number: 1 }));
    assert!(rt; fault == Some(CloseFault::Torn { seat: 1, number: 1 }));
}
