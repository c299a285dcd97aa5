//! Workers that do rows of jobs at one desk: in the order that a gate gives, with rows that are refused, up to where they stop.
ghost use Rattle.std.specs.Prelude.{◌≤◌, length, All};
ghost use Rattle.smq_desk.specs.Jobs.{IsFresh};
ghost use Rattle.smq_desk.specs.declared.ledger.TheConstants.{LONGEST_HISTORY};

use crate::tests::jobs::{job, pair, take_seats};
use crate::tests::*;
use smq_desk::{Call, Gate, LinkJob, NoGate, load_links};
use std::sync::atomic::AtomicU64;

/// Holds one worker before its first row until another has done one.
#[derive(Drop)]
struct Holds {
    held: u32,
    is_done: AtomicBool,
    ran_out: AtomicBool,
    rows: AtomicU64,
}

impl Holds {
    fn new(held: u32) -> Holds {
        Holds {
            held,
            is_done: AtomicBool::new(false),
            ran_out: AtomicBool::new(false),
            rows: AtomicU64::new(0),
        }
    }

    /// Whether all four rows were done, and the worker wasn't held in vain.
    fn held_back(&self) -> bool {
        self.rows.load(Ordering::SeqCst) == 4 && !self.ran_out.load(Ordering::SeqCst)
    }

    /// Looks for a row that is done at most so many times.
    fn finds_row(&self) -> bool {
        for _ in 0..10_000_000 {
            if self.is_done.load(Ordering::SeqCst) {
                return true;
            }
            thread::yield_now();
        }
        false
    }
}

impl Gate for Holds {
    fn before(&self, worker: u32, row: u64) {
        if worker == self.held && row == 0 && !self.finds_row() {
            self.ran_out.store(true, Ordering::SeqCst);
        }
    }

    fn after(&self, worker: u32, _row: u64) {
        self.rows.fetch_add(1, Ordering::SeqCst);
        if worker != self.held {
            self.is_done.store(true, Ordering::SeqCst);
        }
    }
}

/// A submit_sm and its response.
fn both_pieces(link: u32, session: u64) -> [Row; 2] {
    [
        (link, session, Dir::FromClient, 1000, SUBMIT),
        (link, session, Dir::FromCentre, 1200, RESPONSE),
    ]
}

/// Jobs of a submit_sm and its response each: of link 1 and session 10, and of link 2 and session 20.
fn two_jobs<R: Abort + Wait>(rt: &R, alloc: Global, desk: &Desk) -> Vec<LinkJob>
    ensures fresh { All IsFresh result.items }
    ensures few { length result.items ≤ 64 }
{
    let one = job(rt, alloc, desk, &both_pieces(1, 10)).expect(rt, "a job");
    let two = job(rt, alloc, desk, &both_pieces(2, 20)).expect(rt, "a job");
    pair(alloc, one, two).expect(rt, "memory")
}

/// Whether both rows of each job are done and became its seat's calls, in their order, and the first call of all is of the worker
/// that wasn't held.
fn are_done(jobs: &[LinkJob], held: u32) -> bool {
    match jobs {
        [one, two] => {
            let free = if held == 0 { two } else { one };
            is_done(one) && is_done(two) && first_number(free) == Some(1)
        }
        _ => false,
    }
}

fn is_done(job: &LinkJob) -> bool {
    job.next == 2
        && job.refused == 0
        && job.stop.is_none()
        && job.rows.len() == 2
        && rises(job.seat.calls())
}

/// Whether there are two calls, of the two directions in their order.
fn rises(calls: &[Call]) -> bool {
    match calls {
        [first, second] => {
            first.number < second.number
                && is_of(first, Dir::FromClient)
                && is_of(second, Dir::FromCentre)
        }
        _ => false,
    }
}

fn is_of(call: &Call, dir: Dir) -> bool {
    match &call.edit {
        Edit::Append { batch } => batch.dir() == dir,
        _ => false,
    }
}

fn first_number(job: &LinkJob) -> Option<u64> {
    job.seat.calls().first().map(|call| call.number)
}

/// Does two jobs, of which one is held, and says whether all comes as wanted. The seats come into a list.
fn load_held<R: Abort + Threads + Wait + Sync>(
    rt: &R,
    alloc: Global,
    desk: &Desk,
    held: u32,
    seats: &mut Vec<Seat>,
) -> bool {
    let gate = Holds::new(held);
    let jobs = load_links(rt, desk, two_jobs(rt, alloc, desk), &gate);
    let are_loaded = are_done(jobs.as_slice(), held) && gate.held_back();
    take_seats(jobs, seats) && are_loaded
}

/// Commits two pieces on the same tail, from two more seats: whether the first is made and the second refused.
fn commit_twice<R: Abort + Wait>(
    rt: &R,
    alloc: Global,
    desk: &Desk,
    seats: &mut Vec<Seat>,
) -> bool {
    let mut three = seat_of(rt, desk);
    let mut four = seat_of(rt, desk);
    let (first, second) = put_on_one_tail(rt, alloc, desk, &mut three, &mut four);
    put_seat(rt, seats, three);
    put_seat(rt, seats, four);
    first == Ok(5) && second == Err(Refusal::OutOfStep { offset: 49 })
}

/// Whether two jobs and two pieces come as wanted, and the desk then closes with six entries and the tables that are wanted.
fn loads_held<R: Abort + Threads + Wait + Sync + AllocGlobal>(rt: &R, held: u32) -> bool {
    let alloc = rt.alloc();
    let desk = new_desk(rt, 100).expect(rt, "a desk");
    let mut seats = Vec::new(alloc);
    let are_loaded = load_held(rt, alloc, &desk, held, &mut seats);
    let are_answered = commit_twice(rt, alloc, &desk, &mut seats);
    is_whole(close_and_end(rt, alloc, desk, seats)) && are_loaded && are_answered
}

#[test]
fn workers_wait_for_one_another_by_a_gate(rt: HostRuntime) {
    for held in 0..2 {
        let is_as_wanted = loads_held(&rt, held);
        assert!(rt; is_as_wanted, "worker {held} is held");
    }
}

/// Pieces of session 10 of link 1: one without octets, one that comes before the last moment of its direction, and three that are
/// put after their directions where there is room.
const MIXED: &[Row] = &[
    (1, 10, Dir::FromClient, 1000, b""),
    (1, 10, Dir::FromClient, 1000, SUBMIT),
    (1, 10, Dir::FromClient, 900, SUBMIT),
    (1, 10, Dir::FromCentre, 1200, RESPONSE),
    (1, 10, Dir::FromClient, 1300, SUBMIT),
];

/// How many rows of a job are done and refused, why it stopped, and how many calls its seat has.
type JobTold = (u64, u64, Option<Refusal>, usize);

/// What is told of one job of these pieces, whose seat comes into a list.
fn load_one<R: Abort + Threads + Wait + Sync>(
    rt: &R,
    alloc: Global,
    desk: &Desk,
    pieces: &[Row],
    seats: &mut Vec<Seat>,
) -> Option<JobTold> {
    let job = job(rt, alloc, desk, pieces).expect(rt, "a job");
    let jobs = vec![in alloc; job].expect(rt, "memory");
    let jobs = load_links(rt, desk, jobs, &NoGate);
    let told = told(jobs.as_slice());
    assert!(rt; take_seats(jobs, seats));
    told
}

fn told(jobs: &[LinkJob]) -> Option<JobTold> {
    match jobs {
        [job] => Some((job.next, job.refused, job.stop, job.seat.calls().len())),
        _ => None,
    }
}

/// What is told of a job of rows of which some are refused, at a desk of so many entries, and with how many entries the desk closes
/// for its seat.
fn load_mixed<R: Abort + Threads + Wait + Sync + AllocGlobal>(
    rt: &R,
    limit: u64,
) -> (Option<JobTold>, Option<usize>)
    requires { (1 ≤ limit) × (limit ≤ LONGEST_HISTORY) }
{
    let alloc = rt.alloc();
    let desk = new_desk(rt, limit).expect(rt, "a desk");
    let mut seats = Vec::new(alloc);
    let told = load_one(rt, alloc, &desk, MIXED, &mut seats);
    let entries = entries_of(close_and_end(rt, alloc, desk, seats));
    (told, entries)
}

#[test]
fn a_job_counts_its_refusals_and_stops_where_the_history_is_full(rt: HostRuntime) {
    let whole = load_mixed(&rt, 100);
    assert!(rt; whole == (Some((5, 2, None, 4)), Some(4)));
    let full = load_mixed(&rt, 3);
    assert!(rt; full == (Some((4, 2, Some(Refusal::HistoryFull), 3)), Some(3)));
    let none = load_mixed(&rt, 1);
    assert!(rt; none == (Some((2, 1, Some(Refusal::HistoryFull), 1)), Some(1)));
}

/// So many jobs, each of a submit_sm of a link and session of its own.
fn many_jobs<R: Abort + Wait>(rt: &R, alloc: Global, desk: &Desk, count: u32) -> Vec<LinkJob>
    requires { count ≤ 64 }
    ensures fresh { All IsFresh result.items }
    ensures few { length result.items ≤ 64 }
{
    let mut jobs = Vec::new(alloc);
    for link in 0..count {
        let submit = (link, u64::from(link), Dir::FromClient, 1000, SUBMIT);
        let job = job(rt, alloc, desk, &[submit]).expect(rt, "a job");
        jobs.push(job).expect(rt, "memory");
    }
    jobs
}

/// How many of so many jobs come back in their order with their row done. Their seats come into a list.
fn load_many<R: Abort + Threads + Wait + Sync>(
    rt: &R,
    alloc: Global,
    desk: &Desk,
    count: u32,
    seats: &mut Vec<Seat>,
) -> usize
    requires { count ≤ 64 }
{
    let jobs = load_links(rt, desk, many_jobs(rt, alloc, desk, count), &NoGate);
    let done = rows_done(jobs.as_slice());
    assert!(rt; take_seats(jobs, seats));
    done
}

/// How many jobs have their row done and stand at their place.
fn rows_done(jobs: &[LinkJob]) -> usize {
    jobs.iter()
        .enumerate()
        .filter(|(place, job)| is_row_of(job, *place))
        .count()
}

/// Whether the row of a job is done, which is the job of this place.
fn is_row_of(job: &LinkJob, place: usize) -> bool {
    match job.rows.as_slice() {
        [row] => {
            row.link.0 as usize == place
                && job.seat.number() as usize == place.wrapping_add(1)
                && job.next == 1
                && job.refused == 0
                && job.stop.is_none()
        }
        _ => false,
    }
}

/// How many of so many jobs come back as wanted, and with how many entries the desk closes for their seats.
fn close_many<R: Abort + Threads + Wait + Sync + AllocGlobal>(
    rt: &R,
    count: u32,
) -> (usize, Option<usize>)
    requires { count ≤ 64 }
{
    let alloc = rt.alloc();
    let desk = new_desk(rt, 100).expect(rt, "a desk");
    let mut seats = Vec::new(alloc);
    let done = load_many(rt, alloc, &desk, count, &mut seats);
    let entries = entries_of(close_and_end(rt, alloc, desk, seats));
    (done, entries)
}

/// Asserts that so many jobs come back as wanted.
fn assert_many<R: Abort + Threads + Wait + Sync + AllocGlobal>(rt: &R, count: u32)
    requires { count ≤ 64 }
{
    let closed = close_many(rt, count);
    assert!(rt;
        closed == (count as usize, Some(count as usize)),
        "{count} jobs"
    );
}

#[test]
fn up_to_64_jobs_come_back_in_their_order(rt: HostRuntime) {
    for count in [0, 1, 2, 3, 7, 63, 64] {
        assert_many(&rt, count);
    }
}
