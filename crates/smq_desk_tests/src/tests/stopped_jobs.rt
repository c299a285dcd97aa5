//! Jobs that stop: at a desk whose history is full, and, with each allocation and each start of a thread in
//! `load_links` refused in turn (gate/check-out-of-memory-in-calls), for lack of memory or of a thread.
ghost use Rattle.std.specs.Prelude.{◌≤◌, length, All, IfOk};
ghost use Rattle.smq_desk.specs.Jobs.{IsFresh};
ghost use Rattle.smq_desk.specs.declared.ledger.TheConstants.{LONGEST_HISTORY};

use crate::tests::jobs::{fresh, job, pair, take_seats};
use crate::tests::*;
use smq_book::PieceRow;
use smq_desk::{LinkJob, NoGate, load_links};
use smq_marks::Call;

/// The rows of a job: a submit_sm, its response, and a submit_sm again.
const ONE: &[Row] = &[
    (1, 10, Dir::FromClient, 1000, SUBMIT),
    (1, 10, Dir::FromCentre, 1200, RESPONSE),
    (1, 10, Dir::FromClient, 1300, SUBMIT),
];

/// The same of another link and session.
const TWO: &[Row] = &[
    (2, 20, Dir::FromClient, 1000, SUBMIT),
    (2, 20, Dir::FromCentre, 1200, RESPONSE),
    (2, 20, Dir::FromClient, 1300, SUBMIT),
];

/// Both jobs, from two new seats.
fn two_jobs<R: Wait>(rt: &R, alloc: Global, desk: &Desk) -> Result<Vec<LinkJob>, Refusal>
    ensures fresh { IfOk result (λ jobs. All IsFresh jobs.items) }
    ensures few { IfOk result (λ jobs. length jobs.items ≤ 64) }
{
    let one = job(rt, alloc, desk, ONE)?;
    let two = job(rt, alloc, desk, TWO)?;
    pair(alloc, one, two)
}

/// The rows that are left of a list of which so many are done.
fn left_of(rows: Vec<PieceRow>, done: u64) -> Result<Vec<PieceRow>, Refusal> {
    let mut rows = rows;
    let done = rows.len().min(done as usize);
    match rows.split_off(done) {
        Ok(left) => Ok(left),
        Err(_) => Err(Refusal::Memory),
    }
}

/// The rows of a job that are left, as a job from its seat.
fn rest_of(job: LinkJob) -> Result<LinkJob, Refusal>
    ensures { IfOk result IsFresh }
{
    let LinkJob {
        seat,
        rows,
        next,
        refused: _,
        stop: _,
    } = job;
    match left_of(rows, next) {
        Ok(left) => Ok(fresh(seat, left)),
        Err(refusal) => Err(refusal),
    }
}

/// The same of the last of some jobs.
fn rest_of_last(jobs: &mut Vec<LinkJob>) -> Result<LinkJob, Refusal>
    ensures { IfOk result IsFresh }
{
    match jobs.pop() {
        Some(job) => rest_of(job),
        None => Err(Refusal::NoSeat),
    }
}

/// The same of two jobs.
fn rests_of(alloc: Global, jobs: &mut Vec<LinkJob>) -> Result<Vec<LinkJob>, Refusal>
    ensures fresh { IfOk result (λ jobs. All IsFresh jobs.items) }
    ensures few { IfOk result (λ jobs. length jobs.items ≤ 64) }
{
    let two = rest_of_last(jobs)?;
    let one = rest_of_last(jobs)?;
    pair(alloc, one, two)
}

/// Whether this is the row of a piece.
fn is_row(row: &PieceRow, piece: &Row) -> bool {
    let (link, session, dir, moment, octets) = piece;
    row.link == LinkId(*link)
        && row.session == SessionId(*session)
        && row.dir == *dir
        && row.moment.milliseconds() == *moment
        && row.octets.as_slice() == *octets
}

/// Whether these are the rows of all pieces after so many.
fn are_rows(rows: &[PieceRow], pieces: &[Row], before: usize) -> bool {
    rows.len() == pieces.len().saturating_sub(before)
        && rows
            .iter()
            .zip(pieces.iter().skip(before))
            .all(|(row, piece)| is_row(row, piece))
}

/// Whether a job tells why it stopped, where it did. Of one whose thread was refused no row is done.
fn tells_why(job: &LinkJob) -> bool {
    let is_whole = job.next == job.rows.len() as u64;
    match job.stop {
        None => is_whole,
        Some(Refusal::NoThread) => !is_whole && job.next == 0,
        Some(Refusal::Memory) | Some(Refusal::HistoryFull) => !is_whole,
        Some(_) => false,
    }
}

/// Whether a job of the pieces after so many has all its rows, and its seat a call for each that is done.
fn is_kept(job: &LinkJob, pieces: &[Row], before: usize) -> bool {
    are_rows(job.rows.as_slice(), pieces, before)
        && job.refused == 0
        && job.seat.calls().len() as u64 == job.next.saturating_add(before as u64)
        && tells_why(job)
}

/// How many calls the seats of two jobs have.
fn calls_of(jobs: &[LinkJob]) -> (usize, usize) {
    match jobs {
        [one, two] => (one.seat.calls().len(), two.seat.calls().len()),
        _ => (0, 0),
    }
}

fn stops_for(jobs: &[LinkJob], why: Refusal) -> bool {
    jobs.iter().any(|job| job.stop == Some(why))
}

/// Whether memory or a thread was wanting.
fn was_wanting(jobs: &[LinkJob]) -> bool {
    stops_for(jobs, Refusal::Memory) || stops_for(jobs, Refusal::NoThread)
}

/// Whether two jobs of `ONE` and `TWO` after so many rows come back whole, and stop at a full history where it is full alone.
fn are_kept(jobs: &[LinkJob], before: (usize, usize), limit: u64) -> bool {
    let (first, second) = calls_of(jobs);
    let is_full = first.saturating_add(second) as u64 == limit;
    let kept = match jobs {
        [one, two] => is_kept(one, ONE, before.0) && is_kept(two, TWO, before.1),
        _ => false,
    };
    kept && (is_full || !stops_for(jobs, Refusal::HistoryFull))
}

/// Loads jobs, for which memory or a thread may be refused.
fn load_marked<R: Threads + Wait + Sync>(
    rt: &R,
    alloc: Global,
    desk: &Desk,
    jobs: Vec<LinkJob>,
) -> Vec<LinkJob>
    requires fresh { All IsFresh jobs.items }
    requires few { length jobs.items ≤ 64 }
{
    smq_marks::begin(alloc, Call::LoadLinks);
    let jobs = load_links(rt, desk, jobs, &NoGate);
    smq_marks::end(alloc, was_wanting(jobs.as_slice()));
    jobs
}

/// Whether two jobs that are loaded, once more where memory or a thread was wanting, come back as wanted. Their seats come into a
/// list.
fn load_whole<R: Abort + Threads + Wait + Sync>(
    rt: &R,
    alloc: Global,
    desk: &Desk,
    limit: u64,
    seats: &mut Vec<Seat>,
) -> bool {
    let jobs = two_jobs(rt, alloc, desk).expect(rt, "two jobs");
    let jobs = load_marked(rt, alloc, desk, jobs);
    let kept = are_kept(jobs.as_slice(), (0, 0), limit);
    if was_wanting(jobs.as_slice()) {
        return load_rests(rt, alloc, desk, limit, jobs, seats) && kept;
    }
    take_seats(jobs, seats) && kept
}

/// The same of the rows that are left. Nothing is wanting any more.
fn load_rests<R: Abort + Threads + Wait + Sync>(
    rt: &R,
    alloc: Global,
    desk: &Desk,
    limit: u64,
    jobs: Vec<LinkJob>,
    seats: &mut Vec<Seat>,
) -> bool {
    let mut jobs = jobs;
    let before = calls_of(jobs.as_slice());
    let rests = rests_of(alloc, &mut jobs).expect(rt, "the rows that are left");
    let jobs = load_links(rt, desk, rests, &NoGate);
    let kept = are_kept(jobs.as_slice(), before, limit) && !was_wanting(jobs.as_slice());
    take_seats(jobs, seats) && kept
}

/// Whether two jobs come back as wanted at a desk of so many entries, and with how many it closes for their seats, of which the last
/// comes late.
fn load_and_close<R: Abort + Threads + Wait + Sync + AllocGlobal>(
    rt: &R,
    limit: u64,
) -> (bool, Option<usize>)
    requires { (1 ≤ limit) × (limit ≤ LONGEST_HISTORY) }
{
    let alloc = rt.alloc();
    let desk = new_desk(rt, limit).expect(rt, "a desk");
    let mut seats = Vec::new(alloc);
    let kept = load_whole(rt, alloc, &desk, limit, &mut seats);
    let closed = close_without_last(rt, alloc, desk, seats).expect(rt, "a desk that closes");
    (kept, closed)
}

/// With how many entries a desk closes that stayed open for want of its last seat.
fn close_without_last<R: Wait>(
    rt: &R,
    alloc: Global,
    desk: Box<Desk>,
    seats: Vec<Seat>,
) -> Result<Option<usize>, Refusal> {
    let mut seats = seats;
    let mut missing = seats.pop();
    close_late(rt, alloc, desk, seats, &mut missing)
}

#[test]
fn jobs_that_stop_keep_their_rows_and_their_desk_closes_for_all_seats(rt: HostRuntime) {
    let full = load_and_close(&rt, 3);
    assert!(rt; full == (true, Some(3)));
    let whole = load_and_close(&rt, 100);
    assert!(rt; whole == (true, Some(6)));
}
