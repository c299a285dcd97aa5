//! The rows of settings and a script, made at a desk from nine seats: the first makes the plain edits, and the workers each run of
//! pieces between them.
//!
//! A desk ends by a call, so each function that owns one is short, and has it on the heap.
ghost use Rattle.std.specs.Prelude.{◌≡◌, ◌∷◌, ◌++◌, ◌↔◌, [], List, IfErr, IfOk, OnOk, IsTrue, map, length};
ghost use Rattle.smq_present.specs.whole.Scratch.{scratch};
ghost use Rattle.smq_desk.specs.History.{replay, IsLegal};
ghost use Rattle.smq_load.specs.declared.record.Row.{Row as RowOf};
ghost use Rattle.smq_load.specs.declared.record.Row.TheVariants.{Plain};
ghost use Rattle.smq_engine.specs.Workers.{HaveMadeRows, edits_of_calls, plain_edit, plain_edits};
ghost use Rattle.smq_engine.specs.within.Jobs.{AreJobsOf, AreReady, IsClosedFor, IsDeskFault};

use crate::RunFault;
use crate::workers::{fault_of, hand_over, make_pieces, new_jobs, new_seat};
use smq_desk::{Closed, Desk, Gate, LONGEST_HISTORY, LinkJob, Seat};
use smq_kit::Refusal;
use smq_load::Row;
use smq_present::{Edit, Tables};
use std::alloc::{AllocError, Global};
use std::sync::Wait;
use std::thread::Threads;

/// Makes the rows of settings and a script at a new desk, and gives it with its seats.
pub(crate) fn make_at_desk<RT: AllocGlobal + Threads + Wait + Sync, G: Gate + Sync>(
    rt: &RT,
    settings_rows: Vec<Row>,
    rows: Vec<Row>,
    gate: &G,
) -> Result<(Box<Desk>, Vec<Seat>), RunFault>
    ensures ok { IfOk result (λ made.
        HaveMadeRows (settings_rows.items ++ rows.items) made.1.items) }
    ensures err { IfErr result IsDeskFault }
{
    let desk = new_desk(rt)?;
    match make_rows(rt, &desk, settings_rows, rows, gate) {
        Ok(seats) => Ok((desk, seats)),
        Err(fault) => {
            end_desk(rt, desk);
            Err(fault)
        }
    }
}

/// A desk of an empty book, for as many entries as any desk may have.
fn new_desk<RT: AllocGlobal + Wait>(rt: &RT) -> Result<Box<Desk>, RunFault>
    ensures { IfErr result IsDeskFault }
{
    match Desk::new(rt, LONGEST_HISTORY) {
        Ok(desk) => boxed_desk(rt, desk),
        Err(refusal) => Err(fault_of(refusal)),
    }
}

/// A desk on the heap: who owns it owns an address.
fn boxed_desk<RT: AllocGlobal + Wait>(rt: &RT, desk: Desk) -> Result<Box<Desk>, RunFault>
    ensures { IfErr result IsDeskFault }
{
    match Box::new(rt.alloc(), desk) {
        Ok(desk) => Ok(desk),
        Err(failed) => {
            failed.value.end(rt);
            Err(RunFault::Memory)
        }
    }
}

/// Ends a desk that is of no more use.
pub(crate) fn end_desk<RT: Wait>(rt: &RT, desk: Box<Desk>) {
    Box::into_inner(desk).end(rt);
}

/// Closes a desk for all its seats. It tells whether the desk's tables are these, and how many entries it has.
pub(crate) fn close_desk<RT: Wait>(
    rt: &RT,
    desk: Box<Desk>,
    seats: Vec<Seat>,
    tables: &Tables,
) -> Result<(bool, u64), RunFault>
    ensures ok { IfOk result (λ found. IsClosedFor seats.items tables.now.shown found.0 found.1) }
    ensures err { IfErr result (λ fault. fault ≡ RunFault.Desk) }
{
    match Box::into_inner(desk).close(seats) {
        Ok(closed) => Ok(end_closed(rt, closed, tables)),
        Err((_, desk, _)) => {
            desk.end(rt);
            Err(RunFault::Desk)
        }
    }
}

/// Whether the tables of a closed desk, which ends here, are these, and how many entries it has. What it holds is left to the system.
fn end_closed<RT: Wait>(rt: &RT, closed: Closed, tables: &Tables) -> (bool, u64)
    ensures same { IsTrue result.0 ↔ (scratch (replay closed.entries) ≡ tables.now.shown) }
    ensures count { result.1 ≡ length closed.entries }
    ensures legal { IsLegal closed.entries }
{
    let found = (has_tables(&closed, tables), count_entries(&closed));
    closed.leave(rt);
    found
}

/// Whether a closed desk has these tables.
#[tactic(auto, using(crate::proofs::DeskLemmas::same_shown))]
fn has_tables(closed: &Closed, tables: &Tables) -> bool
    ensures { IsTrue result ↔ (scratch (replay closed.now.entries) ≡ tables.now.shown) }
{
    *closed.book().tables() == *tables
}

/// How many entries a closed desk has.
fn count_entries(closed: &Closed) -> u64
    ensures count { result ≡ length closed.now.entries }
    ensures legal { IsLegal closed.now.entries }
{
    closed.entries().count() as u64
}

/// Makes the rows of settings and a script at a desk, and gives its seats.
fn make_rows<RT: AllocGlobal + Threads + Wait + Sync, G: Gate + Sync>(
    rt: &RT,
    desk: &Desk,
    settings_rows: Vec<Row>,
    rows: Vec<Row>,
    gate: &G,
) -> Result<Vec<Seat>, RunFault>
    ensures ok { IfOk result (λ seats. HaveMadeRows (settings_rows.items ++ rows.items) seats.items) }
    ensures err { IfErr result IsDeskFault }
{
    let mut first = new_seat(rt, desk)?;
    let jobs = new_jobs(rt, desk)?;
    let jobs = take_rows(rt, desk, &mut first, jobs, settings_rows, gate)?;
    let jobs = take_rows(rt, desk, &mut first, jobs, rows, gate)?;
    let jobs = make_pieces(rt, desk, jobs, gate)?;
    Ok(seats_of(rt.alloc(), first, jobs)?)
}

/// The first seat, and then those of jobs.
fn seats_of(alloc: Global, first: Seat, jobs: Vec<LinkJob>) -> Result<Vec<Seat>, AllocError>
    ensures { IfOk result (λ seats. seats.items ≡ first ∷ map (λ job. job.seat) jobs.items) }
{
    let mut seats = Vec::new(alloc);
    seats.push(first)?;
    for job in jobs {
        let LinkJob {
            seat,
            rows: _,
            next: _,
            refused: _,
            stop: _,
        } = job;
        seats.push(seat)?;
    }
    Ok(seats)
}

/// Takes rows one after another.
fn take_rows<RT: AllocGlobal + Threads + Wait + Sync, G: Gate + Sync>(
    rt: &RT,
    desk: &Desk,
    first: &mut Seat,
    jobs: Vec<LinkJob>,
    rows: Vec<Row>,
    gate: &G,
) -> Result<Vec<LinkJob>, RunFault>
    requires { AreReady jobs.items }
    ensures ready { IfOk result (λ after. AreReady after.items) }
    ensures plain { OnOk result (edits_of_calls first.new.calls
        ≡ edits_of_calls first.old.calls ++ plain_edits rows.items) }
    ensures pieces { (before : List RowOf) → AreJobsOf before jobs.items
        → IfOk result (λ after. AreJobsOf (before ++ rows.items) after.items) }
    ensures err { IfErr result IsDeskFault }
{
    let mut jobs = jobs;
    for row in rows {
        jobs = take_row(rt, desk, first, jobs, row, gate)?;
    }
    Ok(jobs)
}

/// Takes a row: a piece waits for its worker, and any other edit is made once the pieces before it are.
fn take_row<RT: AllocGlobal + Threads + Wait + Sync, G: Gate + Sync>(
    rt: &RT,
    desk: &Desk,
    first: &mut Seat,
    jobs: Vec<LinkJob>,
    row: Row,
    gate: &G,
) -> Result<Vec<LinkJob>, RunFault>
    requires { AreReady jobs.items }
    ensures ready { IfOk result (λ after. AreReady after.items) }
    ensures plain { OnOk result (edits_of_calls first.new.calls
        ≡ edits_of_calls first.old.calls ++ plain_edit row) }
    ensures pieces { (before : List RowOf) → AreJobsOf before jobs.items
        → IfOk result (λ after. AreJobsOf (before ++ row ∷ []) after.items) }
    ensures err { IfErr result IsDeskFault }
{
    match row {
        Row::Piece(piece) => Ok(hand_over(jobs, piece)?),
        Row::Plain(edit) => make_plain(rt, desk, first, jobs, edit, gate),
    }
}

/// Makes the pieces that wait, and then an edit.
fn make_plain<RT: AllocGlobal + Threads + Wait + Sync, G: Gate + Sync>(
    rt: &RT,
    desk: &Desk,
    first: &mut Seat,
    jobs: Vec<LinkJob>,
    edit: Edit,
    gate: &G,
) -> Result<Vec<LinkJob>, RunFault>
    requires { AreReady jobs.items }
    ensures ready { IfOk result (λ after. AreReady after.items) }
    ensures plain { OnOk result (edits_of_calls first.new.calls
        ≡ edits_of_calls first.old.calls ++ edit ∷ []) }
    ensures pieces { (before : List RowOf) → AreJobsOf before jobs.items
        → IfOk result (λ after. AreJobsOf (before ++ Plain edit ∷ []) after.items) }
    ensures err { IfErr result IsDeskFault }
{
    let jobs = make_pieces(rt, desk, jobs, gate)?;
    commit(rt, desk, first, edit)?;
    Ok(jobs)
}

/// Commits an edit. One that the book refuses is a call, too.
fn commit<RT: Wait>(rt: &RT, desk: &Desk, seat: &mut Seat, edit: Edit) -> Result<(), RunFault>
    ensures ok { OnOk result
        (edits_of_calls seat.new.calls ≡ edits_of_calls seat.old.calls ++ edit ∷ []) }
    ensures err { IfErr result IsDeskFault }
{
    match desk.commit(rt, seat, edit) {
        Err(Refusal::Memory) => Err(RunFault::Memory),
        Err(Refusal::HistoryFull) => Err(RunFault::Desk),
        Ok(_) | Err(_) => Ok(()),
    }
}
