//! The workers of a desk: each has the pieces of its sessions, which wait in its job until they are made.
ghost use Rattle.std.specs.Prelude.{◌≡◌, ◌∷◌, ◌++◌, [], List, All, IfErr, IfOk, IfSome, IsTrue};
ghost use Rattle.std.specs.List.{AllZip};
ghost use Rattle.smq_desk.specs.Jobs.{IsFresh};
ghost use Rattle.smq_load.specs.declared.record.Row.{Row as RowOf};
ghost use Rattle.smq_load.specs.declared.record.Row.TheVariants.{Piece};
ghost use Rattle.smq_engine.specs.within.Jobs.{desk_fault, AreJobsOf, AreReady, IsDeskFault, IsDone, IsNew, IsRenewed};

use crate::RunFault;
use smq_desk::{Desk, Gate, LinkJob, Seat, load_links};
use smq_kit::Refusal;
use smq_present::PieceRow;
use std::alloc::{AllocError, Global};
use std::sync::Wait;
use std::thread::Threads;

/// How many workers there are.
pub const WORKERS: u64 = 8;

/// A job without rows for each worker, from a seat of its own.
pub(crate) fn new_jobs<RT: AllocGlobal + Wait>(
    rt: &RT,
    desk: &Desk,
) -> Result<Vec<LinkJob>, RunFault>
    ensures ready { IfOk result (λ jobs. AreReady jobs.items) }
    ensures pieces { IfOk result (λ jobs. AreJobsOf [] jobs.items) }
    ensures err { IfErr result IsDeskFault }
{
    let alloc = rt.alloc();
    let mut jobs = Vec::with_capacity(alloc, WORKERS as usize)?;
    for _ in 0..WORKERS {
        let job = new_job(rt, alloc, desk)?;
        if jobs.push(job).is_err() {
            return Err(RunFault::Memory);
        }
    }
    Ok(jobs)
}

/// A job without rows, from a new seat.
fn new_job<RT: Wait>(rt: &RT, alloc: Global, desk: &Desk) -> Result<LinkJob, RunFault>
    ensures ok { IfOk result IsNew }
    ensures err { IfErr result IsDeskFault }
{
    Ok(job_from(alloc, new_seat(rt, desk)?))
}

/// A new seat.
pub(crate) fn new_seat<RT: Wait>(rt: &RT, desk: &Desk) -> Result<Seat, RunFault>
    ensures calls { IfOk result (λ seat. seat.calls ≡ []) }
    ensures err { IfErr result IsDeskFault }
{
    match desk.seat(rt) {
        Ok(seat) => Ok(seat),
        Err(refusal) => Err(fault_of(refusal)),
    }
}

/// A job without rows.
fn job_from(alloc: Global, seat: Seat) -> LinkJob
    ensures fresh { IsFresh result }
    ensures done { IsDone result }
    ensures seat { result.seat ≡ seat }
{
    LinkJob {
        seat,
        rows: Vec::new(alloc),
        next: 0,
        refused: 0,
        stop: None,
    }
}

/// Why a desk's refusal, or what stopped a worker, ends a check.
pub(crate) fn fault_of(refusal: Refusal) -> RunFault
    ensures value { result ≡ desk_fault refusal }
    ensures kind { IsDeskFault result }
{
    match refusal {
        Refusal::Memory => RunFault::Memory,
        Refusal::NoThread => RunFault::NoThread,
        _ => RunFault::Desk,
    }
}

/// Puts a piece behind those that wait for its worker.
pub(crate) fn hand_over(jobs: Vec<LinkJob>, piece: PieceRow) -> Result<Vec<LinkJob>, AllocError>
    requires { AreReady jobs.items }
    ensures ready { IfOk result (λ after. AreReady after.items) }
    ensures pieces { (rows : List RowOf) → AreJobsOf rows jobs.items
        → IfOk result (λ after. AreJobsOf (rows ++ Piece piece ∷ []) after.items) }
{
    let mut jobs = jobs;
    let worker = (piece.session.0 % WORKERS) as usize;
    let job = &mut jobs[worker];
    job.rows.push(piece)?;
    Ok(jobs)
}

/// Makes the pieces that wait, those of each worker in a thread of its own.
pub(crate) fn make_pieces<RT: AllocGlobal + Threads + Wait + Sync, G: Gate + Sync>(
    rt: &RT,
    desk: &Desk,
    jobs: Vec<LinkJob>,
    gate: &G,
) -> Result<Vec<LinkJob>, RunFault>
    requires { AreReady jobs.items }
    ensures ready { IfOk result (λ after. AreReady after.items) }
    ensures pieces { (rows : List RowOf) → AreJobsOf rows jobs.items
        → IfOk result (λ after. AreJobsOf rows after.items) }
    ensures done { IfOk result (λ after. All IsDone after.items) }
    ensures err { IfErr result IsDeskFault }
{
    if are_done(&jobs) {
        return Ok(jobs);
    }
    let worked = load_links(rt, desk, jobs, gate);
    let fresh = renewed(rt.alloc(), worked)?;
    Ok(fresh)
}

/// Whether nothing waits.
fn are_done(jobs: &[LinkJob]) -> bool
    ensures { IsTrue result → All IsDone jobs.now }
{
    jobs.iter().all(|job| job.rows.is_empty())
}

/// Fresh jobs from the seats of those that were done; or why one of those isn't.
fn renewed(alloc: Global, jobs: Vec<LinkJob>) -> Result<Vec<LinkJob>, RunFault>
    ensures ok { IfOk result (λ fresh. AllZip IsRenewed jobs.items fresh.items) }
    ensures err { IfErr result IsDeskFault }
{
    let mut fresh = Vec::with_capacity(alloc, jobs.len())?;
    for job in jobs {
        let job = renew(alloc, job)?;
        if fresh.push(job).is_err() {
            return Err(RunFault::Memory);
        }
    }
    Ok(fresh)
}

/// A fresh job from the seat of one that was done.
fn renew(alloc: Global, job: LinkJob) -> Result<LinkJob, RunFault>
    ensures ok { IfOk result (λ fresh. IsRenewed job fresh) }
    ensures stop { IfErr result (λ fault. IfSome job.stop (λ refusal. fault ≡ desk_fault refusal)) }
    ensures err { IfErr result IsDeskFault }
{
    let LinkJob {
        seat,
        rows: _,
        next: _,
        refused: _,
        stop,
    } = job;
    match stop {
        None => Ok(job_from(alloc, seat)),
        Some(refusal) => Err(fault_of(refusal)),
    }
}
