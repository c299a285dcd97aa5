//! Jobs that workers do at one desk, each in a thread of its own.
//!
//! A list of jobs is halved, and one half lent to a thread, until one job is left. A thread gives its jobs back, and promises what
//! became of them. A thread that the system refuses hands its closure back, which then stops the jobs that it was lent.
ghost use Rattle.std.specs.Prelude.{◌≡◌, ◌≤◌, ◌+◌, ◌++◌, ◌<◌, All, length, vec_capacity, vec_len};
ghost use Rattle.std.specs.List.{AllZip};
ghost use Rattle.std.specs.Thread.{IsSync};
ghost use Rattle.smq_desk.specs.Jobs.{IsFresh, IsStop, Worked};

use crate::worker::work;
use crate::{Desk, Gate, LinkJob};
use smq_kit::Refusal;
use std::snapshot::Snapshot;
use std::sync::Wait;
use std::sync::atomic::{AtomicBool, Ordering};
use std::thread;
use std::thread::{Promise, Threads};

/// Does jobs at a desk, each in a thread of its own; the caller's is one of them. A worker prepares a row on the tail that its
/// direction has at that time, and commits it from the job's seat, one row after another. All jobs come back in their order. A
/// refusal of a row is counted, and the worker goes on. A job stops at a row for lack of memory, where the history is full, or
/// before its first row where the system refuses its thread.
///
/// Where two jobs have rows of one session, other rows may come between the tail that a worker reads and its commit: then its row
/// is refused as `OutOfStep`.
pub fn load_links<R: Threads + Wait + Sync, G: Gate + Sync>(
    rt: &R,
    desk: &Desk,
    jobs: Vec<LinkJob>,
    gate: &G,
) -> Vec<LinkJob>
    requires few { length jobs.items ≤ 64 }
    requires fresh { All IsFresh jobs.items }
    ensures { AllZip Worked jobs.items result.items }
{
    spread(rt, desk, gate, 0, jobs)
}

/// The jobs that a thread was lent. It gives them back worked.
#[derive(Drop)]
struct Lent(Snapshot<Vec<LinkJob>>);

impl Promise<Vec<LinkJob>> for Lent {
    ghost use Rattle.std.specs.List.{AllZip};
    ghost use Rattle.smq_desk.specs.Jobs.{Worked};

    ghost kept_by = { λ p r. AllZip Worked p.0.value.items r.items };
}

/// Stops a job of which nothing is done, if it has rows.
fn halt(job: &mut LinkJob, why: &Refusal)
    requires fresh { IsFresh job.old }
    requires why { IsStop why.now }
    ensures { Worked job.old job.new }
{
    if !job.rows.is_empty() {
        job.stop = Some(*why);
    }
}

/// Stops jobs of which nothing is done.
fn halted(jobs: Vec<LinkJob>, why: &Refusal) -> Vec<LinkJob>
    requires fresh { All IsFresh jobs.items }
    requires why { IsStop why.now }
    ensures worked { AllZip Worked jobs.items result.items }
    ensures capacity { vec_capacity jobs ≤ vec_capacity result }
{
    let mut jobs = jobs;
    for job in jobs.iter_mut() {
        halt(job, why);
    }
    jobs
}

/// Does jobs one after another, as the worker of this number and those after it.
fn done<R: Wait, G: Gate>(
    rt: &R,
    desk: &Desk,
    gate: &G,
    first: u32,
    jobs: Vec<LinkJob>,
) -> Vec<LinkJob>
    requires fresh { All IsFresh jobs.items }
    requires few { first + vec_len jobs ≤ 64 }
    ensures worked { AllZip Worked jobs.items result.items }
    ensures capacity { vec_capacity jobs ≤ vec_capacity result }
{
    let mut jobs = jobs;
    let mut worker = first;
    for job in jobs.iter_mut() {
        work(rt, desk, gate, worker, job);
        worker += 1;
    }
    jobs
}

/// Two lists as one, for which the first has room.
fn glued(front: Vec<LinkJob>, back: Vec<LinkJob>) -> Vec<LinkJob>
    requires { vec_len front + vec_len back ≤ vec_capacity front }
    ensures items { result.items ≡ front.items ++ back.items }
    ensures capacity { vec_capacity front ≤ vec_capacity result }
{
    let (mut front, mut back) = (front, back);
    let _room_is_there = front.append(&mut back);
    front
}

/// Does jobs by halves down to one job, as the worker of this number and those after it.
#[cycle(halving)]
fn spread<R: Threads + Wait + Sync, G: Gate + Sync>(
    rt: &R,
    desk: &Desk,
    gate: &G,
    first: u32,
    jobs: Vec<LinkJob>,
) -> Vec<LinkJob>
    requires fresh { All IsFresh jobs.items }
    requires few { first + vec_len jobs ≤ 64 }
    ensures worked { AllZip Worked jobs.items result.items }
    ensures capacity { vec_capacity jobs ≤ vec_capacity result }
{
    if jobs.len() < 2 {
        return done(rt, desk, gate, first, jobs);
    }
    let mut front = jobs;
    let half = front.len() / 2;
    let Ok(back) = front.split_off(half) else {
        return halted(front, &Refusal::Memory);
    };
    let (front, back) = both(rt, desk, gate, first, first + half as u32, front, back);
    glued(front, back)
}

/// Does two lists of jobs, the second in a thread of its own. Where the system refuses the thread, the second list stops.
#[cycle(halving)]
fn both<R: Threads + Wait + Sync, G: Gate + Sync>(
    rt: &R,
    desk: &Desk,
    gate: &G,
    first: u32,
    beyond: u32,
    front: Vec<LinkJob>,
    back: Vec<LinkJob>,
) -> (Vec<LinkJob>, Vec<LinkJob>)
    requires fresh { All IsFresh front.items × All IsFresh back.items }
    requires some { (0 < vec_len front) × (0 < vec_len back) }
    requires few { (first + vec_len front ≤ 64) × (beyond + vec_len back ≤ 64) }
    ensures worked { AllZip Worked front.items result.0.items
        × AllZip Worked back.items result.1.items }
    ensures capacity { vec_capacity front ≤ vec_capacity result.0 }
{
    let is_refused = AtomicBool::new(false);
    let flag = &is_refused;
    thread::scope(
        thread::scope_env(),
        rt,
        |scope| -> (Vec<LinkJob>, Vec<LinkJob>)
            requires { All IsFresh front.items × All IsFresh back.items × IsSync R.row × IsSync G.row
                × (0 < vec_len front) × (0 < vec_len back)
                × (first + vec_len front ≤ 64) × (beyond + vec_len back ≤ 64) }
            ensures { AllZip Worked front.items result.0.items × AllZip Worked back.items result.1.items
                × (vec_capacity front ≤ vec_capacity result.0) }
        {
            let promise = Lent(Snapshot::of(&back));
            match scope.spawn_with(
                promise,
                move || -> Vec<LinkJob>
                    requires { All IsFresh back.items × IsSync R.row × IsSync G.row
                        × (beyond + vec_len back ≤ 64) }
                    ensures { AllZip Worked back.items result.items }
                {
                    if flag.load(Ordering::SeqCst) {
                        halted(back, &Refusal::NoThread)
                    } else {
                        spread(rt, desk, gate, beyond, back)
                    }
                },
            ) {
                Ok(thread) => {
                    let front = spread(rt, desk, gate, first, front);
                    (front, thread.join(rt))
                }
                Err(returned) => {
                    flag.store(true, Ordering::SeqCst);
                    let run = returned.value;
                    let back = run();
                    (spread(rt, desk, gate, first, front), back)
                }
            }
        },
    )
}
