//! Desks that tests make, close and end.
//!
//! A desk ends by a call of its own, so a test lends it to a function, ends it, and then asserts; or it aborts while the desk is
//! there, by `expect`. A desk stands on the heap: a proof that owns an address is short, and one that owns all parts of a book
//! is not. What a close comes to is told in numbers, which own nothing.
ghost use Rattle.std.specs.Prelude.{◌≤◌};
ghost use Rattle.smq_desk.specs.declared.ledger.TheConstants.{LONGEST_HISTORY};

use smq_book::{Outcome, Tables, Value, View};
use smq_desk::{CloseFault, Closed, Desk, Entry, Reply, Seat};
use smq_kit::{Dir, LinkId, Refusal, SessionId};
use std::alloc::{AllocGlobal, Global};
use std::sync::Wait;

/// A desk of an empty book, for so many entries at most.
pub(crate) fn new_desk<R: Wait + AllocGlobal>(rt: &R, limit: u64) -> Result<Box<Desk>, Refusal>
    requires { (1 ≤ limit) × (limit ≤ LONGEST_HISTORY) }
{
    let desk = Desk::new(rt, limit)?;
    boxed_desk(rt, rt.alloc(), desk)
}

pub(crate) fn boxed_desk<R: Wait>(rt: &R, alloc: Global, desk: Desk) -> Result<Box<Desk>, Refusal> {
    match Box::new(alloc, desk) {
        Ok(desk) => Ok(desk),
        Err(failed) => {
            failed.value.end(rt);
            Err(Refusal::Memory)
        }
    }
}

fn boxed_closed<R: Wait>(rt: &R, alloc: Global, closed: Closed) -> Ended {
    match Box::new(alloc, closed) {
        Ok(closed) => Ended::Closed(closed),
        Err(failed) => {
            failed.value.end(rt);
            Ended::Lost
        }
    }
}

pub(crate) fn end_desk<R: Wait>(rt: &R, desk: Box<Desk>) {
    Box::into_inner(desk).end(rt);
}

pub(crate) fn end_closed<R: Wait>(rt: &R, closed: Box<Closed>) {
    Box::into_inner(closed).end(rt);
}

/// What a close comes to. `Lost` is a desk that found no memory for its box.
pub(crate) enum Ended {
    Closed(Box<Closed>),
    Open(CloseFault, Box<Desk>, Vec<Seat>),
    Lost,
}

/// What a desk came to that is closed for seats and ended.
#[derive(Clone, Copy)]
pub(crate) enum Told {
    Closed(Figures),
    Open(CloseFault),
    Lost,
}

/// What is counted in a desk that is closed.
#[derive(Clone, Copy)]
pub(crate) struct Figures {
    pub(crate) entries: usize,
    /// How many of the entries were refused as out of step.
    pub(crate) out_of_step: usize,
    /// How many octets session 10 has from the client.
    pub(crate) octets: u64,
    /// How many messages of links 1 and 2 are open.
    pub(crate) open: (u64, u64),
    /// How many messages of links 1 and 3 wait.
    pub(crate) waiting: (u64, u64),
}

/// Closes a desk for seats.
pub(crate) fn close<R: Wait>(rt: &R, alloc: Global, desk: Box<Desk>, seats: Vec<Seat>) -> Ended {
    match Box::into_inner(desk).close(seats) {
        Ok(closed) => boxed_closed(rt, alloc, closed),
        Err((fault, desk, seats)) => match boxed_desk(rt, alloc, desk) {
            Ok(desk) => Ended::Open(fault, desk, seats),
            Err(_) => Ended::Lost,
        },
    }
}

/// Ends what a close came to, and tells it.
pub(crate) fn end<R: Wait>(rt: &R, ended: Ended) -> Told {
    match ended {
        Ended::Closed(closed) => {
            let figures = figures_of(&closed);
            end_closed(rt, closed);
            Told::Closed(figures)
        }
        Ended::Open(fault, desk, _) => {
            end_desk(rt, desk);
            Told::Open(fault)
        }
        Ended::Lost => Told::Lost,
    }
}

/// Closes a desk for seats, and ends it.
pub(crate) fn close_and_end<R: Wait>(
    rt: &R,
    alloc: Global,
    desk: Box<Desk>,
    seats: Vec<Seat>,
) -> Told {
    end(rt, close(rt, alloc, desk, seats))
}

fn figures_of(closed: &Closed) -> Figures {
    let book = closed.book();
    let tables = book.tables();
    Figures {
        entries: closed.entries().count(),
        out_of_step: out_of_step_of(closed),
        octets: book.tail(SessionId(10), Dir::FromClient).offset(),
        open: (
            count(tables, 1, Outcome::Open),
            count(tables, 2, Outcome::Open),
        ),
        waiting: (
            count(tables, 1, Outcome::Waiting),
            count(tables, 3, Outcome::Waiting),
        ),
    }
}

/// How many messages of a link have an outcome.
pub(crate) fn count(tables: &Tables, link: u32, outcome: Outcome) -> u64 {
    tables.count(View::Link, &Value::Link(LinkId(link)), outcome)
}

/// How many entries were refused as out of step.
fn out_of_step_of(closed: &Closed) -> usize {
    let mut count = 0usize;
    for entry in closed.entries() {
        if is_out_of_step(entry) {
            count = count.saturating_add(1);
        }
    }
    count
}

fn is_out_of_step(entry: &Entry) -> bool {
    matches!(
        &entry.reply,
        Reply::Refused(Refusal::OutOfStep { offset: _ })
    )
}

/// How many entries the desk has that its seats closed, if they did.
pub(crate) fn entries_of(told: Told) -> Option<usize> {
    match told {
        Told::Closed(figures) => Some(figures.entries),
        Told::Open(_) | Told::Lost => None,
    }
}

/// Why the desk stayed open, if it did.
pub(crate) fn fault_of(told: Told) -> Option<CloseFault> {
    match told {
        Told::Open(fault) => Some(fault),
        Told::Closed(_) | Told::Lost => None,
    }
}

/// Whether the desk closed with six entries, and its book's tables are as wanted.
pub(crate) fn is_whole(told: Told) -> bool {
    match told {
        Told::Closed(figures) => {
            figures.entries == 6 && figures.open == (1, 1) && figures.waiting.1 == 1
        }
        Told::Open(_) | Told::Lost => false,
    }
}

/// With how many entries a desk closes that stays open for want of a seat, once that has come: none where it closes before, or not
/// then. It says `Memory` where memory was wanting.
pub(crate) fn close_late<R: Wait>(
    rt: &R,
    alloc: Global,
    desk: Box<Desk>,
    seats: Vec<Seat>,
    missing: &mut Option<Seat>,
) -> Result<Option<usize>, Refusal> {
    match close(rt, alloc, desk, seats) {
        Ended::Open(CloseFault::SeatsOut, desk, seats) => {
            close_with(rt, alloc, desk, seats, missing)
        }
        other => none_of(end(rt, other)),
    }
}

/// The same once that seat has come.
fn close_with<R: Wait>(
    rt: &R,
    alloc: Global,
    desk: Box<Desk>,
    seats: Vec<Seat>,
    missing: &mut Option<Seat>,
) -> Result<Option<usize>, Refusal> {
    let mut seats = seats;
    if !takes_missing(&mut seats, missing) {
        end_desk(rt, desk);
        return Err(Refusal::Memory);
    }
    match close_and_end(rt, alloc, desk, seats) {
        Told::Lost => Err(Refusal::Memory),
        told => Ok(entries_of(told)),
    }
}

/// Puts a seat that was missing at the end, and says whether memory was there.
fn takes_missing(seats: &mut Vec<Seat>, missing: &mut Option<Seat>) -> bool {
    match missing.take() {
        Some(seat) => seats.push(seat).is_ok(),
        None => true,
    }
}

/// Of a desk that didn't stay open as wanted.
fn none_of(told: Told) -> Result<Option<usize>, Refusal> {
    match told {
        Told::Lost => Err(Refusal::Memory),
        Told::Closed(_) | Told::Open(_) => Ok(None),
    }
}
