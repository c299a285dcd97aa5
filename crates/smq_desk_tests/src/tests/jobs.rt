//! Jobs that tests make, and the seats of those that came back.
ghost use Rattle.std.specs.Prelude.{◌≤◌, length, All, IfOk};
ghost use Rattle.smq_desk.specs.Jobs.{IsFresh};

use crate::tests::*;
use smq_book::PieceRow;
use smq_desk::LinkJob;

/// The row of a piece.
fn piece_row(alloc: Global, row: Row) -> Result<PieceRow, Refusal> {
    let (link, session, dir, moment, octets) = row;
    let moment = Moment::new(moment)?;
    let Ok(octets) = Bytes::copy_from_slice(alloc, octets) else {
        return Err(Refusal::Memory);
    };
    Ok(PieceRow {
        link: LinkId(link),
        session: SessionId(session),
        dir,
        moment,
        octets,
    })
}

/// Puts the rows of pieces into a list.
fn put_rows(alloc: Global, rows: &mut Vec<PieceRow>, pieces: &[Row]) -> Result<(), Refusal> {
    for row in pieces {
        put_row(rows, piece_row(alloc, *row)?)?;
    }
    Ok(())
}

fn put_row(rows: &mut Vec<PieceRow>, row: PieceRow) -> Result<(), Refusal> {
    if rows.push(row).is_err() {
        return Err(Refusal::Memory);
    }
    Ok(())
}

/// The rows of pieces.
fn rows_of(alloc: Global, pieces: &[Row]) -> Result<Vec<PieceRow>, Refusal> {
    let mut rows = Vec::new(alloc);
    match put_rows(alloc, &mut rows, pieces) {
        Ok(()) => Ok(rows),
        Err(refusal) => Err(refusal),
    }
}

/// A job of these rows, from a new seat.
pub(crate) fn job<R: Wait>(
    rt: &R,
    alloc: Global,
    desk: &Desk,
    pieces: &[Row],
) -> Result<LinkJob, Refusal>
    ensures { IfOk result IsFresh }
{
    let rows = rows_of(alloc, pieces)?;
    match desk.seat(rt) {
        Ok(seat) => Ok(fresh(seat, rows)),
        Err(refusal) => Err(refusal),
    }
}

/// A job of which nothing is done.
pub(crate) fn fresh(seat: Seat, rows: Vec<PieceRow>) -> LinkJob
    ensures { IsFresh result }
{
    LinkJob {
        seat,
        rows,
        next: 0,
        refused: 0,
        stop: None,
    }
}

/// Two jobs as a list.
pub(crate) fn pair(alloc: Global, one: LinkJob, two: LinkJob) -> Result<Vec<LinkJob>, Refusal>
    requires one { IsFresh one }
    requires two { IsFresh two }
    ensures fresh { IfOk result (λ jobs. All IsFresh jobs.items) }
    ensures few { IfOk result (λ jobs. length jobs.items ≤ 64) }
{
    let Ok(jobs) = vec![in alloc; one, two] else {
        return Err(Refusal::Memory);
    };
    Ok(jobs)
}

/// Puts the seats of jobs that came back into a list, and says whether memory was there.
pub(crate) fn take_seats(jobs: Vec<LinkJob>, seats: &mut Vec<Seat>) -> bool {
    let mut are_taken = true;
    for job in jobs {
        are_taken = takes(seats, seat_in(job)) && are_taken;
    }
    are_taken
}

fn seat_in(job: LinkJob) -> Seat {
    job.seat
}

fn takes(seats: &mut Vec<Seat>, seat: Seat) -> bool {
    seats.push(seat).is_ok()
}
