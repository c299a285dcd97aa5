//! What one worker does: the rows of its job, one after another.
ghost use Rattle.std.specs.Prelude.{◌≡◌, ◌⊎◌, None, IfSome, IfOk, IfErr};
ghost use Rattle.smq_kit.specs.declared.refusal.Refusal.TheVariants.{Memory};
ghost use Rattle.smq_present.specs.declared.present.edit.Edit.TheVariants.{Append};
ghost use Rattle.smq_desk.specs.Jobs.{IsFresh, Puts, IsFate, Worked};
ghost use Rattle.smq_desk.specs.within.Rows.{Commits, Ends, StopsRow};

use crate::job::RowEnd;
use crate::{Desk, Gate, LinkJob, Seat};
use smq_kit::Refusal;
use smq_present::{Batch, Edit, PieceRow, prepare};
use std::sync::Wait;

/// Prepares a row on the tail that its direction has now.
fn prepared<R: Wait>(rt: &R, desk: &Desk, row: &PieceRow) -> Result<Batch, Refusal>
    ensures ok { IfOk result (λ batch. Puts row.now (Append batch)) }
    ensures err { IfErr result (λ refusal. (refusal ≡ Memory) ⊎ IsFate row.now None) }
{
    let tail = desk.tail(rt, row.session, row.dir)?;
    let Ok(octets) = row.octets.clone() else {
        return Err(Refusal::Memory);
    };
    prepare(
        desk.alloc(),
        row.link,
        row.session,
        row.dir,
        &tail,
        row.moment,
        octets,
    )
}

/// Commits an edit from a seat.
fn committed<R: Wait>(rt: &R, desk: &Desk, seat: &mut Seat, edit: Edit) -> RowEnd
    ensures { Commits edit seat.old seat.new result }
{
    match desk.commit(rt, seat, edit) {
        Ok(_) => RowEnd::Done,
        Err(Refusal::Memory) => RowEnd::Stopped(Refusal::Memory),
        Err(Refusal::HistoryFull) => RowEnd::Stopped(Refusal::HistoryFull),
        Err(_by_the_book) => RowEnd::Refused,
    }
}

/// Prepares a row on the tail that its direction has now, and commits it.
fn do_row<R: Wait>(rt: &R, desk: &Desk, seat: &mut Seat, row: &PieceRow) -> RowEnd
    ensures { Ends row.now seat.old seat.new result }
{
    match prepared(rt, desk, row) {
        Ok(batch) => committed(rt, desk, seat, Edit::Append { batch }),
        Err(Refusal::Memory) => RowEnd::Stopped(Refusal::Memory),
        Err(_unprepared) => RowEnd::Refused,
    }
}

/// Does the rows of a job of which nothing is done, until one stops it.
pub(crate) fn work<R: Wait, G: Gate>(rt: &R, desk: &Desk, gate: &G, worker: u32, job: &mut LinkJob)
    requires { IsFresh job.old }
    ensures worked { Worked job.old job.new }
    ensures reason { IfSome job.new.stop StopsRow }
{
    let LinkJob {
        seat,
        rows,
        next,
        refused,
        stop,
    } = job;
    for row in &*rows {
        gate.before(worker, *next);
        let end = do_row(rt, desk, seat, row);
        gate.after(worker, *next);
        match end {
            RowEnd::Stopped(why) => {
                *stop = Some(why);
                return;
            }
            RowEnd::Refused => *refused += 1,
            RowEnd::Done => {}
        }
        *next += 1;
    }
}
