//! Rows are played on a book, one after the other, be it one that keeps its tables current or one that stores none. A row that is
//! refused leaves what is present, and the rest goes on.
ghost use Rattle.std.specs.Prelude.{◌≡◌, ◌≢◌, ◌++◌, IfOk, OnOk, Some};
ghost use Rattle.smq_present.specs.declared.present.edit.Edit.TheVariants.{Append};
ghost use Rattle.smq_present.specs.present.Present.{tail_in, PresentValue};
ghost use Rattle.smq_present.specs.present.Replies.{reply};
ghost use Rattle.smq_present.specs.present.Steps.{step};
ghost use Rattle.smq_engine.specs.Play.{after_row, after_rows, refusal_of, refused_rows, told};
ghost use Rattle.smq_load.specs.declared.record.Row.TheVariants.{Piece};
ghost use Rattle.smq_kit.specs.Replies.{IsReply};

use smq_book::Book;
use smq_frame::Tail;
use smq_kit::{Dir, Refusal, SessionId};
use smq_load::Row;
use smq_present::{Batch, Edit, PieceRow, PlainBook, prepare};
use std::alloc::{AllocError, Global};

/// A book on which rows are played.
pub trait PlayedBook {
    ghost use Rattle.std.specs.Prelude.{◌≡◌};

    /// What is present.
    ghost present: { Self → PresentValue };

    /// The tail of one direction of a session, on which its next octets are prepared.
    fn tail(&self, session: SessionId, dir: Dir) -> &Tail
        ensures { result.now ≡ tail_in (present self.now) session.0 dir };

    /// Puts a batch after the direction on whose present tail it was prepared, or refuses it and changes nothing.
    fn append(&mut self, batch: Batch) -> Result<(), Refusal>
        requires { batch.tail ≡ tail_in (present self.old) batch.session.0 batch.dir }
        ensures { IsReply (reply (present self.old) (Append batch)) result
            (present self.new ≡ step (present self.old) (Append batch)) (present self.new ≡ present self.old) };

    /// Makes an edit, or refuses it and changes nothing.
    fn apply(&mut self, edit: Edit) -> Result<(), Refusal>
        ensures { IsReply (reply (present self.old) edit) result
            (present self.new ≡ step (present self.old) edit) (present self.new ≡ present self.old) };
}

impl PlayedBook for PlainBook {
    ghost present = { λ book. book.present };

    fn tail(&self, session: SessionId, dir: Dir) -> &Tail {
        PlainBook::tail(self, session, dir)
    }

    fn append(&mut self, batch: Batch) -> Result<(), Refusal> {
        self.append_in_step(batch)
    }

    fn apply(&mut self, edit: Edit) -> Result<(), Refusal> {
        PlainBook::apply(self, edit)
    }
}

impl PlayedBook for Book {
    ghost present = { λ book. book.present };

    fn tail(&self, session: SessionId, dir: Dir) -> &Tail {
        Book::tail(self, session, dir)
    }

    fn append(&mut self, batch: Batch) -> Result<(), Refusal> {
        Book::apply(self, Edit::Append { batch })
    }

    fn apply(&mut self, edit: Edit) -> Result<(), Refusal> {
        Book::apply(self, edit)
    }
}

/// Plays rows in order on a book, and gives the refused ones, each with its number, from 1.
pub fn play_rows<B: PlayedBook>(
    alloc: Global,
    book: &mut B,
    rows: Vec<Row>,
) -> Result<Vec<(u64, Refusal)>, AllocError>
    ensures present { OnOk result
        (B.present book.new ≡ after_rows (B.present book.old) rows.items) }
    ensures refused { IfOk result (λ refused.
        refused.items ≡ refused_rows (B.present book.old) rows.items) }
{
    let mut refused = Vec::new(alloc);
    let mut number = 0u64;
    for row in rows {
        number += 1;
        play_next(alloc, book, &mut refused, number, row)?;
    }
    Ok(refused)
}

/// Plays the row of a number, and puts its refusal, if it is refused, after those of the rows before it. Errors: memory ran out.
pub fn play_next<B: PlayedBook>(
    alloc: Global,
    book: &mut B,
    refused: &mut Vec<(u64, Refusal)>,
    number: u64,
    row: Row,
) -> Result<(), AllocError>
    ensures present { OnOk result (B.present book.new ≡ after_row (B.present book.old) row) }
    ensures noted { OnOk result
        (refused.new.items ≡ refused.old.items ++ told number (refusal_of (B.present book.old) row)) }
{
    if let Some(refusal) = play_row(alloc, book, row)? {
        refused.push((number, refusal))?;
    }
    Ok(())
}

/// Plays a row, and gives its refusal, if it is refused. Errors: memory ran out.
pub fn play_row<B: PlayedBook>(
    alloc: Global,
    book: &mut B,
    row: Row,
) -> Result<Option<Refusal>, AllocError>
    ensures { IfOk result (λ refusal. (refusal ≡ refusal_of (B.present book.old) row)
        × (B.present book.new ≡ after_row (B.present book.old) row)) }
{
    match row {
        Row::Piece(piece) => play_piece(alloc, book, piece),
        Row::Plain(edit) => make(book, edit),
    }
}

/// Puts a piece's octets after their direction, unless it is refused.
fn play_piece<B: PlayedBook>(
    alloc: Global,
    book: &mut B,
    row: PieceRow,
) -> Result<Option<Refusal>, AllocError>
    ensures { IfOk result (λ refusal. (refusal ≡ refusal_of (B.present book.old) (Piece row))
        × (B.present book.new ≡ after_row (B.present book.old) (Piece row))) }
{
    let tail = book.tail(row.session, row.dir);
    let PieceRow {
        link,
        session,
        dir,
        moment,
        octets,
    } = row;
    match prepare(alloc, link, session, dir, tail, moment, octets) {
        Ok(batch) => put(book, batch),
        Err(refusal) => unless_memory(refusal),
    }
}

/// Puts a batch after the direction on whose tail it was prepared, unless it is refused.
fn put<B: PlayedBook>(book: &mut B, batch: Batch) -> Result<Option<Refusal>, AllocError>
    requires { batch.tail ≡ tail_in (B.present book.old) batch.session.0 batch.dir }
    ensures { IfOk result (λ refusal. (refusal ≡ reply (B.present book.old) (Append batch))
        × (B.present book.new ≡ step (B.present book.old) (Append batch))) }
{
    match book.append(batch) {
        Ok(()) => Ok(None),
        Err(refusal) => unless_memory(refusal),
    }
}

/// Makes an edit, unless it is refused.
fn make<B: PlayedBook>(book: &mut B, edit: Edit) -> Result<Option<Refusal>, AllocError>
    ensures { IfOk result (λ refusal. (refusal ≡ reply (B.present book.old) edit)
        × (B.present book.new ≡ step (B.present book.old) edit)) }
{
    match book.apply(edit) {
        Ok(()) => Ok(None),
        Err(refusal) => unless_memory(refusal),
    }
}

/// A refusal of a row. Want of memory is none: it ends the run.
fn unless_memory(refusal: Refusal) -> Result<Option<Refusal>, AllocError>
    ensures { IfOk result (λ told. (told ≡ Some refusal) × (refusal ≢ Refusal.Memory)) }
{
    match refusal {
        Refusal::Memory => Err(AllocError),
        other => Ok(Some(other)),
    }
}
