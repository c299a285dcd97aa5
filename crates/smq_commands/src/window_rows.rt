//! The rows of the last minutes, in the place of all rows.
use csv::{ByteRecord, Reader};
use smq_capture::{Side, put_row};
use smq_engine::{Record, RunFault};
use smq_kit::{Dir, Moment, Refusal, SessionId};
use smq_load::{PieceRow, Row, read_record, record_reader};
use smq_present::Edit;
use smq_window as made;
use smq_window::{LAST_SESSION, Length, Origin, Session, Window};
use std::alloc::{AllocError, Global};
use std::io;
use std::io::{ErrorKind, Read, Write};

/// Rows in which each session is one for each period, and is withdrawn when its period has left the window. What is refused, or isn't
/// believed yet, is told at once.
#[derive(Drop)]
pub(crate) struct WindowRows<I, E> {
    alloc: Global,
    rows: Reader<I>,
    fields: ByteRecord,
    window: Window,
    /// The text of rows that were made, and how much of it was given.
    text: Vec<u8>,
    given: usize,
    /// How many records were read.
    number: u64,
    is_refused: bool,
    fault: Option<RunFault>,
    errors: E,
}

impl<I: Read, E: Write> WindowRows<I, E> {
    /// The rows of a window of a length of all these rows.
    pub(crate) fn new(alloc: Global, length: Length, rows: I, errors: E) -> WindowRows<I, E> {
        WindowRows {
            alloc,
            rows: record_reader(alloc, rows),
            fields: ByteRecord::new(alloc),
            window: Window::new(alloc, length),
            text: Vec::new(alloc),
            given: 0,
            number: 0,
            is_refused: false,
            fault: None,
            errors,
        }
    }

    /// Whether a row was refused.
    pub(crate) fn is_refused(&self) -> bool {
        self.is_refused
    }

    /// Why the rows weren't read to their end, where that is so.
    pub(crate) fn fault(&self) -> Option<RunFault> {
        self.fault
    }

    /// Writes all rows, each as soon as it is made.
    pub(crate) fn write_all<W: Write>(&mut self, writer: &mut W) -> Result<(), RunFault> {
        for _ in 0..u64::MAX {
            if !self.make_next()? {
                break;
            }
            if writer.write_all(self.text.as_slice()).is_err() || writer.flush().is_err() {
                return Err(RunFault::Write);
            }
        }
        Ok(())
    }

    /// Makes the rows of the next records that come to some; whether there are any.
    fn make_next(&mut self) -> Result<bool, RunFault> {
        self.text.clear();
        self.given = 0;
        for _ in 0..u64::MAX {
            if !self.text.is_empty() {
                break;
            }
            if !read_record(&mut self.rows, &mut self.fields)? {
                return Ok(false);
            }
            self.number = self.number.saturating_add(1);
            self.take()?;
        }
        Ok(true)
    }

    /// Takes the record that was read.
    fn take(&mut self) -> Result<(), RunFault> {
        match Record::read(self.alloc, &self.fields)? {
            Some(record) => self.take_record(&record),
            None => Err(RunFault::BadRow { row: self.number }),
        }
    }

    /// Takes what a record says.
    fn take_record(&mut self, record: &Record) -> Result<(), RunFault> {
        match record {
            Record::Row(row) => self.take_row(row),
            _ => self.put_record(),
        }
    }

    /// Takes a row.
    fn take_row(&mut self, row: &Row) -> Result<(), RunFault> {
        match row {
            Row::Piece(piece) => self.take_piece(piece),
            Row::Plain(edit) => self.take_edit(edit),
        }
    }

    /// Takes any other edit.
    fn take_edit(&mut self, edit: &Edit) -> Result<(), RunFault> {
        match edit {
            Edit::Withdraw { session } => self.withdraw(*session),
            Edit::Advance { clock } => self.pass_clock(*clock),
            _ => self.put_record(),
        }
    }

    /// Takes a piece.
    fn take_piece(&mut self, piece: &PieceRow) -> Result<(), RunFault> {
        let Some(session) = Session::new(piece.session.0) else {
            return self.tell_session(piece.session);
        };
        let at = Origin {
            link: piece.link,
            session,
            sender: piece.dir,
            moment: piece.moment,
        };
        match self.window.take_piece(self.alloc, &at, &piece.octets) {
            Ok(taken) => {
                self.put_rows(taken.rows.as_slice())?;
                self.tell_doubt(taken.is_doubted, piece.moment)
            }
            Err(refusal) => self.refuse(refusal),
        }
    }

    /// Takes back a session.
    fn withdraw(&mut self, session: SessionId) -> Result<(), RunFault> {
        let Some(session) = Session::new(session.0) else {
            return self.refuse(Refusal::NoSession);
        };
        match self.window.withdraw(self.alloc, &session) {
            Ok(rows) => self.put_rows(rows.as_slice()),
            Err(refusal) => self.refuse(refusal),
        }
    }

    /// Takes a moment of the clock, which goes on where it is believed.
    fn pass_clock(&mut self, clock: Moment) -> Result<(), RunFault> {
        let taken = self.window.pass_clock(self.alloc, clock)?;
        self.put_rows(taken.rows.as_slice())?;
        if taken.is_doubted {
            return self.tell_doubt(true, clock);
        }
        self.put_record()
    }

    /// Puts rows behind the text.
    fn put_rows(&mut self, rows: &[made::Row]) -> Result<(), RunFault> {
        for row in rows {
            match row {
                made::Row::Piece(piece) => put_row(
                    &mut self.text,
                    piece.link.0,
                    piece.session.0,
                    side_of(piece.sender),
                    piece.moment.milliseconds(),
                    piece.octets.as_slice(),
                )?,
                made::Row::Withdraw(session) => {
                    let number = session.0;
                    let row = format!(in self.alloc; "withdraw,{number}\n")?;
                    self.text.extend_from_slice(row.as_bytes())?;
                }
            }
        }
        Ok(())
    }

    /// Puts the record that was read behind the text. (No field of one that says something has a comma, a quote or an end of line.)
    fn put_record(&mut self) -> Result<(), RunFault> {
        for place in 0..self.fields.len() {
            if place > 0 {
                self.text.extend_from_slice(b",")?;
            }
            if let Some(field) = self.fields.get(place) {
                self.text.extend_from_slice(field)?;
            }
        }
        self.text.extend_from_slice(b"\n")?;
        Ok(())
    }

    /// Tells that the row that was read is refused.
    fn refuse(&mut self, refusal: Refusal) -> Result<(), RunFault> {
        if refusal == Refusal::Memory {
            return Err(RunFault::Memory);
        }
        let number = self.number;
        let line = format!(in self.alloc; "row {number}: {refusal}\n")?;
        self.is_refused = true;
        self.tell(line.as_bytes());
        Ok(())
    }

    /// Tells that a session is past the last of which others are made.
    fn tell_session(&mut self, session: SessionId) -> Result<(), RunFault> {
        let number = self.number;
        let session = session.0;
        let line = format!(in self.alloc;
            "row {number}: session {session} is past {LAST_SESSION}, the last of which a window makes others\n"
        )?;
        self.is_refused = true;
        self.tell(line.as_bytes());
        Ok(())
    }

    /// Tells that a moment isn't believed, where that is so.
    fn tell_doubt(&mut self, is_doubted: bool, moment: Moment) -> Result<(), RunFault> {
        if !is_doubted {
            return Ok(());
        }
        let number = self.number;
        let moment = moment.milliseconds();
        let line = format!(in self.alloc;
            "row {number}: {moment} is more than a day ahead of all before, and isn't believed yet\n"
        )?;
        self.tell(line.as_bytes());
        Ok(())
    }

    /// Tells a line. One that can't be told is lost.
    fn tell(&mut self, line: &[u8]) {
        let _ = self.errors.write_all(line);
    }
}

impl<I: Read, E: Write> Read for WindowRows<I, E> {
    fn read(&mut self, to: &mut [u8]) -> io::Result<usize> {
        if self.given >= self.text.len() {
            if let Err(fault) = self.make_next() {
                self.text.clear();
                self.given = 0;
                self.fault = Some(fault);
                return Err(io::Error::from(match fault {
                    RunFault::Memory => ErrorKind::OutOfMemory,
                    _ => ErrorKind::InvalidData,
                }));
            }
        }
        let Some(left) = self.text.as_slice().get(self.given..) else {
            return Ok(0);
        };
        let count = left.len().min(to.len());
        for (place, octet) in to.iter_mut().zip(left.iter().take(count)) {
            *place = *octet;
        }
        self.given = self.given.saturating_add(count);
        Ok(count)
    }
}

/// An end as captures name it.
fn side_of(sender: Dir) -> Side {
    match sender {
        Dir::FromClient => Side::Client,
        Dir::FromCentre => Side::Centre,
    }
}
