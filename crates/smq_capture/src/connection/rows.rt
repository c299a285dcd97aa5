//! The rows of a connection: which session each octet is of, and when it is written.
ghost use Rattle.std.specs.Prelude.{◌≡◌, ◌↔◌, ℕ, List, IsTrue, OnOk, Some, None};
ghost use Rattle.std.specs.Io.KnownBytes.{Appends};
ghost use Rattle.std.specs.List.{AllZip};
ghost use Rattle.smq_capture.specs.Flow.{Stays, direction_of, with_direction};
ghost use Rattle.smq_capture.specs.GoingOn.{HasOctets};
ghost use Rattle.smq_capture.specs.Rows.{AreInOrder, AreParts, AreSettledTo, Part, SettlesBefore};
ghost use Rattle.smq_capture.specs.Sessions.{Goes};
ghost use Rattle.smq_capture.specs.Written.{parts_text};

use crate::connection::Connection;
use crate::fault::Fault;
use crate::output::Output;
use crate::side::Side;
use crate::sink::{Piece, Sink};
use crate::waiting::Waiting;
use std::alloc::AllocError;

impl Connection {
    /// Writes the rows whose sessions are known: all of them where nothing waits that may begin another.
    pub(crate) fn write<S: Sink>(&mut self, output: &mut Output<S>) -> Result<(), Fault> {
        if output.is_strict || !self.flow.is_open() {
            self.settle(Side::Client, None)?;
            self.settle(Side::Centre, None)?;
        }
        for _ in 0..u64::MAX {
            let Some(row) = self.flow.take_row() else {
                break;
            };
            self.write_row(output, &row)?;
        }
        self.tell_sessions(output, false)
    }

    /// Writes a row, a part of it for each session.
    fn write_row<S: Sink>(&mut self, output: &mut Output<S>, row: &Waiting) -> Result<(), Fault>
        ensures text { OnOk result ((parts : List Part) × AreParts row.now parts
            × Appends (S.contents output.old.sink) (S.contents output.new.sink) (parts_text self.old.link row.now parts)) }
        ensures same { (self.new.link ≡ self.old.link) × (self.new.flow ≡ self.old.flow) }
    {
        let mut parts = row.parts();
        'parts: while let Some(part) = parts.next() {
            self.note_packet(part.session, row.number());
            output.put(&Piece {
                link: self.link,
                session: part.session,
                sender: row.sender(),
                moment: row.moment(),
                octets: part.octets,
            })?;
        }
        Ok(())
    }

    /// Takes note of a packet of a session.
    pub(crate) fn note_packet(&mut self, session: u64, number: u64)
        ensures { (self.new.link ≡ self.old.link) × (self.new.flow ≡ self.old.flow) }
    {
        // (mostly it is of the last session; their numbers rise)
        let mut low: usize = 0;
        let mut high = self.lines.len().saturating_sub(1);
        if session != self.last {
            for _ in 0..64 {
                if low >= high {
                    break;
                }
                let middle = low.saturating_add(high.saturating_sub(low) / 2);
                match self.lines.get(middle) {
                    Some(line) if line.session < session => low = middle.saturating_add(1),
                    _ => high = middle,
                }
            }
        }
        if let Some(line) = self.lines.get_mut(high) {
            if line.session == session && line.last < number {
                line.last = number;
            }
        }
    }

    /// Tells the sessions that both directions left.
    pub(crate) fn tell_sessions<S: Sink>(
        &mut self,
        output: &mut Output<S>,
        is_end: bool,
    ) -> Result<(), Fault> {
        if !is_end && !self.flow.is_written() {
            return Ok(());
        }
        for _ in 0..self.lines.len() {
            match self.lines.front() {
                Some(line)
                    if is_end
                        || (line.session < self.flow.of(Side::Client).session
                            && line.session < self.flow.of(Side::Centre).session) => {}
                _ => break,
            }
            if let Some(line) = self.lines.pop_front() {
                output.note_session(&line)?;
            }
        }
        Ok(())
    }

    /// Tells the rows of a direction their sessions, in order, up to a place of it.
    pub(crate) fn settle(&mut self, side: Side, until: Option<u64>) -> Result<(), AllocError>
        ensures stays { Stays self.old.flow self.new.flow }
        ensures goes { Goes (direction_of side self.old.flow) (direction_of side self.new.flow) }
        ensures all { until ≡ None → OnOk result (AreSettledTo until side self.old.flow.rows self.new.flow.rows) }
        ensures below { AreInOrder side self.old.flow.rows
            → OnOk result (AreSettledTo until side self.old.flow.rows self.new.flow.rows) }
        ensures before { (place : ℕ) → until ≡ Some place
            → AllZip (SettlesBefore place) self.old.flow.rows self.new.flow.rows }
        ensures octets { OnOk result (IsTrue self.new.has_rows ↔ HasOctets self.old.has_rows self.old.last self.old.flow.rows
            self.new.flow.rows) }
        ensures rest { self.new ≡ record self.old {
          flow = record (with_direction side (direction_of side self.new.flow) self.old.flow) { rows = self.new.flow.rows };
          has_rows = self.new.has_rows;
        } }
    {
        if self.flow.settle(side, until, self.last)? {
            self.has_rows = true;
        }
        Ok(())
    }
}
