//! What a capture gives, and how much it was.
ghost use Rattle.std.specs.Prelude.{◌≡◌, ◌+◌, ◌<◌, ◌^◌, OnOk};
ghost use Rattle.std.specs.Io.KnownBytes.{Appends};
ghost use Rattle.smq_capture.specs.Written.{piece_text};

use crate::fault::Fault;
use crate::notice::Notice;
use crate::sink::{Loss, Piece, SessionLine, Sink};
use std::alloc::Global;

/// A sink, the number of the next session, and how much was given.
#[derive(Drop)]
pub(crate) struct Output<S> {
    pub alloc: Global,
    pub sink: S,
    pub is_strict: bool,
    following: u64,
    sessions: u64,
    rows: u64,
    octets: u64,
    gaps: u64,
    missing: u64,
    passed: u64,
    has_loss: bool,
}

impl<S: Sink> Output<S> {
    /// Nothing was given yet.
    pub(crate) fn new(alloc: Global, sink: S, first: u64, is_strict: bool) -> Output<S> {
        Output {
            alloc,
            sink,
            is_strict,
            following: first,
            sessions: 0,
            rows: 0,
            octets: 0,
            gaps: 0,
            missing: 0,
            passed: 0,
            has_loss: false,
        }
    }

    /// The number of a session that begins.
    pub(crate) fn next_session(&mut self) -> u64
        ensures number { result ≡ self.old.following }
        ensures next { result + 1 < 2 ^ 64 → self.new.following ≡ result + 1 }
    {
        let number = self.following;
        self.following = number.saturating_add(1);
        self.sessions = self.sessions.saturating_add(1);
        number
    }

    /// How many sessions began.
    pub(crate) fn sessions(&self) -> u64 {
        self.sessions
    }

    /// Whether something is missing.
    pub(crate) fn has_loss(&self) -> bool {
        self.has_loss
    }

    /// Gives a piece.
    pub(crate) fn put(&mut self, piece: &Piece<'_>) -> Result<(), Fault>
        ensures { OnOk result (Appends (S.contents self.old.sink) (S.contents self.new.sink) (piece_text piece.now)) }
    {
        let octets = self.sink.put(piece)?;
        self.rows = self.rows.saturating_add(1);
        self.octets = self.octets.saturating_add(octets as u64);
        Ok(())
    }

    /// Tells something.
    pub(crate) fn tell(&mut self, notice: Notice) -> Result<(), Fault> {
        self.has_loss = self.has_loss || notice.is_loss();
        if let Notice::Passed { count, .. } = &notice {
            self.passed = self.passed.saturating_add(*count);
        }
        self.sink.tell(&notice)
    }

    /// Gives a session that ended.
    pub(crate) fn note_session(&mut self, line: &SessionLine) -> Result<(), Fault> {
        self.sink.note_session(line)
    }

    /// Gives a gap that was given up.
    pub(crate) fn note_loss(&mut self, loss: &Loss) -> Result<(), Fault> {
        self.gaps = self.gaps.saturating_add(1);
        self.missing = self.missing.saturating_add(loss.missing);
        self.sink.note_loss(loss)
    }

    /// Tells how much is missing.
    pub(crate) fn tell_gaps(&mut self) -> Result<(), Fault> {
        if self.gaps > 0 {
            let notice = Notice::Gaps {
                gaps: self.gaps,
                missing: self.missing,
                passed: self.passed,
            };
            self.tell(notice)?;
        }
        Ok(())
    }

    /// Tells whether there are more rows or octets than these.
    pub(crate) fn tell_length(&mut self, most_rows: u64, most_octets: u64) -> Result<(), Fault> {
        if self.rows > most_rows || self.octets > most_octets {
            let notice = Notice::Long {
                rows: self.rows,
                octets: self.octets,
            };
            self.tell(notice)?;
        }
        Ok(())
    }
}
