//! A book that stores nothing of what its PDUs say: each edit costs what it puts in. Its tables are counted from nothing, by smq_scratch.
ghost use Rattle.std.specs.Prelude.{◌≡◌};
ghost use Rattle.smq_kit.specs.Replies.{IsReply};
ghost use Rattle.smq_present.specs.present.Present.{empty, tail_in};
ghost use Rattle.smq_present.specs.present.Replies.{reply};
ghost use Rattle.smq_present.specs.present.Steps.{step};

use crate::{Batch, Edit, Forms, Present};
use smq_frame::Tail;
use smq_kit::{Dir, Refusal, SessionId};
use std::alloc::Global;
use std::marker::Model;

/// One book of captured sessions, for edits after which tables are wanted once: a script that is played whole. Of 100,000
/// messages it takes less than half the time and memory of a `Book`, which keeps its tables current with each edit. A
/// contract sees what is present.
#[derive(Drop)]
pub struct PlainBook {
    alloc: Global,
    present: Present,
    /// That of a direction without octets.
    empty_tail: Tail,
}

impl Model for PlainBook {
    ghost use Rattle.std.specs.Prelude.{◌≡◌, []};
    ghost use Rattle.smq_frame.specs.Tail.{tail_of};
    ghost use Rattle.smq_present.specs.present.Book.{PlainBookValue, plain_book_code};

    ghost Value = { PlainBookValue };

    ghost coded = { plain_book_code };

    ghost view = { λ b. record { present = b.present } };

    ghost invariant = { λ b. b.empty_tail ≡ tail_of [] };
}

impl PlainBook {
    /// A book in which nothing is present.
    pub fn new(alloc: Global) -> PlainBook
        ensures { result.present ≡ empty }
    {
        PlainBook {
            alloc,
            present: Present::new(alloc),
            empty_tail: Tail::at(0),
        }
    }

    /// What is present.
    pub fn present(&self) -> &Present
        ensures { result.now ≡ self.now.present }
    {
        &self.present
    }

    /// The tail of one direction of a session, on which its next octets are prepared. A session that is absent has no
    /// octets.
    pub fn tail(&self, session: SessionId, dir: Dir) -> &Tail
        ensures { result.now ≡ tail_in self.now.present session.0 dir }
    {
        match self.present.session(session) {
            None => &self.empty_tail,
            Some(found) => found.direction(dir).tail(),
        }
    }

    /// Puts a batch after the direction on whose present tail it was prepared, or refuses it and changes nothing: as `apply` does,
    /// with the same replies, but without a comparison of the tails, so a PDU that comes in many pieces costs what they add.
    pub fn append_in_step(&mut self, batch: Batch) -> Result<(), Refusal>
        requires in_step { batch.tail ≡ tail_in self.old.present batch.session.0 batch.dir }
        ensures { IsReply (reply self.old.present (Edit.Append batch)) result
            (self.new.present ≡ step self.old.present (Edit.Append batch)) (self.new.present ≡ self.old.present) }
    {
        self.present.put_batch_in_step(self.alloc, batch)
    }

    /// Makes an edit, or refuses it and changes nothing: as `Book::apply`, with the same replies.
    pub fn apply(&mut self, edit: Edit) -> Result<(), Refusal>
        ensures { IsReply (reply self.old.present edit) result
            (self.new.present ≡ step self.old.present edit) (self.new.present ≡ self.old.present) }
    {
        match edit {
            Edit::Append { batch } => self.present.put_batch(self.alloc, batch),
            Edit::Withdraw { session } => self.present.take_session(session),
            Edit::SetForm {
                link,
                response,
                receipt,
            } => self.present.put_forms(link, Forms { response, receipt }),
            Edit::SetWindow { link, window } => self.present.put_window(link, window),
            Edit::AddRoute {
                prefix,
                from,
                route,
                network,
            } => self.present.add_version(prefix, from, route, network),
            Edit::EndRoute {
                prefix,
                from,
                until,
            } => self.present.end_version(&prefix, from, until),
            Edit::CorrectRoute {
                prefix,
                from,
                route,
                network,
            } => self.present.correct_version(&prefix, from, route, network),
            Edit::Advance { clock } => self.present.set_clock(clock),
        }
    }
}
