//! What a book keeps: what is present, and what is stored of it, which each edit keeps current. A type of its own has the sentence
//! that ties both, so that who holds a book carries nothing of it.
ghost use Rattle.std.specs.Prelude.{◌≡◌, ◌≢◌, ◌≤◌, ◌+◌, ◌-◌, ◌^◌, ℕ, Err, OnOk};
ghost use Rattle.smq_kit.specs.Replies.{IsReply};
ghost use Rattle.smq_book.specs.edits.Reach.{most_touches, reach};
ghost use Rattle.smq_present.specs.present.Present.{empty, tail_in};
ghost use Rattle.smq_present.specs.present.Replies.{reply};
ghost use Rattle.smq_present.specs.present.Steps.{step};
ghost use Rattle.smq_present.specs.whole.Scratch.{scratch};

use crate::edits::append::append;
use crate::edits::clock::advance;
use crate::edits::forms::set_forms;
use crate::edits::routes::{add_route, correct_route, end_route};
use crate::edits::window::set_window;
use crate::edits::withdraw::withdraw;
use crate::index::index::Index;
use crate::index::pairings::Pairings;
use crate::{Edit, Forms, Present, Tables};
use smq_frame::Tail;
use smq_kit::{Dir, Refusal, SessionId};
use std::alloc::Global;
use std::marker::Model;

/// What is present, and what is stored of it.
#[derive(Drop)]
pub(crate) struct IndexedBook {
    alloc: Global,
    present: Present,
    index: Index,
    pairings: Pairings,
    /// That of a direction without octets.
    empty_tail: Tail,
}

impl Model for IndexedBook {
    ghost use Rattle.std.specs.Prelude.{◌≡◌, []};
    ghost use Rattle.smq_frame.specs.Tail.{tail_of};
    ghost use Rattle.smq_book.specs.index.Kept.{IsKept};
    ghost use Rattle.smq_book.specs.index.Touches.{touches_of};
    ghost use Rattle.smq_present.specs.present.Book.{BookValue, book_code};

    ghost Value = { BookValue };

    ghost coded = { book_code };

    ghost view = { λ b. record { present = b.present; touches = touches_of b.index b.pairings } };

    ghost invariant = { λ b. (b.empty_tail ≡ tail_of []) × IsKept b.present b.index b.pairings };
}

impl IndexedBook {
    /// Nothing is present, and nothing is stored.
    pub(crate) fn new(alloc: Global) -> IndexedBook
        ensures present { result.present ≡ empty }
        ensures touches { result.touches ≡ 0 }
    {
        IndexedBook {
            alloc,
            present: Present::new(alloc),
            index: Index::new(alloc),
            pairings: Pairings::new(alloc),
            empty_tail: Tail::at(0),
        }
    }

    /// What is present.
    pub(crate) fn present(&self) -> &Present
        ensures { result.now ≡ self.now.present }
    {
        &self.present
    }

    /// The tail of one direction of a session.
    pub(crate) fn tail(&self, session: SessionId, dir: Dir) -> &Tail
        ensures { result.now ≡ tail_in self.now.present session.0 dir }
    {
        match self.present.session(session) {
            None => &self.empty_tail,
            Some(found) => found.direction(dir).tail(),
        }
    }

    /// Makes an edit, or refuses it and changes nothing.
    pub(crate) fn apply(&mut self, edit: Edit) -> Result<(), Refusal>
        ensures reply { IsReply (reply self.old.present edit) result
            (self.new.present ≡ step self.old.present edit) (self.new.present ≡ self.old.present) }
        ensures unreached { (clock : ℕ) → edit ≡ Edit.Advance clock → reach self.old.present edit ≡ 0
            → result ≢ Err Refusal.Memory }
        ensures touches { OnOk result
            (self.new.touches ≤ self.old.touches + most_touches self.old.present edit) }
        ensures touched { (scratch self.new.present).counts ≢ (scratch self.old.present).counts
            → self.old.touches ≢ 2 ^ 64 - 1 → 1 + self.old.touches ≤ self.new.touches }
    {
        let IndexedBook {
            alloc,
            present,
            index,
            pairings,
            empty_tail: _,
        } = self;
        match edit {
            Edit::Append { batch } => append(*alloc, present, index, pairings, batch),
            Edit::Withdraw { session } => withdraw(present, index, pairings, session),
            Edit::SetForm {
                link,
                response,
                receipt,
            } => set_forms(*alloc, present, index, link, Forms { response, receipt }),
            Edit::SetWindow { link, window } => set_window(*alloc, present, index, link, window),
            Edit::AddRoute {
                prefix,
                from,
                route,
                network,
            } => add_route(present, index, prefix, from, route, network),
            Edit::EndRoute {
                prefix,
                from,
                until,
            } => end_route(present, index, &prefix, from, until),
            Edit::CorrectRoute {
                prefix,
                from,
                route,
                network,
            } => correct_route(present, index, &prefix, from, route, network),
            Edit::Advance { clock } => advance(*alloc, present, index, clock),
        }
    }

    /// How often the shelves of what is stored were touched.
    pub(crate) fn touches(&self) -> u64
        ensures { result ≡ self.now.touches }
    {
        self.index.touches().saturating_add(self.pairings.touches())
    }

    /// The tables of what is present.
    pub(crate) fn tables(&self) -> &Tables
        ensures { result.now.shown ≡ scratch self.now.present }
    {
        self.index.tally.tables()
    }
}
