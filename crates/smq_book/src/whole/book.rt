//! The book: it makes an edit or refuses it, and hands out the tables of what is present.
ghost use Rattle.std.specs.Prelude.{◌≡◌, ◌≢◌, ◌≤◌, ◌+◌, ◌-◌, ◌^◌, ℕ, [], ◌∷◌, Err, IfOk, MatchResult, OnOk};
ghost use Rattle.smq_kit.specs.Replies.{IsReply};
ghost use Rattle.smq_book.specs.edits.Reach.{most_touches, reach};
ghost use Rattle.smq_present.specs.present.Present.{empty, tail_in};
ghost use Rattle.smq_present.specs.present.Replies.{reply};
ghost use Rattle.smq_present.specs.whole.Scratch.{scratch};
ghost use Rattle.smq_present.specs.present.Steps.{step, steps};
ghost use Rattle.smq_present.specs.present.Judged.{judged, AreAnswers, IsAnswer};

use crate::whole::indexed_book::IndexedBook;
use crate::{Edit, Present, Tables};
use smq_frame::Tail;
use smq_kit::{Dir, Refusal, SessionId};
use std::alloc::{AllocError, Global};
use std::marker::Model;

/// One book of captured sessions. A contract sees what is present, and its touches.
#[derive(Drop)]
pub struct Book {
    alloc: Global,
    kept: IndexedBook,
}

impl Model for Book {
    ghost use Rattle.smq_present.specs.present.Book.{BookValue, book_code};

    ghost Value = { BookValue };

    ghost coded = { book_code };

    ghost view = { λ b. record { present = b.kept.present; touches = b.kept.touches } };
}

impl Book {
    /// A book in which nothing is present.
    pub fn new(alloc: Global) -> Book
        ensures present { result.present ≡ empty }
        ensures touches { result.touches ≡ 0 }
    {
        Book {
            alloc,
            kept: IndexedBook::new(alloc),
        }
    }

    /// What is present.
    pub fn present(&self) -> &Present
        ensures { result.now ≡ self.now.present }
    {
        self.kept.present()
    }

    /// The tail of one direction of a session, on which its next octets are prepared. A session that is absent has no
    /// octets.
    pub fn tail(&self, session: SessionId, dir: Dir) -> &Tail
        ensures { result.now ≡ tail_in self.now.present session.0 dir }
    {
        self.kept.tail(session, dir)
    }

    /// Makes an edit, or refuses it and changes nothing. An `Append` is refused, in order: where its session is present
    /// under another link (`OtherLink`); where its tail isn't that of its direction (`OutOfStep`); and where its moment is
    /// below the direction's last (`Backward`). A `Withdraw` is refused where its session isn't present (`NoSession`). An
    /// `AddRoute` is refused where a version of its prefix is open or ends after it begins (`Overlap`). An `EndRoute` is
    /// refused, in order: where no version has its prefix and beginning (`NoRoute`); where that one has an end (`Ended`);
    /// and where its end isn't after the beginning (`BadEnd`). A `CorrectRoute` is refused where no version has its prefix
    /// and beginning (`NoRoute`), and an `Advance` where its clock is below the present one (`ClockBack`). Each of them, a
    /// `SetForm` and a `SetWindow` are refused last for lack of memory (`Memory`): an `Advance` that lapses no message never is.
    /// An edit that is made adds at most 64 touches for each that it reaches, and 64 more; one at least where a count of a view
    /// differs after it, unless they stand at the greatest u64.
    pub fn apply(&mut self, edit: Edit) -> Result<(), Refusal>
        ensures reply { IsReply (reply self.old.present edit) result
            (self.new.present ≡ step self.old.present edit) (self.new.present ≡ self.old.present) }
        ensures unreached { (clock : ℕ) → edit ≡ Edit.Advance clock → reach self.old.present edit ≡ 0
            → result ≢ Err Refusal.Memory }
        ensures touches { OnOk result
            (self.new.touches ≤ self.old.touches + most_touches self.old.present edit) }
        ensures touched { (scratch self.new.present).counts ≢ (scratch self.old.present).counts
            → self.old.touches ≢ 2 ^ 64 - 1 → 1 + self.old.touches ≤ self.new.touches }
    {
        self.kept.apply(edit)
    }

    /// Applies edits one after the other, and gives their answers: a refusal, or none where the edit was made. What is
    /// present then is what those edits leave that weren't refused for lack of memory. An error applies none of them: memory
    /// for the answers is taken first.
    pub fn apply_all(&mut self, edits: Vec<Edit>) -> Result<Vec<Option<Refusal>>, AllocError>
        ensures answers { IfOk result (λ answers. AreAnswers self.old.present edits.items answers.items) }
        ensures present { MatchResult result
            (λ answers. self.new.present ≡ steps self.old.present (judged edits.items answers.items))
            (λ _. self.new ≡ self.old) }
    {
        let mut answers = Vec::with_capacity(self.alloc, edits.len())?;
        for edit in edits {
            let answer = self.answer(edit);
            answers.push_reserved(answer);
        }
        Ok(answers)
    }

    /// Applies an edit, and gives its answer.
    fn answer(&mut self, edit: Edit) -> Option<Refusal>
        ensures value { IsAnswer self.old.present edit result }
        ensures present { self.new.present ≡ steps self.old.present (judged (edit ∷ []) (result ∷ [])) }
    {
        match self.apply(edit) {
            Ok(()) => None,
            Err(refusal) => Some(refusal),
        }
    }

    /// How often the shelves of what it stores were touched: of pairs, groups, facts, numbers and deadlines, those of sessions that were
    /// withdrawn and of refused edits among them. It stays at the greatest u64 once it is there.
    pub fn touches(&self) -> u64
        ensures { result ≡ self.now.touches }
    {
        self.kept.touches()
    }

    /// The tables of what is present, which each edit keeps current.
    pub fn tables(&self) -> &Tables
        ensures { result.now.shown ≡ scratch self.now.present }
    {
        self.kept.tables()
    }
}

/// Applies edits one after the other on a new book, and gives the book with the edits' answers.
pub fn book_of_edits(
    alloc: Global,
    edits: Vec<Edit>,
) -> Result<(Book, Vec<Option<Refusal>>), AllocError>
    ensures answers { IfOk result (λ given. AreAnswers empty edits.items given.1.items) }
    ensures present { IfOk result (λ given.
        given.0.present ≡ steps empty (judged edits.items given.1.items)) }
{
    let mut book = Book::new(alloc);
    let answers = book.apply_all(edits)?;
    Ok((book, answers))
}
