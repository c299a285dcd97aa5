//! What stands behind a desk's lock: a book, the history of all edits that made it, and the board on which it is published.
//!
//! Who changes `commit` takes all memory before the book is asked: what comes after the book's answer can't fail, so an
//! edit that the book made is always in the history.
ghost use Rattle.std.specs.Prelude.{◌≡◌, ◌≢◌, ◌↔◌, ◌≤◌, ◌<◌, ◌+◌, ◌⊎◌, length, IfOk, IfErr, IfSome, IfNone, OnErr, Err};
ghost use Rattle.smq_kit.specs.declared.refusal.Refusal.TheVariants.{HistoryFull, Memory, NoSeat, NoWatcher};
ghost use Rattle.smq_present.specs.present.Present.{tail_in};
ghost use Rattle.smq_present.specs.present.Steps.{step};
ghost use Rattle.smq_desk.specs.declared.entry.Reply.TheVariants.{Refused};
ghost use Rattle.smq_desk.specs.History.{replay, reply_to, EntriesComeInOrder, IsLegal};
ghost use Rattle.smq_desk.specs.Ledger.{opened, Adds};

use crate::board::{BoardWriter, open_board, publish_on};
use crate::published_history::PublishedHistory;
use crate::{Edition, Entries, Entry, History, Note, Reply, Watcher};
use smq_book::Book;
use smq_frame::Tail;
use smq_kit::{Dir, Refusal, SessionId};
use smq_present::Edit;
use std::alloc::{AllocError, Global};
use std::marker::Model;
use std::mem::forget;
use std::sync::{Arc, Wait};

/// The most entries that a history may have.
pub const LONGEST_HISTORY: u64 = 1_048_576;

/// The most seats that a desk gives out.
pub const MOST_SEATS: u32 = 65_536;

/// A book with its history and the board on which it is published. A contract sees the limit of entries, how many seats were
/// given out, the entries, and those of the edition on the board. It ends by `end`, which takes the board down.
pub struct Ledger {
    alloc: Global,
    limit: u64,
    seats: u32,
    book: Book,
    history: History,
    board: BoardWriter,
}

impl Model for Ledger {
    ghost use Rattle.smq_desk.specs.Ledger.{LedgerValue, IsKept};
    ghost use Rattle.smq_desk.specs.within.Boards.{shown_in};

    ghost Value = { LedgerValue };

    ghost view = { λ l. record {
      limit = l.limit;
      seats = l.seats;
      entries = l.history.entries;
      board = shown_in l.board.desk.shown.value;
    } };

    ghost invariant = { λ l. IsKept (record {
      limit = l.limit;
      seats = l.seats;
      entries = l.history.entries;
      board = shown_in l.board.desk.shown.value;
    }) l.book.present };
}

impl Ledger {
    /// A ledger of an empty book, for so many entries at most. An edition without entries is on its board.
    pub fn new(alloc: Global, limit: u64) -> Result<Ledger, AllocError>
        requires { limit ≤ LONGEST_HISTORY }
        ensures { IfOk result (λ ledger. ledger ≡ opened limit) }
    {
        let board = open_board(alloc, PublishedHistory::opening(alloc)?)?;
        Ok(Ledger {
            alloc,
            limit,
            seats: 0,
            book: Book::new(alloc),
            history: History::new(alloc),
            board,
        })
    }

    /// The history: one entry for each edit that was committed, in order. Entries are numbered from 1.
    pub fn entries(&self) -> Entries<'_>
        ensures value { result ≡ self.now.entries }
        ensures runs { EntriesComeInOrder }
        ensures legal { IsLegal self.now.entries }
        ensures in_limit { length self.now.entries ≤ self.now.limit }
        ensures in_range { length self.now.entries ≤ LONGEST_HISTORY }
    {
        self.history.iter()
    }

    /// The history as it is stored, in which an entry is found by its number.
    pub fn history(&self) -> &History
        ensures value { result.now.entries ≡ self.now.entries }
        ensures legal { IsLegal self.now.entries }
        ensures in_limit { length self.now.entries ≤ self.now.limit }
    {
        &self.history
    }

    /// The book that the history made.
    pub fn book(&self) -> &Book
        ensures { result.now.present ≡ replay self.now.entries }
    {
        &self.book
    }

    /// The tail of one direction of a session.
    pub fn tail(&self, session: SessionId, dir: Dir) -> Result<Tail, AllocError>
        ensures { IfOk result (λ tail. tail ≡ tail_in (replay self.now.entries) session.0 dir) }
    {
        self.book.tail(session, dir).copy()
    }

    /// How many seats were given out.
    pub(crate) fn seats(&self) -> u32
        ensures value { result ≡ self.now.seats }
        ensures in_range { self.now.seats ≤ MOST_SEATS }
    {
        self.seats
    }

    /// Gives out the number of a new seat, from 1. Where all were given out (`NoSeat`), nothing changes.
    pub(crate) fn give_seat(&mut self) -> Result<u32, Refusal>
        ensures ok { IfOk result (λ number. (number ≡ self.old.seats + 1)
            × (self.new ≡ record self.old { seats = number })) }
        ensures in_range { IfOk result (λ number. (1 ≤ number) × (number ≤ MOST_SEATS)) }
        ensures err { IfErr result (λ refusal. (refusal ≡ NoSeat) × (self.new ≡ self.old)) }
        ensures full { (result ≡ Err NoSeat) ↔ (self.old.seats ≡ MOST_SEATS) }
    {
        if self.seats >= MOST_SEATS {
            return Err(Refusal::NoSeat);
        }
        self.seats += 1;
        Ok(self.seats)
    }

    /// Brings an edit to the book and adds its entry, also where the book refuses it. The entry's number and reply are
    /// told. Refused are, in order, with no entry and nothing changed: an edit that comes to a history at its limit
    /// (`HistoryFull`); and lack of memory (`Memory`).
    pub fn commit(&mut self, seat: u32, edit: Edit) -> Result<(u64, Reply), Refusal>
        ensures ok { IfOk result (λ told. Adds self.old self.new seat edit told.0 told.1) }
        ensures err { OnErr result (self.new ≡ self.old) }
        ensures refused { IfErr result (λ refusal. (refusal ≡ HistoryFull) ⊎ (refusal ≡ Memory)) }
        ensures full { (result ≡ Err HistoryFull) ↔ (length self.old.entries ≡ self.old.limit) }
    {
        let Ledger {
            alloc: _,
            limit,
            seats: _,
            book,
            history,
            board: _,
        } = self;
        if history.len() == *limit {
            return Err(Refusal::HistoryFull);
        }
        if history.reserve().is_err() {
            return Err(Refusal::Memory);
        }
        let Ok(theirs) = edit.copy() else {
            return Err(Refusal::Memory);
        };
        let Some(reply) = reply_of(book, theirs) else {
            return Err(Refusal::Memory);
        };
        let told = reply.copy();
        history.push_reserved(Entry { seat, edit, reply });
        Ok((history.len(), told))
    }

    /// Puts an edition of the whole history on the board, and answers the number of its entries. History and book stay, whatever
    /// it answers. Refused is lack of memory alone; the board then stays, too.
    pub fn publish<R: Wait>(&mut self, rt: &R) -> Result<u64, Refusal>
        ensures ok { IfOk result (λ front. (front ≡ length self.old.entries)
            × (self.new ≡ record self.old { board = self.old.entries })) }
        ensures err { IfErr result (λ refusal. (refusal ≡ Memory) × (self.new ≡ self.old)) }
    {
        let note = self.publish_note(rt)?;
        Ok(note.edition().front())
    }

    /// The same, with the edition as a note.
    pub(crate) fn publish_note<R: Wait>(&mut self, rt: &R) -> Result<Note, Refusal>
        ensures ok { IfOk result (λ note. (note.entries ≡ self.old.entries)
            × (self.new ≡ record self.old { board = self.old.entries })) }
        ensures err { IfErr result (λ refusal. (refusal ≡ Memory) × (self.new ≡ self.old)) }
    {
        let Ledger {
            alloc,
            limit: _,
            seats: _,
            book,
            history,
            board,
        } = self;
        let Ok(published) = PublishedHistory::of(*alloc, history, book) else {
            return Err(Refusal::Memory);
        };
        let Ok(theirs) = Arc::try_clone(&published) else {
            return Err(Refusal::Memory);
        };
        if publish_on(rt, board, theirs) {
            Ok(Note::new(Edition::of(published)))
        } else {
            Err(Refusal::Memory)
        }
    }

    /// A new watcher of the board, where that has a place for one (`NoWatcher`) and there is memory (`Memory`).
    pub(crate) fn watcher(&self) -> Result<Watcher, Refusal>
        ensures { IfErr result (λ refusal. (refusal ≡ NoWatcher) ⊎ (refusal ≡ Memory)) }
    {
        match self.board.factory().reader() {
            Ok(reader) => Watcher::new(reader),
            Err(_) => Err(Refusal::NoWatcher),
        }
    }

    /// Takes the board down. Watchers keep the newest edition that they read or learnt.
    pub fn end<R: Wait>(self, rt: &R) {
        let Ledger {
            alloc: _,
            limit: _,
            seats: _,
            book: _book,
            history: _history,
            board,
        } = self;
        drop(board.take(rt));
    }

    /// The same where the process is about to end: book and history aren't taken apart.
    pub(crate) fn leave<R: Wait>(self, rt: &R) {
        let Ledger {
            alloc: _,
            limit: _,
            seats: _,
            book,
            history,
            board,
        } = self;
        forget(book);
        forget(history);
        drop(board.take(rt));
    }
}

/// The book's reply to an edit, and none for lack of memory, where nothing changes.
fn reply_of(book: &mut Book, edit: Edit) -> Option<Reply>
    ensures some { IfSome result (λ told. (told ≡ reply_to book.old.present edit)
        × (book.new.present ≡ step book.old.present edit)) }
    ensures none { IfNone result (book.new.present ≡ book.old.present) }
{
    match book.apply(edit) {
        Ok(()) => Some(Reply::Done),
        Err(refusal) => unless_memory(refusal),
    }
}

/// A refusal as a reply. Want of memory is none: such an edit has no entry.
fn unless_memory(refusal: Refusal) -> Option<Reply>
    ensures { IfSome result (λ told. (told ≡ Refused refusal) × (refusal ≢ Memory)) }
{
    match refusal {
        Refusal::Memory => None,
        other => Some(Reply::Refused(other)),
    }
}
