//! A desk that is closed: its history and its book, which nobody changes any more.
ghost use Rattle.std.specs.Prelude.{◌≡◌, ◌≤◌, length};
ghost use Rattle.smq_desk.specs.History.{replay, EntriesComeInOrder, IsLegal};
ghost use Rattle.smq_desk.specs.declared.ledger.TheConstants.{LONGEST_HISTORY};

use crate::{Entries, History, Ledger};
use smq_book::Book;
use std::marker::Model;
use std::sync::Wait;

/// Why a desk doesn't close.
#[derive(Clone, Copy, Debug, PartialEq, Eq)]
pub enum CloseFault {
    /// Fewer seats come than were given out.
    SeatsOut,
    /// The calls of the seats aren't the history: the least number at which they differ, with the seat of its entry or,
    /// where there is no such entry, the first seat that has such a call.
    Torn { seat: u32, number: u64 },
}

/// The history of a closed desk, its book, and what was published last. A contract sees the entries. It ends by `end`, or by
/// `leave`: until then watchers read on.
pub struct Closed {
    ledger: Ledger,
}

impl Model for Closed {
    ghost use Rattle.smq_desk.specs.Ledger.{ClosedValue};

    ghost Value = { ClosedValue };

    ghost view = { λ c. record { entries = c.ledger.entries } };
}

impl Closed {
    /// The history of a ledger, and its book.
    pub(crate) fn new(ledger: Ledger) -> Closed
        ensures { result.entries ≡ ledger.entries }
    {
        Closed { ledger }
    }

    /// The entries, in the order of their numbers.
    pub fn entries(&self) -> Entries<'_>
        ensures value { result ≡ self.now.entries }
        ensures runs { EntriesComeInOrder }
        ensures legal { IsLegal self.now.entries }
        ensures in_range { length self.now.entries ≤ LONGEST_HISTORY }
    {
        self.ledger.entries()
    }

    /// The history as it is stored, in which an entry is found by its number.
    pub fn history(&self) -> &History
        ensures { result.now.entries ≡ self.now.entries }
    {
        self.ledger.history()
    }

    /// The book that the entries made.
    pub fn book(&self) -> &Book
        ensures { result.now.present ≡ replay self.now.entries }
    {
        self.ledger.book()
    }

    /// Ends it. Watchers keep the newest edition that they read or learnt.
    pub fn end<R: Wait>(self, rt: &R) {
        let Closed { ledger } = self;
        ledger.end(rt);
    }

    /// Ends it where the process is about to end: as `end`, but its book and its history aren't taken apart. The system has
    /// their memory back with the process.
    pub fn leave<R: Wait>(self, rt: &R) {
        let Closed { ledger } = self;
        ledger.leave(rt);
    }
}
