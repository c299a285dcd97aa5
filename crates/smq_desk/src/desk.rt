//! The desk: a ledger under one lock, which many threads share.
//!
//! Each call holds the lock for one call of the ledger, and gives it back by `MutexGuard::unlock` on every path.
ghost use Rattle.std.specs.Prelude.{◌≡◌, ◌≤◌, ◌⊎◌, List, [], length, sum_by, IfOk, IfErr, OnErr, MatchResult};
ghost use Rattle.smq_kit.specs.declared.refusal.Refusal.TheVariants.{Memory, NoSeat, NoWatcher};
ghost use Rattle.smq_desk.specs.declared.entry.Entry.{Entry};
ghost use Rattle.smq_desk.specs.declared.entry.Reply.TheVariants.{Done};
ghost use Rattle.smq_desk.specs.Seats.{with_call, call_of, IsRefused, AreCallsOf};
ghost use Rattle.smq_desk.specs.Closing.{IsCloseFault};
ghost use Rattle.smq_desk.specs.History.{IsLegal};
ghost use Rattle.smq_desk.specs.Publishing.{HasCalls, IsTornSeat};
ghost use Rattle.smq_desk.specs.Ledger.{LedgerValue};
ghost use Rattle.smq_desk.specs.declared.ledger.TheConstants.{LONGEST_HISTORY, MOST_SEATS};

use crate::matching::fault_of;
use crate::torn_calls::torn_call;
use crate::{Call, CloseFault, Closed, Ledger, Note, Seat, Watcher};
use smq_frame::Tail;
use smq_kit::{Dir, Refusal, SessionId};
use smq_present::Edit;
use std::alloc::{AllocGlobal, Global};
use std::sync::{Mutex, MutexGuard, Wait};

/// A book that threads share, with its history. Callers edit it from seats, and read from watchers what was published of it. It
/// ends by `close`, or by `end`.
pub struct Desk {
    alloc: Global,
    ledger: Mutex<Ledger>,
}

impl Desk {
    /// A desk of an empty book, for 1 to `LONGEST_HISTORY` entries. An edition without entries is published.
    pub fn new<R: AllocGlobal>(rt: &R, limit: u64) -> Result<Desk, Refusal>
        requires { (1 ≤ limit) × (limit ≤ LONGEST_HISTORY) }
        ensures { IfErr result (λ refusal. refusal ≡ Memory) }
    {
        let alloc = rt.alloc();
        match Ledger::new(alloc, limit) {
            Ok(ledger) => Ok(Desk {
                alloc,
                ledger: Mutex::new(ledger),
            }),
            Err(_) => Err(Refusal::Memory),
        }
    }

    /// The allocator of the desk and of what is made for it.
    pub(crate) fn alloc(&self) -> Global {
        self.alloc
    }

    /// Gives a seat out, unless all `MOST_SEATS` were given out (`NoSeat`).
    pub fn seat<R: Wait>(&self, rt: &R) -> Result<Seat, Refusal>
        ensures number { IfOk result (λ seat. (1 ≤ seat.number) × (seat.number ≤ MOST_SEATS)) }
        ensures calls { IfOk result (λ seat. seat.calls ≡ []) }
        ensures err { IfErr result (λ refusal. refusal ≡ NoSeat) }
    {
        let mut ledger = self.ledger.lock(rt);
        let given = ledger.give_seat();
        MutexGuard::unlock(ledger);
        let number = given?;
        Ok(Seat::new(self.alloc, number))
    }

    /// The tail of one direction of a session as it is now, on which its next octets are prepared.
    pub fn tail<R: Wait>(&self, rt: &R, session: SessionId, dir: Dir) -> Result<Tail, Refusal>
        ensures { IfErr result (λ refusal. refusal ≡ Memory) }
    {
        let ledger = self.ledger.lock(rt);
        let copied = ledger.tail(session, dir);
        MutexGuard::unlock(ledger);
        copied.map_err(|_| Refusal::Memory)
    }

    /// Commits an edit from a seat, and answers the number of its entry. A refusal of the book is answered as such; it has
    /// an entry, too, and the seat's call has its number. The desk's own refusals, `HistoryFull` and `Memory`, leave the
    /// history and the seat as they were.
    pub fn commit<R: Wait>(&self, rt: &R, seat: &mut Seat, edit: Edit) -> Result<u64, Refusal>
        ensures { MatchResult result
            (λ number. seat.new ≡ with_call seat.old (call_of number edit Done))
            (λ refusal. IsRefused seat.old seat.new edit refusal) }
    {
        if seat.calls.reserve(1).is_err() {
            return Err(Refusal::Memory);
        }
        let Ok(theirs) = edit.copy() else {
            return Err(Refusal::Memory);
        };
        let mut ledger = self.ledger.lock(rt);
        let committed = ledger.commit(seat.number(), theirs);
        MutexGuard::unlock(ledger);
        let (number, reply) = committed?;
        let refusal = reply.refusal();
        seat.calls.push_reserved(Call {
            number,
            edit,
            reply,
        });
        if let Some(refusal) = refusal {
            return Err(refusal);
        }
        Ok(number)
    }

    /// Publishes the whole history for watchers, where it has each call of the seat as its entry of that number; else the least
    /// number at which it hasn't is told (`TornSeat`). Where that or lack of memory (`Memory`) is answered, what was published
    /// stays.
    pub fn publish<R: Wait>(&self, rt: &R, seat: &mut Seat) -> Result<Note, Refusal>
        ensures ok { IfOk result (λ note. HasCalls note.entries seat.old) }
        ensures seat { seat.new ≡ seat.old }
        ensures err { IfErr result (λ refusal. (refusal ≡ Memory)
            ⊎ ((entries : List Entry) × IsLegal entries × IsTornSeat entries seat.old refusal)) }
    {
        let mut ledger = self.ledger.lock(rt);
        let published = publish_for(rt, &mut ledger, seat);
        MutexGuard::unlock(ledger);
        published
    }

    /// A watcher of what is published, where fewer than `MOST_WATCHERS` live (`NoWatcher`). It may outlive the desk.
    pub fn watcher<R: Wait>(&self, rt: &R) -> Result<Watcher, Refusal>
        ensures { IfErr result (λ refusal. (refusal ≡ NoWatcher) ⊎ (refusal ≡ Memory)) }
    {
        let ledger = self.ledger.lock(rt);
        let watcher = ledger.watcher();
        MutexGuard::unlock(ledger);
        watcher
    }

    /// Closes the desk, for all seats that it gave out. It takes no memory. Where a seat is missing, or where the calls of
    /// these seats aren't the history, the desk and the seats are given back.
    #[tactic(auto, using(crate::proofs::AsMany::as_many_calls))]
    pub fn close(self, seats: Vec<Seat>) -> Result<Closed, (CloseFault, Desk, Vec<Seat>)>
        ensures ok { IfOk result (λ closed. AreCallsOf seats.items closed.entries) }
        ensures as_many { IfOk result (λ closed.
            sum_by (λ seat. length seat.calls) seats.items ≡ length closed.entries) }
        ensures back { IfErr result (λ back. back.2 ≡ seats) }
        ensures fault { IfErr result (λ back. (l : LedgerValue) × IsLegal l.entries × IsCloseFault l seats.items back.0) }
    {
        let Desk { alloc, ledger } = self;
        let ledger = ledger.into_inner();
        let Some(fault) = fault_of(&ledger, seats.as_slice()) else {
            return Ok(Closed::new(ledger));
        };
        let ledger = Mutex::new(ledger);
        Err((fault, Desk { alloc, ledger }, seats))
    }

    /// Ends the desk without its history. Watchers keep the newest edition that they read or learnt.
    pub fn end<R: Wait>(self, rt: &R) {
        let Desk { alloc: _, ledger } = self;
        ledger.into_inner().end(rt);
    }
}

/// Publishes a ledger's history, where it has each call of the seat.
fn publish_for<R: Wait>(rt: &R, ledger: &mut Ledger, seat: &Seat) -> Result<Note, Refusal>
    ensures ok { IfOk result (λ note. (note.entries ≡ ledger.old.entries) × HasCalls note.entries seat.now
        × (ledger.new ≡ record ledger.old { board = ledger.old.entries })) }
    ensures err { OnErr result (ledger.new ≡ ledger.old) }
    ensures refused { IfErr result (λ refusal. (refusal ≡ Memory)
        ⊎ (IsLegal ledger.old.entries × IsTornSeat ledger.old.entries seat.now refusal)) }
{
    match torn_call(ledger, seat) {
        None => ledger.publish_note(rt),
        Some(number) => Err(Refusal::TornSeat { number }),
    }
}
