//! Compares the calls of one seat with a history, without memory.
ghost use Rattle.std.specs.Prelude.{◌≡◌, ◌↔◌, IsTrue, IfSome, IfNone, MatchOption};
ghost use Rattle.smq_desk.specs.History.{IsLegal};
ghost use Rattle.smq_desk.specs.Publishing.{HasCall, HasCalls, IsTornAt};

use crate::matching::{earlier, is_call};
use crate::{Call, History, Ledger, Seat};

/// The least number at which a seat has a call that isn't the entry of that number in the ledger's history, and none where each
/// of its calls is. It takes no memory.
pub fn torn_call(ledger: &Ledger, seat: &Seat) -> Option<u64>
    ensures none { IfNone result (HasCalls ledger.now.entries seat.now) }
    ensures some { IfSome result (λ number. IsTornAt ledger.now.entries seat.now number) }
    ensures legal { IsLegal ledger.now.entries }
{
    first_torn(ledger.history(), seat)
}

/// The same of a history.
fn first_torn(history: &History, seat: &Seat) -> Option<u64>
    ensures { MatchOption result (HasCalls history.now.entries seat.now)
        (λ number. IsTornAt history.now.entries seat.now number) }
{
    let holder = seat.number();
    let calls = seat.calls();
    let mut first = None;
    for call in calls {
        first = earlier(first, torn_at(history, holder, call));
    }
    first
}

/// The number of a call, where the history's entry of that number is another one or there is none.
fn torn_at(history: &History, holder: u32, call: &Call) -> Option<u64>
    ensures { MatchOption result (HasCall history.now.entries holder call.now)
        (λ number. (number ≡ call.now.number) × (HasCall history.now.entries holder call.now → ⊥)) }
{
    if is_entry(history, holder, call) {
        None
    } else {
        Some(call.number)
    }
}

/// Whether a call of the seat of this number is the history's entry of the call's number.
fn is_entry(history: &History, holder: u32, call: &Call) -> bool
    ensures { IsTrue result ↔ HasCall history.now.entries holder call.now }
{
    match history.get(call.number) {
        Some(entry) => entry.seat == holder && is_call(call, call.number, entry),
        None => false,
    }
}
