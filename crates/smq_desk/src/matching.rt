//! Compares a history with the calls that seats keep, without memory.
ghost use Rattle.std.specs.Prelude.{◌≡◌, ◌↔◌, ◌==◌, List, ◌∷◌, ◌⊎◌, ◌<◌, ◌≤◌, ◌-◌, length, slice_get, Some, take, IsTrue, All, IfSome, IfNone, MatchOption};
ghost use Rattle.std.specs.List.{list_any};
ghost use Rattle.smq_desk.specs.History.{IsLegal};
ghost use Rattle.smq_desk.specs.Seats.{call_of, HasItsCalls, HasOneSeat, holders, AreCallsOf};
ghost use Rattle.smq_desk.specs.Closing.{AgreesUpTo, AgreeUpTo, FailsFirstAt, IsToldOf, IsCloseFault, first_with};
ghost use Rattle.smq_desk.specs.declared.entry.Call.{Call as CallOf};
ghost use Rattle.smq_desk.specs.within.Least.{IsLeastOf, IsLesser, earlier};

use crate::entry::is_same_edit;
use crate::{Call, CloseFault, Entry, History, Ledger, Seat};

/// Why a desk with this ledger doesn't close for these seats, and none where their calls are its history. It takes no memory. Its
/// time grows as the number of seats times that of entries.
pub fn fault_of(ledger: &Ledger, seats: &[Seat]) -> Option<CloseFault>
    ensures none { IfNone result (AreCallsOf seats.now ledger.now.entries) }
    ensures some { IfSome result (λ fault. IsCloseFault ledger.now seats.now fault) }
    ensures legal { IsLegal ledger.now.entries }
{
    let history = ledger.history();
    if seats.len() < ledger.seats() as usize {
        return Some(CloseFault::SeatsOut);
    }
    let number = first_difference(history, seats)?;
    let seat = told_seat(history, seats, number);
    Some(CloseFault::Torn { seat, number })
}

/// The first number up to which the seats don't agree with the history.
fn first_difference(history: &History, seats: &[Seat]) -> Option<u64>
    ensures { MatchOption result (AreCallsOf seats.now history.now.entries)
        (λ number. FailsFirstAt (AgreeUpTo seats.now history.now.entries) number) }
{
    earlier(
        first_in_seats(history, seats),
        first_in_entries(history, seats),
    )
}

/// The lesser of two numbers that may be absent.
pub(crate) fn earlier(one: Option<u64>, other: Option<u64>) -> Option<u64>
    ensures { result ≡ earlier one other }
{
    match (one, other) {
        (None, _) => other,
        (_, None) => one,
        (Some(one), Some(other)) => Some(if one <= other { one } else { other }),
    }
}

/// The lesser of two numbers.
fn lesser(one: u64, other: u64) -> u64
    ensures { IsLesser one other result }
{
    if one <= other { one } else { other }
}

/// The first number up to which one of the seats doesn't agree with the history.
fn first_in_seats(history: &History, seats: &[Seat]) -> Option<u64>
    ensures { MatchOption result (All (HasItsCalls history.now.entries) seats.now)
        (λ number. FailsFirstAt (λ n. All (AgreesUpTo history.now.entries n) seats.now) number) }
{
    let mut first = None;
    for seat in seats {
        first = earlier(first, first_in_seat(history, seat));
    }
    first
}

/// The number of the first entry that isn't of exactly one of the seats.
fn first_in_entries(history: &History, seats: &[Seat]) -> Option<u64>
    ensures { MatchOption result (All (HasOneSeat seats.now) history.now.entries) (λ number.
        FailsFirstAt (λ n. All (HasOneSeat seats.now) (take n history.now.entries)) number) }
{
    let mut left = history.iter();
    let mut number = 0;
    while let Some(entry) = left.next() {
        number += 1;
        if !has_one_seat(seats, entry) {
            return Some(number);
        }
    }
    None
}

/// The first number up to which the seat doesn't agree with the history.
fn first_in_seat(history: &History, seat: &Seat) -> Option<u64>
    ensures { MatchOption result (HasItsCalls history.now.entries seat.now)
        (λ number. FailsFirstAt (λ n. AgreesUpTo history.now.entries n seat.now) number) }
{
    let holder = seat.number();
    let mut rest = seat.calls();
    let mut left = history.iter();
    let mut number = 0;
    while let Some(entry) = left.next() {
        number += 1;
        if entry.seat == holder {
            match after_call(rest, number, entry) {
                Some(later) => rest = later,
                None => return Some(least_of(number, rest)),
            }
        }
    }
    match rest {
        [] => None,
        [first, ..] => Some(least_of(first.number, rest)),
    }
}

/// The calls after the first, where that is the entry of this number.
fn after_call<'a>(calls: &'a [Call], number: u64, entry: &Entry) -> Option<&'a [Call]>
    ensures some { IfSome result (λ later.
        calls.now ≡ call_of number entry.now.edit entry.now.reply ∷ later.now) }
    ensures none { IfNone result ((later : List CallOf)
        → calls.now ≡ call_of number entry.now.edit entry.now.reply ∷ later → ⊥) }
{
    let [first, later @ ..] = calls else {
        return None;
    };
    if is_call(first, number, entry) {
        Some(later)
    } else {
        None
    }
}

/// The least of a number and those of calls.
fn least_of(number: u64, calls: &[Call]) -> u64
    ensures { IsLeastOf number calls.now result }
{
    let mut least = number;
    for call in calls {
        least = lesser(least, call.number);
    }
    least
}

/// The seat that a difference at this number is told of.
fn told_seat(history: &History, seats: &[Seat], number: u64) -> u32
    requires { FailsFirstAt (AgreeUpTo seats.now history.now.entries) number }
    ensures { IsToldOf history.now.entries seats.now number result }
{
    if let Some(entry) = history.get(number) {
        return entry.seat;
    }
    first_with(seats, number)
}

/// The number of the first seat that has a call of this number, and 0 where none has.
fn first_with(seats: &[Seat], number: u64) -> u32
    ensures { IfSome (first_with number seats.now) (λ seat. result ≡ seat) }
{
    for seat in seats {
        if has_call(seat, number) {
            return seat.number();
        }
    }
    0
}

fn has_call(seat: &Seat, number: u64) -> bool
    ensures { result ≡ list_any (λ c. c.number == number) seat.now.calls }
{
    seat.calls().iter().any(|call| call.number == number)
}

/// Whether this is the call that the entry of this number is.
pub(crate) fn is_call(call: &Call, number: u64, entry: &Entry) -> bool
    ensures { IsTrue result ↔ (call.now ≡ call_of number entry.now.edit entry.now.reply) }
{
    call.number == number && is_same_edit(&call.edit, &entry.edit) && call.reply == entry.reply
}

/// Whether just one of the seats has the entry's number.
fn has_one_seat(seats: &[Seat], entry: &Entry) -> bool
    ensures { IsTrue result ↔ HasOneSeat seats.now entry.now }
{
    holders(seats, entry.seat) == 1
}

/// How many of the seats have this number.
#[tactic(auto, unfolding(crate::specs::Seats::holders))]
fn holders(seats: &[Seat], number: u32) -> usize
    ensures { result ≡ holders seats.now number }
{
    seats.iter().filter(|seat| seat.number() == number).count()
}
