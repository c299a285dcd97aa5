//! The periods of a connection, the oldest first, with what waits in each.
ghost use Rattle.std.specs.Prelude.{◌≡◌, ℕ, ◌++◌, ◌∷◌, ◌-◌, ◌<◌, true, false, [], List, IfOk, IfSome, IfNone, length, slice_index, slice_index_or, vec_len};
ghost use Rattle.smq_kit.specs.declared.place.Dir.{Dir};
ghost use Rattle.std.specs.Prelude.{None, Some};
ghost use Rattle.smq_window.specs.declared.exchange.Exchange.{Exchange};
ghost use Rattle.smq_window.specs.declared.periods.Period.{Period};
ghost use Rattle.smq_window.specs.Exchange.{exchange_of};
ghost use Rattle.smq_window.specs.Homes.{Homed, home_of, with_period};
ghost use Rattle.smq_window.specs.within.Kept.{Homes, IsFirst, IsKept, MovesAt, Opens, numbers};

use crate::balance::Balance;
use crate::exchange::Exchange;
use std::alloc::{AllocError, Global};

/// The periods that are kept: from the oldest to the present one.
#[derive(Clone, Copy)]
pub struct Span {
    pub oldest: u64,
    pub present: u64,
}

/// A period and what waits in it.
#[derive(Drop)]
pub(crate) struct Period {
    pub(crate) number: u64,
    pub(crate) balance: Balance,
}

/// Puts a PDU into its home, and tells which that is. The only error is that memory ran out.
pub(crate) fn put(
    alloc: Global,
    periods: &mut Vec<Period>,
    span: Span,
    exchange: Option<Exchange>,
) -> Result<u64, AllocError>
    ensures { IfOk result (λ home. (pdus : List Homed) (sender : Dir) (octets : List ℕ)
        → exchange_of sender octets ≡ exchange → IsKept pdus span.oldest span.present periods.old.items
        → (home ≡ home_of pdus span.oldest span.present exchange)
        × IsKept (pdus ++ record { home = home; sender = sender; octets = octets } ∷ []) span.oldest span.present
        periods.new.items
        × (numbers periods.new.items ≡ with_period (numbers periods.old.items) home)) }
{
    let index = home_index(alloc, periods, span, exchange)?;
    put_at(periods, index, exchange)
}

/// The index of the home of a PDU, which may be new.
fn home_index(
    alloc: Global,
    periods: &mut Vec<Period>,
    span: Span,
    exchange: Option<Exchange>,
) -> Result<usize, AllocError>
    ensures within { IfOk result (λ index. index < vec_len periods.new) }
    ensures home { IfOk result (λ index. (pdus : List Homed)
        → IsKept pdus span.oldest span.present periods.old.items
        → Homes pdus span.oldest span.present exchange periods.old.items periods.new.items index) }
{
    match index_of_home(periods.as_slice(), span.oldest, exchange) {
        Some(index) => Ok(index),
        None => open(alloc, periods, span.present),
    }
}

/// The index of the oldest period that is kept in which the other half of a PDU waits.
fn index_of_home(periods: &[Period], oldest: u64, exchange: Option<Exchange>) -> Option<usize>
    ensures within { IfSome result (λ index. index < length periods.now) }
    ensures first { (e : Exchange) → exchange ≡ Some e → IsFirst oldest e periods.now result }
    ensures none { exchange ≡ None → result ≡ None }
{
    first_awaiting(periods, oldest, exchange?)
}

/// The index of the oldest period that is kept in which the other half of a PDU waits.
fn first_awaiting(periods: &[Period], oldest: u64, exchange: Exchange) -> Option<usize>
    ensures { IsFirst oldest exchange periods.now result }
{
    for (index, period) in periods.iter().enumerate() {
        if period.number >= oldest && period.balance.awaits(exchange) {
            return Some(index);
        }
    }
    None
}

/// The index of the present period, the newest, which may be new.
pub(crate) fn open(
    alloc: Global,
    periods: &mut Vec<Period>,
    present: u64,
) -> Result<usize, AllocError>
    ensures { IfOk result (λ index. Opens present periods.old.items periods.new.items index) }
{
    let count = periods.len();
    if is_newest(periods.as_slice(), present) {
        return Ok(count - 1);
    }
    periods.push(Period {
        number: present,
        balance: Balance::new(alloc),
    })?;
    Ok(count)
}

/// Whether the last period has this number.
fn is_newest(periods: &[Period], present: u64) -> bool
    ensures newest { result ≡ true → (0 < length periods.now)
        × ((d : Period) → (slice_index_or periods.now (length periods.now - 1) d).number ≡ present) }
    ensures older { result ≡ false → 0 < length periods.now → (d : Period)
        → (slice_index_or periods.now (length periods.now - 1) d).number ≡ present → ⊥ }
{
    let count = periods.len();
    if count == 0 {
        return false;
    }
    periods[count - 1].number == present
}

/// Puts a PDU into the period at an index, and tells its number.
fn put_at(
    periods: &mut Vec<Period>,
    index: usize,
    exchange: Option<Exchange>,
) -> Result<u64, AllocError>
    requires { index < vec_len periods.old }
    ensures number { IfOk result (λ home. slice_index (numbers periods.old.items) index ≡ home) }
    ensures numbers { IfOk result (λ _. numbers periods.new.items ≡ numbers periods.old.items) }
    ensures moves { IfOk result (λ home. MovesAt home exchange periods.old.items periods.new.items) }
{
    let period = &mut periods[index];
    match exchange {
        Some(exchange) => {
            period.balance.put(exchange)?;
            Ok(period.number)
        }
        None => Ok(period.number),
    }
}
