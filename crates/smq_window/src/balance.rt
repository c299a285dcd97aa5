//! What waits for its other half, of one period of a connection.
ghost use Rattle.std.specs.Prelude.{◌≡◌, ◌+◌, ◌<◌, ◌==◌, ◌&&◌, ℕ, nat_lt, true, IfOk, OnOk, Some, None};
ghost use Rattle.std.specs.Ordering.{nat_cmp};
ghost use Rattle.std.specs.BTreeMap.{get};
ghost use Rattle.smq_kit.specs.declared.place.Dir.{Dir};
ghost use Rattle.smq_window.specs.declared.exchange.Half.{Half};
ghost use Rattle.smq_window.specs.Exchange.{other_half, same_dir, same_half};
ghost use Rattle.smq_window.specs.within.Waiting.{Moves, number_of, of_asker, one_if, waiting_of};

use crate::exchange::{Exchange, Half};
use smq_kit::Dir;
use std::alloc::{AllocError, Global};
use std::collections::BTreeMap;

/// So many of one half of an exchange wait for the other.
#[derive(Clone, Copy)]
pub(crate) struct Waiting {
    pub(crate) half: Half,
    pub(crate) number: u64,
}

/// What waits of each exchange, by its asker and its sequence_number.
#[derive(Drop)]
pub(crate) struct Balance {
    pub(crate) client: BTreeMap<u32, Waiting>,
    pub(crate) centre: BTreeMap<u32, Waiting>,
}

impl Balance {
    /// Nothing waits.
    pub(crate) fn new(alloc: Global) -> Balance
        ensures { (asker : Dir) (number : ℕ) → waiting_of result asker number ≡ None }
    {
        Balance {
            client: BTreeMap::new(alloc),
            centre: BTreeMap::new(alloc),
        }
    }

    /// Whether the other half of a PDU waits.
    pub(crate) fn awaits(&self, exchange: Exchange) -> bool
        ensures { result ≡ nat_lt 0 (number_of (other_half exchange.half)
            (waiting_of self.now exchange.asker exchange.sequence_number)) }
    {
        let waiting = match exchange.asker {
            Dir::FromClient => self.client.get(&exchange.sequence_number),
            Dir::FromCentre => self.centre.get(&exchange.sequence_number),
        };
        match waiting {
            Some(waiting) => is_other(*waiting, exchange.half),
            None => false,
        }
    }

    /// Takes a PDU. The only error is that memory ran out.
    pub(crate) fn put(&mut self, exchange: Exchange) -> Result<(), AllocError>
        ensures { OnOk result ((asker : Dir) (number : ℕ) →
            Moves (same_dir asker exchange.asker && number == exchange.sequence_number) exchange.half
            (waiting_of self.old asker number) (waiting_of self.new asker number)) }
    {
        match exchange.asker {
            Dir::FromClient => put_half(&mut self.client, exchange.sequence_number, exchange.half),
            Dir::FromCentre => put_half(&mut self.centre, exchange.sequence_number, exchange.half),
        }
    }
}

/// Whether what waits is the other half of this one.
fn is_other(waiting: Waiting, half: Half) -> bool
    ensures { result ≡ nat_lt 0 (number_of (other_half half) (Some waiting)) }
{
    match (waiting.half, half) {
        (Half::Request, Half::Response) | (Half::Response, Half::Request) => waiting.number > 0,
        (Half::Request, Half::Request) | (Half::Response, Half::Response) => false,
    }
}

/// Takes one more half of the exchange of a sequence_number.
fn put_half(
    waiting: &mut BTreeMap<u32, Waiting>,
    sequence_number: u32,
    half: Half,
) -> Result<(), AllocError>
    ensures { OnOk result ((number : ℕ) →
        Moves (number == sequence_number) half
        (get nat_cmp waiting.old number) (get nat_cmp waiting.new number)) }
{
    let before = waiting.get(&sequence_number).copied();
    match with_half(before, half)? {
        Some(after) => {
            waiting.insert(sequence_number, after)?;
        }
        None => {
            waiting.remove(&sequence_number);
        }
    }
    Ok(())
}

/// What waits with one more half: it goes with one that waits for it, or waits itself.
fn with_half(before: Option<Waiting>, half: Half) -> Result<Option<Waiting>, AllocError>
    ensures { IfOk result (λ after. Moves true half before after) }
{
    let Some(waiting) = before else {
        return Ok(Some(Waiting { half, number: 1 }));
    };
    if waiting.number == 0 {
        return Ok(Some(Waiting { half, number: 1 }));
    }
    if is_other(waiting, half) {
        return Ok(one_less(waiting));
    }
    match waiting.number.checked_add(1) {
        Some(number) => Ok(Some(Waiting { half, number })),
        None => Err(AllocError),
    }
}

/// What waits where one of them has its other half.
fn one_less(waiting: Waiting) -> Option<Waiting>
    requires { 0 < waiting.number }
    ensures { (half : Half) → number_of half result + one_if (same_half half waiting.half)
        ≡ number_of half (Some waiting) }
{
    if waiting.number <= 1 {
        return None;
    }
    Some(Waiting {
        half: waiting.half,
        number: waiting.number - 1,
    })
}
