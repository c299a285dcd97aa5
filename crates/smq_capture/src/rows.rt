//! The rows of a connection, in the order in which they came: each waits until the session of each of its octets is known.
ghost use Rattle.std.specs.Prelude.{◌≡◌, ℕ, ◌≤◌, ◌++◌, ◌∷◌, [], length, slice_get, take, IsTrue, ◌↔◌, IfOk, OnOk, OnErr, IfSome, MatchOption, Some, None};
ghost use Rattle.std.specs.List.{AllZip};
ghost use Rattle.smq_capture.specs.Rows.{AllDealt, AllSettle, AreInOrder, AreSettledTo, IsSettled, SettlesBefore, SomeEndsIn, weight_in};
ghost use Rattle.smq_capture.specs.Sessions.{Goes};
ghost use Rattle.smq_capture.specs.within.Runs.{IsDone};

use crate::direction::Direction;
use crate::side::Side;
use crate::waiting::Waiting;
use std::alloc::{AllocError, Global};
use std::collections::VecDeque;
use std::marker::Model;

/// Rows of both directions.
#[derive(Drop)]
pub(crate) struct Rows {
    rows: VecDeque<Waiting>,
    /// How much memory they take, at most.
    weight: u64,
    /// For each direction, how many rows from the first on have no octet of it that isn't settled.
    client: usize,
    centre: usize,
}

impl Model for Rows {
    ghost use Rattle.std.specs.Prelude.{◌≡◌, List};
    ghost use Rattle.smq_capture.specs.Rows.{Row, weight_in};
    ghost use Rattle.smq_capture.specs.within.Runs.{IsDone};
    ghost use Rattle.smq_capture.specs.declared.side.Side.TheVariants.{Client, Centre};

    ghost Value = { List Row };

    ghost view = { λ r. r.rows.items };

    ghost invariant = { λ r. (r.weight ≡ weight_in r.rows.items)
        × IsDone Client r.client r.rows.items × IsDone Centre r.centre r.rows.items };
}

impl Rows {
    /// No rows.
    pub(crate) fn new(alloc: Global) -> Rows
        ensures { result ≡ [] }
    {
        Rows {
            rows: VecDeque::new(alloc),
            weight: 0,
            client: 0,
            centre: 0,
        }
    }

    /// Whether there are none.
    pub(crate) fn is_empty(&self) -> bool
        ensures { IsTrue result ↔ (self.now ≡ []) }
    {
        self.rows.is_empty()
    }

    /// How much memory they take, at most.
    pub(crate) fn weight(&self) -> u64
        ensures { result ≡ weight_in self.now }
    {
        self.weight
    }

    /// Puts a row behind the others.
    pub(crate) fn put(
        &mut self,
        sender: Side,
        place: u64,
        number: u64,
        moment: u64,
        octets: Vec<u8>,
    ) -> Result<(), AllocError>
        ensures ok { OnOk result (self.new ≡ self.old ++ (record {
          sender = sender;
          place = place;
          number = number;
          moment = moment;
          octets = octets.items;
          sessions = [];
        }) ∷ []) }
        ensures err { OnErr result (self.new ≡ self.old) }
    {
        let row = Waiting::new(sender, place, number, moment, octets);
        let Some(weight) = self.weight.checked_add(row.weight()) else {
            return Err(AllocError);
        };
        self.rows.push_back(row)?;
        self.weight = weight;
        Ok(())
    }

    /// Takes the first row, where each of its octets is settled.
    pub(crate) fn take(&mut self) -> Option<Waiting>
        ensures some { IfSome result (λ row. IsSettled row × (self.old ≡ row ∷ self.new)) }
        ensures none { result ≡ None → self.new ≡ self.old }
        ensures waits { result ≡ None → IfSome (slice_get self.old 0) (λ row. IsSettled row → ⊥) }
    {
        match self.rows.front() {
            Some(row) if row.is_settled() => {}
            _ => return None,
        }
        let row = self.rows.pop_front()?;
        self.weight -= row.weight();
        self.client = self.client.saturating_sub(1);
        self.centre = self.centre.saturating_sub(1);
        Some(row)
    }

    /// Settles the octets of a direction, in order, up to a place of it or all; whether the last ones of some row are of a session.
    pub(crate) fn settle(
        &mut self,
        side: Side,
        until: Option<u64>,
        direction: &mut Direction,
        session: u64,
    ) -> Result<bool, AllocError>
        ensures settles { AllSettle side direction.old self.old self.new }
        ensures goes { Goes direction.old direction.new }
        ensures dealt { OnOk result (AllDealt side direction.old direction.new self.old self.new) }
        ensures all { until ≡ None → OnOk result (AreSettledTo until side self.old self.new) }
        ensures below { AreInOrder side self.old → OnOk result (AreSettledTo until side self.old self.new) }
        ensures before { (place : ℕ) → until ≡ Some place → AllZip (SettlesBefore place) self.old self.new }
        ensures answer { IfOk result (λ is_there. IsTrue is_there ↔ SomeEndsIn session self.old self.new) }
    {
        match side {
            Side::Client => {
                let (done, is_there) = settle_from(
                    &mut self.rows,
                    self.client,
                    side,
                    until,
                    direction,
                    session,
                )?;
                self.client = done;
                Ok(is_there)
            }
            Side::Centre => {
                let (done, is_there) = settle_from(
                    &mut self.rows,
                    self.centre,
                    side,
                    until,
                    direction,
                    session,
                )?;
                self.centre = done;
                Ok(is_there)
            }
        }
    }
}

/// Settles the octets of a direction in rows of which so many need no look: how many need none then, and whether the last ones that
/// were settled of some row are of a session.
fn settle_from(
    rows: &mut VecDeque<Waiting>,
    from: usize,
    side: Side,
    until: Option<u64>,
    direction: &mut Direction,
    session: u64,
) -> Result<(usize, bool), AllocError>
    requires { IsDone side from rows.old.items }
    ensures settles { AllSettle side direction.old rows.old.items rows.new.items }
    ensures goes { Goes direction.old direction.new }
    ensures dealt { OnOk result (AllDealt side direction.old direction.new rows.old.items rows.new.items) }
    ensures kept { take from rows.new.items ≡ take from rows.old.items }
    ensures done { IfOk result (λ r. IsDone side r.0 rows.new.items) }
    ensures all { until ≡ None → OnOk result (AreSettledTo until side rows.old.items rows.new.items) }
    ensures below { AreInOrder side rows.old.items → OnOk result (AreSettledTo until side rows.old.items rows.new.items) }
    ensures before { (place : ℕ) → until ≡ Some place → AllZip (SettlesBefore place) rows.old.items rows.new.items }
    ensures answer { IfOk result (λ r. IsTrue r.1 ↔ SomeEndsIn session rows.old.items rows.new.items) }
{
    let end = rows.len();
    let mut is_there = false;
    for at in from..end {
        let row = &mut rows[at];
        if row.is_of(side) {
            is_there |= row.settle(until, direction, session)?;
            if !row.is_settled() {
                return Ok((at, is_there));
            }
        }
    }
    Ok((end, is_there))
}
