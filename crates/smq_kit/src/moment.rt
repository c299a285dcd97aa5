//! A moment in milliseconds since 1970, in UTC.
ghost use Rattle.std.specs.Prelude.{◌≡◌, ◌≤◌, ◌↔◌, IsOk, IfOk, IfErr};
ghost use Rattle.smq_kit.specs.Orders.{MomentsAreOrdered};

use crate::Refusal;
use std::marker::Model;

/// The last moment, the first of the year 2100, in ms since 1970 in UTC.
pub const LAST_MOMENT: u64 = 4_102_444_800_000;

/// A moment in ms since 1970 in UTC, from 0 to `LAST_MOMENT`. A contract sees the number.
#[derive(Clone, Copy, Debug, PartialEq, Eq, PartialOrd, Ord)]
pub struct Moment {
    milliseconds: u64,
}

impl Model for Moment {
    ghost use Rattle.std.specs.Prelude.{ℕ, ◌≤◌};

    ghost Value = { ℕ };

    ghost view = { λ m. m.milliseconds };

    ghost invariant = { λ m. m.milliseconds ≤ 4102444800000 };

    ghost inverse = { λ n. record { milliseconds = n } };
}

impl Moment {
    /// Takes a number of ms since 1970 in UTC. One above `LAST_MOMENT` is a `BadMoment`.
    pub fn new(milliseconds: u64) -> Result<Moment, Refusal>
        ensures in_range { IsOk result ↔ (milliseconds ≤ LAST_MOMENT) }
        ensures value { IfOk result (λ moment. moment ≡ milliseconds) }
        ensures refused { IfErr result (λ refusal. refusal ≡ Refusal.BadMoment) }
    {
        if milliseconds > LAST_MOMENT {
            return Err(Refusal::BadMoment);
        }
        Ok(Moment { milliseconds })
    }

    /// The opening moment, 0 ms.
    pub fn epoch() -> Moment
        ensures { result ≡ 0 }
    {
        Moment { milliseconds: 0 }
    }

    /// The ms since 1970 in UTC.
    pub fn milliseconds(self) -> u64
        ensures value { result ≡ self }
        ensures in_range { result ≤ LAST_MOMENT }
    {
        self.milliseconds
    }
}

/// Moments are ordered by their ms, and equal exactly where they are one.
pub fn moments_are_ordered()
    ensures { MomentsAreOrdered }
{}
