//! Seats: what a caller of a desk keeps.
ghost use Rattle.std.specs.Prelude.{◌≡◌, []};

use crate::Call;
use std::alloc::Global;
use std::marker::Model;

/// A caller's seat at a desk, with all that was committed from it. A contract sees its number and its calls.
#[derive(Drop)]
pub struct Seat {
    number: u32,
    pub(crate) calls: Vec<Call>,
}

impl Model for Seat {
    ghost use Rattle.smq_desk.specs.Seats.{SeatValue};

    ghost Value = { SeatValue };

    ghost view = { λ s. record { number = s.number; calls = s.calls.items } };
}

impl Seat {
    /// A seat from which nothing was committed.
    pub(crate) fn new(alloc: Global, number: u32) -> Seat
        ensures { result ≡ (record { number = number; calls = [] }) }
    {
        Seat {
            number,
            calls: Vec::new(alloc),
        }
    }

    /// The number of the seat, from 1.
    pub fn number(&self) -> u32
        ensures { result ≡ self.now.number }
    {
        self.number
    }

    /// What was committed from it, in order: the edits that the book made, and those that it refused.
    pub fn calls(&self) -> &[Call]
        ensures { result.now ≡ self.now.calls }
    {
        self.calls.as_slice()
    }
}
