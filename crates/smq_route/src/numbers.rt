//! Numbers of messages: at which places stand those to the numbers of a prefix.
ghost use Rattle.std.specs.Prelude.{◌≡◌, ◌≤◌, ◌+◌, ◌*◌, ℕ, List, [], length, IfOk, OnOk, OnErr, if◌then◌else◌};
ghost use Rattle.std.specs.FinMap as fin;
ghost use Rattle.smq_shelf.specs.Shown.{touched};
ghost use Rattle.smq_route.specs.Numbers.{no_numbers, number_at, places_under, vacancies, with_touches};
ghost use Rattle.smq_route.specs.Versions.{begins};

use crate::number_key::{NumberKey, Prefix};
use crate::walk::gather;
use smq_kit::{Digits, Place};
use smq_shelf::Kept;
use std::alloc::{AllocError, Global};
use std::marker::Model;

/// A number and the place of a message to it. Ordered by the number's octets, then by the place.
#[derive(Debug, PartialEq, Eq, PartialOrd, Ord, Drop)]
pub struct NumberAt {
    pub number: Digits,
    pub place: Place,
}

/// The numbers of messages with their places. A contract sees them as a set, with those that `undo` brings back and the
/// touches of the shelf in which they are kept.
#[derive(Drop)]
pub struct Numbers {
    alloc: Global,
    kept: Kept<NumberKey, ()>,
}

impl Model for Numbers {
    ghost use Rattle.smq_route.specs.Numbers.{NumbersValue, numbers_code};
    ghost use Rattle.smq_route.specs.within.NumberKeys.{numbers_in};
    ghost use Rattle.smq_route.specs.within.NumberWalks.{vacant_numbers};

    ghost Value = { NumbersValue };

    ghost coded = { numbers_code };

    ghost view = { λ n. record {
      numbers = numbers_in n.kept.content;
      settled = numbers_in n.kept.settled;
      touches = n.kept.touches;
      pending = n.kept.pending;
      vacant = vacant_numbers n.kept.places;
    } };
}

impl Numbers {
    /// No numbers.
    pub fn new(alloc: Global) -> Numbers
        ensures { result ≡ no_numbers }
    {
        Numbers {
            alloc,
            kept: Kept::new(alloc),
        }
    }

    /// Adds the number of the message at a place. One that is there stays. An error changes nothing but the touches.
    pub fn add(&mut self, number: Digits, place: Place) -> Result<(), AllocError>
        ensures ok { OnOk result (self.new.numbers
            ≡ fin.insert self.old.numbers (number_at number place) tt) }
        ensures err { OnErr result (self.new ≡ with_touches self.new.touches self.old) }
        ensures settled { self.new.settled ≡ self.old.settled }
        ensures pending { self.new.pending ≤ self.old.pending + 1 }
        ensures vacant { OnOk result ((prefix : List ℕ)
            → vacancies self.new prefix ≤ vacancies self.old prefix) }
        ensures touches { self.new.touches ≤ self.old.touches + 1 }
        ensures touched { OnOk result (self.new.touches ≡ touched self.old.touches) }
        ensures counted { self.old.touches ≤ self.new.touches }
    {
        self.kept.set(NumberKey::new(&number, place), ())?;
        Ok(())
    }

    /// Takes the number of the message at a place out, if it is there. An error changes nothing but the touches.
    pub fn remove(&mut self, number: &Digits, place: Place) -> Result<(), AllocError>
        ensures ok { OnOk result (self.new.numbers
            ≡ fin.remove self.old.numbers (number_at number.now place)) }
        ensures err { OnErr result (self.new ≡ with_touches self.new.touches self.old) }
        ensures settled { self.new.settled ≡ self.old.settled }
        ensures pending { self.new.pending ≤ self.old.pending + 1 }
        ensures vacant { OnOk result ((prefix : List ℕ) → vacancies self.new prefix
            ≤ vacancies self.old prefix + (if begins number.now prefix then 1 else 0)) }
        ensures touches { self.new.touches ≤ self.old.touches + 2 }
        ensures touched { OnOk result (touched self.old.touches ≤ self.new.touches) }
        ensures counted { self.old.touches ≤ self.new.touches }
    {
        self.kept.remove(&NumberKey::new(number, place))?;
        Ok(())
    }

    /// The places of the messages to numbers that begin with a prefix, by number, then by place. It changes nothing but
    /// the touches: one, one for each place that is told, and one for each vacant place of such a number.
    pub fn under(&mut self, prefix: &Digits) -> Result<Vec<Place>, AllocError>
        ensures value { IfOk result (λ places.
            places.items ≡ places_under self.old.numbers prefix.now) }
        ensures unchanged { self.new ≡ with_touches self.new.touches self.old }
        ensures touches { self.new.touches ≤ self.old.touches + 1
            + vacancies self.old prefix.now + length (places_under self.old.numbers prefix.now) }
        ensures counted { self.old.touches ≤ self.new.touches }
    {
        gather(self.alloc, &mut self.kept, &Prefix::of(prefix))
    }

    /// Brings back the numbers of the last `settle`, or of `new`. It takes no memory.
    pub fn undo(&mut self)
        ensures numbers { self.new.numbers ≡ self.old.settled }
        ensures settled { self.new.settled ≡ self.old.settled }
        ensures pending { self.new.pending ≡ 0 }
        ensures vacant { self.new.vacant ≡ [] }
        ensures touches { self.new.touches ≤ self.old.touches + self.old.pending }
        ensures counted { self.old.touches ≤ self.new.touches }
    {
        self.kept.undo();
    }

    /// Makes the numbers those that `undo` brings back. It takes no memory.
    pub fn settle(&mut self)
        ensures numbers { self.new.numbers ≡ self.old.numbers }
        ensures settled { self.new.settled ≡ self.old.numbers }
        ensures pending { self.new.pending ≡ 0 }
        ensures vacant { self.new.vacant ≡ [] }
        ensures touches { self.new.touches ≤ self.old.touches + 2 * self.old.pending }
        ensures counted { self.old.touches ≤ self.new.touches }
    {
        self.kept.settle();
    }

    /// How many touches its shelf had.
    pub fn touches(&self) -> u64
        ensures { result ≡ self.now.touches }
    {
        self.kept.touches()
    }
}
