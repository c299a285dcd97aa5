//! What holds of the definitions that the contracts cite.
ghost use Rattle.std.specs.Prelude.{◌≡◌, ◌↔◌, IsTrue};
ghost use Rattle.smq_receipt.specs.Places.{FindsTheLeast};
ghost use Rattle.smq_receipt.specs.Texts.{FindsPatterns};
ghost use Rattle.smq_receipt.specs.States.{StatesAreTheTable};
ghost use Rattle.smq_receipt.specs.Dates.{DatesAreOfTheCalendar};
ghost use Rattle.smq_receipt.specs.Equalities.{is_same_receipt, is_same_reading};
ghost use Rattle.smq_receipt.specs.Known.{KnownLimits, ReadingsOfKnownReceipts};

use crate::{Reading, Receipt};

/// A pattern is found at a place exactly where the text has its octets there, in any ASCII letter case.
pub fn patterns_are_found()
    ensures { FindsPatterns }
{}

/// The place that is computed for a test, as that a name stands there, is the least that passes.
pub fn least_places_are_found()
    ensures { FindsTheLeast }
{}

/// A state is found by its number and by its word, and by no others.
pub fn states_are_the_table()
    ensures { StatesAreTheTable }
{}

/// The dates that are read are those of the calendar, with their day numbers.
pub fn dates_are_of_the_calendar()
    ensures { DatesAreOfTheCalendar }
{}

/// What some receipts say.
pub fn readings_of_known_receipts()
    ensures { ReadingsOfKnownReceipts }
{}

/// What is a receipt, an id, a state, a network's code and a date, at each limit and just past it.
pub fn known_limits()
    ensures { KnownLimits }
{}

/// Two receipts, or two readings, are equal by `==` exactly where they are one.
pub fn readings_are_told_apart()
    ensures receipts { (a b : Receipt) → IsTrue (is_same_receipt a b) ↔ (a ≡ b) }
    ensures readings { (a b : Reading) → IsTrue (is_same_reading a b) ↔ (a ≡ b) }
{}
