//! Where a segment stands beside what was given of a direction.
ghost use Rattle.std.specs.Prelude.{◌≡◌};
ghost use Rattle.smq_reassembly.specs.Sequence.{IsPlace};
ghost use Rattle.smq_streams.specs.Fit.{fit_at, octet_at};

use smq_reassembly::{Place, WINDOW, one_place, place_of};

/// Where a segment stands by its sequence number.
#[derive(Clone, Copy, Debug, PartialEq, Eq)]
pub enum Fit {
    /// Before the first octet.
    Before,
    /// Among the octets, or within a window ahead of them.
    Within,
    /// Further ahead.
    Ahead,
}

/// Where a segment of so many octets stands, whose first has a sequence number, in a direction whose first octet has another.
pub(crate) fn fit_by(first: u32, next: u64, sequence: u32, length: u64) -> Fit
    ensures { (place : Place) → IsPlace first next sequence place → result ≡ fit_at next place length }
{
    one_place();
    fit_of(next, place_of(first, next, sequence), length)
}

/// The place of the octet with a sequence number, in the same way.
pub(crate) fn octet_by(first: u32, next: u64, sequence: u32) -> Option<u64>
    ensures { (place : Place) → IsPlace first next sequence place → result ≡ octet_at next place }
{
    one_place();
    octet_of(next, place_of(first, next, sequence))
}

/// Where a segment of so many octets stands, of which the first is there beside the next octet.
fn fit_of(next: u64, place: Place, length: u64) -> Fit
    ensures { result ≡ fit_at next place length }
{
    match place {
        Place::Ahead(far) => {
            if far as u64 > WINDOW {
                Fit::Ahead
            } else {
                Fit::Within
            }
        }
        Place::Behind(far) => {
            if next.saturating_add(length.max(1)) < far as u64 {
                Fit::Before
            } else {
                Fit::Within
            }
        }
    }
}

/// The place of an octet that stands there beside the next one; none before the first.
fn octet_of(next: u64, place: Place) -> Option<u64>
    ensures { result ≡ octet_at next place }
{
    match place {
        Place::Ahead(far) => Some(next.saturating_add(far as u64)),
        Place::Behind(far) => next.checked_sub(far as u64),
    }
}
