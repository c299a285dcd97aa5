//! Sequence numbers of two segments, which count modulo 2^32 (RFC 9293, 3.4).
ghost use Rattle.std.specs.Prelude.{◌≡◌, ◌↔◌, ◌⊎◌, IsTrue};
ghost use Rattle.smq_capture.specs.Numbers.{AreNear, Follows, Reaches, number_behind};

use smq_reassembly::WINDOW;

/// What a segment tells of both directions: the number behind its octets, and the one that it acknowledges.
#[derive(Clone, Copy)]
pub(crate) struct Heard {
    pub(crate) behind: u32,
    pub(crate) acknowledged: u32,
}

/// The number behind so many octets from a number on.
pub(crate) fn behind(sequence: u32, length: usize) -> u32
    ensures { result ≡ number_behind sequence length }
{
    sequence.wrapping_add((length as u64 % 0x1_0000_0000) as u32)
}

/// Whether a number is another one or ahead of it, by so much at most.
pub(crate) fn reaches(from: u32, sequence: u32, most: u64) -> bool
    ensures { IsTrue result ↔ Reaches from sequence most }
{
    sequence.wrapping_sub(from) as u64 <= most
}

/// Whether a number is another one or ahead of it, by a window at most.
pub(crate) fn is_ahead(from: u32, sequence: u32) -> bool
    ensures { IsTrue result ↔ Reaches from sequence 16777216 }
{
    reaches(from, sequence, WINDOW)
}

/// Whether two numbers are within a window of each other.
pub(crate) fn is_near(one: u32, other: u32) -> bool
    ensures { IsTrue result ↔ AreNear one other }
{
    is_ahead(other, one) || is_ahead(one, other)
}

/// Whether a later segment may be of the connection of one before, by its number of that one's direction and its number of the other.
pub(crate) fn is_followed(before: Heard, own: u32, other: u32) -> bool
    ensures { IsTrue result ↔ Follows before own other }
{
    is_ahead(before.behind, own) && is_near(before.acknowledged, other)
}
