//! Laws of the definitions, each the contract of a function with nothing to do.
ghost use Rattle.std.specs.Prelude.{◌≡◌, ◌^◌, ℕ, List};
ghost use Rattle.smq_reassembly.specs.Known.{KnownStreams};
ghost use Rattle.smq_reassembly.specs.Octet.{Octet};
ghost use Rattle.smq_reassembly.specs.Piece.{Piece};
ghost use Rattle.smq_reassembly.specs.Moment.{GivesStream, IsGivenAtCompletion, IsOneGiven, Start};
ghost use Rattle.smq_reassembly.specs.Sequence.{IsOnePlace};
ghost use Rattle.smq_reassembly.specs.Stream.{IsOneStream};

use crate::packet::Packet;
use crate::reassembly::{LONGEST, WINDOW};
use crate::sequence::Place;

/// Pieces have one stream from a place on, and no other.
pub fn one_stream()
    ensures { (pieces : List Piece) (start : ℕ) (text other : List Octet) →
        IsOneStream pieces start text other }
{}

/// What is given of pieces is one list, and has the octets of their stream.
pub fn one_given()
    ensures one { (pieces : List Piece) (start : Start) (given other : List Octet) →
        IsOneGiven pieces start given other }
    ensures stream { (pieces : List Piece) (start : Start) (given text : List Octet) →
        GivesStream pieces start given text }
{}

/// Each octet is given with the packet at which it and all before it had come, at that one's moment, raised to that of the octet before.
pub fn given_at_completion()
    ensures { (before : List Piece) (piece : Piece) (after : List Piece) (packet : Packet) (start : Start)
        (given : List Octet) (n : ℕ) (o : Octet) →
        IsGivenAtCompletion before piece after packet start given n o }
{}

/// An octet with a sequence number stands at one place.
pub fn one_place()
    ensures { (first next sequence : ℕ) (place other : Place) → IsOnePlace first next sequence place other }
{}

/// What the definitions give for some known segments, and the limits.
pub fn known_streams()
    ensures streams { KnownStreams }
    ensures window { WINDOW ≡ 16777216 }
    ensures longest { LONGEST ≡ 2 ^ 60 }
{}
