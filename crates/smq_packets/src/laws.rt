//! Laws of the definitions, each the contract of a function with nothing to do.
ghost use Rattle.std.specs.Prelude.{◌≡◌, ◌∷◌, [], ℕ, List};
ghost use Rattle.smq_packets.specs.Known.{KnownBlocks, KnownFragments, KnownRecords, KnownRefusals, KnownSegments};
ghost use Rattle.smq_packets.specs.Readings.{HasOneReading};
ghost use Rattle.smq_packets.specs.declared.layer.Layer.{Layer};

use crate::block::{MOST_IN_BLOCK, MOST_INTERFACES};
use crate::file::MOST_CAPTURED;
use crate::fragments::{MOST_PARTS, MOST_WAITING};
use crate::segment::{ACK, FIN, MOST_HEADS, RST, SYN};

/// Of each frame one segment is read, or none for one reason: heads lead from one to the next, up to
/// TCP's, to one that leads no further, or to the 32nd.
pub fn one_reading()
    ensures { (frame : List ℕ) (first : Layer) → HasOneReading frame first }
{}

/// The bounds: heads of a frame, octets of a packet and of a block, interfaces of a section,
/// fragments that are kept, and for how many ms.
pub fn known_bounds()
    ensures heads { MOST_HEADS ≡ 32 }
    ensures captured { MOST_CAPTURED ≡ 262144 }
    ensures block { MOST_IN_BLOCK ≡ 327680 }
    ensures interfaces { MOST_INTERFACES ≡ 65536 }
    ensures parts { MOST_PARTS ≡ 128 }
    ensures waiting { MOST_WAITING ≡ 60000 }
{}

/// The flags that are read, in the order of their bits (RFC 9293, 3.1).
pub fn known_flags()
    ensures { FIN ∷ SYN ∷ RST ∷ ACK ∷ [] ≡ 1 ∷ 2 ∷ 4 ∷ 16 ∷ [] }
{}

/// Frames of which a segment is read: link types, tags, tunnels, and what is cut away.
pub fn known_segments()
    ensures { KnownSegments }
{}

/// Frames of which none is read, each for its reason.
pub fn known_refusals()
    ensures { KnownRefusals }
{}

/// Heads and records of pcap.
pub fn known_records()
    ensures { KnownRecords }
{}

/// Blocks of pcapng.
pub fn known_blocks()
    ensures { KnownBlocks }
{}

/// Fragments: of no use, come again, overlapping, too old, and put together.
pub fn known_fragments()
    ensures { KnownFragments }
{}
