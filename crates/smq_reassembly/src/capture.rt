//! All segments of a direction.
ghost use Rattle.std.specs.Prelude.{◌≡◌, ◌++◌, ◌∷◌, [], ℕ, List, IfOk, OnOk, IfSome, length};
ghost use Rattle.smq_reassembly.specs.Capture.{AllCome, Comes, octets_of_parts};
ghost use Rattle.smq_reassembly.specs.Moment.{IsGiven, Start};
ghost use Rattle.smq_reassembly.specs.Octet.{Octet};
ghost use Rattle.smq_reassembly.specs.Piece.{Piece};
ghost use Rattle.smq_reassembly.specs.State.{Follows};

use crate::packet::Packet;
use crate::reassembly::{Part, Reassembly, Taken};
use std::alloc::{AllocError, Global};

/// Octets of a direction in a packet, with the sequence number of the first of them.
#[derive(Clone, Copy)]
pub struct Segment<'a> {
    pub sequence: u32,
    pub packet: Packet,
    pub octets: &'a [u8],
}

/// The octets that the segments of a direction give, in order. The only error is that memory ran out.
pub fn parts_of(
    alloc: Global,
    first: u32,
    segments: &[Segment<'_>],
) -> Result<Vec<Part>, AllocError>
    ensures { IfOk result (λ parts. (pieces : List Piece) × AllCome first [] segments.now pieces
        × IsGiven pieces (record { place = 0; moment = 0 }) (octets_of_parts parts.items)) }
{
    let mut direction = Reassembly::new(alloc);
    let mut parts = Vec::new(alloc);
    give_waiting(&mut direction, &mut parts)?;
    for segment in segments {
        give(alloc, first, *segment, &mut direction, &mut parts)?;
        give_waiting(&mut direction, &mut parts)?;
    }
    Ok(parts)
}

/// Gives the octets of a segment that are the next.
fn give(
    alloc: Global,
    first: u32,
    segment: Segment<'_>,
    direction: &mut Reassembly,
    parts: &mut Vec<Part>,
) -> Result<(), AllocError>
    ensures { (pieces : List Piece)
        → IsGiven pieces (record { place = 0; moment = 0 }) (octets_of_parts parts.old.items)
        → Follows pieces (record { place = 0; moment = 0 }) (octets_of_parts parts.old.items) direction.old
        → OnOk result ((more : List Piece) × Comes first pieces segment.entry more
        × Follows more (record { place = 0; moment = 0 }) (octets_of_parts parts.new.items) direction.new) }
{
    if let Taken::Lends(next) = direction.take_segment(
        alloc,
        first,
        segment.sequence,
        segment.packet,
        segment.octets,
    )? {
        parts.push(Part {
            packet: next.packet,
            begins: next.begins,
            octets: Vec::from_slice(alloc, next.octets)?,
        })?;
    }
    Ok(())
}

/// Gives the octets that waited and are now the next.
fn give_waiting(direction: &mut Reassembly, parts: &mut Vec<Part>) -> Result<(), AllocError>
    ensures follows { (pieces : List Piece) (start : Start)
        → Follows pieces start (octets_of_parts parts.old.items) direction.old
        → OnOk result (Follows pieces start (octets_of_parts parts.new.items) direction.new) }
    ensures whole { (pieces : List Piece) (start : Start)
        → Follows pieces start (octets_of_parts parts.old.items) direction.old
        → OnOk result (IsGiven pieces start (octets_of_parts parts.new.items)) }
{
    'parts: while let Some(part) = direction.next_part() {
        parts.push(part)?;
    }
    Ok(())
}
