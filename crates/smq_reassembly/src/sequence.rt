//! Where the octets of a segment stand, by their sequence numbers.
ghost use Rattle.smq_reassembly.specs.Sequence.{IsPlace};

/// How far ahead a sequence number may be.
const HALF: u32 = 0x8000_0000;

/// Where an octet stands.
#[derive(Clone, Copy)]
pub enum Place {
    /// So many octets after a place.
    Ahead(u32),
    /// So many octets before it.
    Behind(u32),
}

/// Where the octet with a sequence number stands that is nearest to a place, where the direction's first octet has another number.
pub fn place_of(first: u32, next: u64, sequence: u32) -> Place
    ensures { IsPlace first next sequence result }
{
    let start = first.wrapping_add((next % 0x1_0000_0000) as u32);
    let far = sequence.wrapping_sub(start);
    if far < HALF {
        Place::Ahead(far)
    } else {
        Place::Behind(start.wrapping_sub(sequence))
    }
}
