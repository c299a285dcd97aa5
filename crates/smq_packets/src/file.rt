//! The head of a pcap file, and its records (draft-ietf-opsawg-pcap, 4 and 5).
ghost use Rattle.std.specs.Prelude.{◌≡◌, ◌↔◌, ◌≤◌, IfOk, IfErr, IfSome, IsSome, Ok, Err, length};
ghost use Rattle.smq_packets.specs.Blocks.{value_of_block};
ghost use Rattle.smq_packets.specs.Records.{head_in_order, head_of_file, packet_of_record, record_of};

use crate::block::{Block, NoBlock};
use crate::link::LinkType;
use crate::octets::{four, four_of, little_four, range_of};

/// The most octets of a packet that a record may have: pcap's own limit.
pub const MOST_CAPTURED: u32 = 262_144;

/// The magic number, where fractions of a second are microseconds, and where they are nanoseconds.
const MICROSECONDS: u32 = 0xA1B2_C3D4;

const NANOSECONDS: u32 = 0xA1B2_3C4D;

/// What the head of a file says of its records.
#[derive(Clone, Copy, Debug, PartialEq, Eq)]
pub struct FileHead {
    /// Whether the first octet of a number counts most.
    pub is_big: bool,
    /// Whether fractions of a second are nanoseconds, and else microseconds.
    pub is_nano: bool,
    /// How frames begin.
    pub link_type: LinkType,
}

/// Why a file isn't read.
#[derive(Clone, Copy, Debug, PartialEq, Eq)]
pub enum HeadFault {
    /// It is no pcap file.
    NoCapture,
    /// Packets of this link type aren't read.
    LinkType(u16),
}

/// What a record says of its packet.
#[derive(Clone, Copy, Debug, PartialEq, Eq)]
pub struct RecordHead {
    /// In ms since 1970 in UTC.
    pub moment: u64,
    /// How many octets of it are in the file.
    pub captured: u32,
    /// How many octets it had.
    pub length: u32,
}

/// What the first 24 octets of a file say.
pub fn read_file_head(octets: &[u8]) -> Result<FileHead, HeadFault>
    ensures { result ≡ head_of_file octets.now }
{
    if octets.len() < 24 {
        return Err(HeadFault::NoCapture);
    }
    let big = four(octets, 0);
    let little = little_four(octets, 0);
    if big == MICROSECONDS {
        return head_in(octets, true, false);
    }
    if little == MICROSECONDS {
        return head_in(octets, false, false);
    }
    if big == NANOSECONDS {
        return head_in(octets, true, true);
    }
    if little == NANOSECONDS {
        return head_in(octets, false, true);
    }
    Err(HeadFault::NoCapture)
}

/// What they say in this order and with these fractions.
fn head_in(octets: &[u8], is_big: bool, is_nano: bool) -> Result<FileHead, HeadFault>
    requires { 24 ≤ length octets.now }
    ensures { result ≡ head_in_order is_big is_nano octets.now }
{
    // (the upper octets tell of a checksum behind each frame, which no IP length takes in)
    let number = (four_of(is_big, octets, 20) % 65_536) as u16;
    match LinkType::of(number) {
        Some(link_type) => Ok(FileHead {
            is_big,
            is_nano,
            link_type,
        }),
        None => Err(HeadFault::LinkType(number)),
    }
}

/// What the 16 octets before a packet say.
pub fn read_record_head(head: FileHead, octets: &[u8]) -> Option<RecordHead>
    ensures there { IsSome result ↔ (16 ≤ length octets.now) }
    ensures says { IfSome result (λ r. r ≡ record_of head octets.now) }
{
    if octets.len() < 16 {
        return None;
    }
    let fraction = four_of(head.is_big, octets, 4) as u64;
    let part = if head.is_nano {
        fraction / 1_000_000
    } else {
        fraction / 1000
    };
    Some(RecordHead {
        moment: four_of(head.is_big, octets, 0) as u64 * 1000 + part,
        captured: four_of(head.is_big, octets, 8),
        length: four_of(head.is_big, octets, 12),
    })
}

/// The packet at the front of octets, behind a file's head.
pub fn read_record(head: FileHead, octets: &[u8]) -> Result<Block<'_>, NoBlock>
    ensures ok { IfOk result (λ b. packet_of_record head octets.now ≡ Ok (value_of_block b)) }
    ensures err { IfErr result (λ why. packet_of_record head octets.now ≡ Err why) }
{
    let Some(record) = read_record_head(head, octets) else {
        return Err(NoBlock::More);
    };
    if record.captured > MOST_CAPTURED {
        return Err(NoBlock::Broken(8));
    }
    let size = 16 + record.captured as usize;
    if octets.len() < size {
        return Err(NoBlock::More);
    }
    Ok(Block::Packet {
        size,
        link_type: Ok(head.link_type),
        moment: Some(record.moment),
        frame: range_of(octets, 16, size),
    })
}
