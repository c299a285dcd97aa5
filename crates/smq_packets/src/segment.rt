//! The TCP segment of a frame.
ghost use Rattle.std.specs.Prelude.{◌≡◌, ◌==◌, bit_and, not, IfOk, IfErr, Ok, Err};
ghost use Rattle.smq_packets.specs.Segments.{behind_of, carried_by, is_tcp, segment_of, tcp_of, value_of};

use crate::datagram::{datagram, extension, part};
use crate::layer::{Address, Head, Layer, Unread, whole};
use crate::link::{LinkType, label, loopback, session, typed};
use crate::octets::{four, range_of, two};
use crate::tunnel::{gre, udp};

/// The most heads of a frame, its first and that of TCP among them.
pub const MOST_HEADS: usize = 32;

/// An end of a connection.
#[derive(Clone, Copy, Debug, PartialEq, Eq, PartialOrd, Ord, Hash)]
pub struct End {
    pub address: Address,
    pub port: u16,
}

/// A TCP segment (RFC 9293, 3.1).
#[derive(Clone, Copy)]
pub struct Segment<'a> {
    pub source: End,
    pub destination: End,
    pub flags: u8,
    /// The number of the SYN, or of the first octet.
    pub sequence: u32,
    pub acknowledged: u32,
    /// What was captured of its own octets; none of a reset.
    pub octets: &'a [u8],
    /// How many octets it had; 0 of a reset.
    pub length: usize,
}

pub const FIN: u8 = 1;

pub const SYN: u8 = 2;

pub const RST: u8 = 4;

pub const ACK: u8 = 16;

impl Segment<'_> {
    /// Whether it has a flag.
    pub fn has(&self, flag: u8) -> bool
        ensures { result ≡ not (bit_and self.now.flags flag == 0) }
    {
        self.flags & flag != 0
    }
}

/// The TCP segment of a frame, behind all heads that are read.
pub fn read_segment(link_type: LinkType, frame: &[u8]) -> Result<Segment<'_>, Unread>
    ensures ok { IfOk result (λ s. segment_of link_type frame.now ≡ Ok (value_of s)) }
    ensures err { IfErr result (λ why. segment_of link_type frame.now ≡ Err why) }
{
    last_segment(
        frame,
        Layer {
            head: link_type.head(),
            start: 0,
            until: usize::MAX,
            source: Address::V4(0),
            destination: Address::V4(0),
        },
    )
}

/// The TCP segment behind a head.
#[tactic(auto, using(crate::proofs::Carried::carried_rules))]
pub(crate) fn last_segment(frame: &[u8], first: Layer) -> Result<Segment<'_>, Unread>
    ensures ok { IfOk result (λ s. carried_by MOST_HEADS frame.now first ≡ Ok (value_of s)) }
    ensures err { IfErr result (λ why. carried_by MOST_HEADS frame.now first ≡ Err why) }
{
    let mut layer = first;
    for passed in 0..MOST_HEADS {
        if is_last(layer.head) {
            return tcp(frame, layer);
        }
        layer = behind(frame, layer)?;
    }
    Err(Unread::TooDeep)
}

/// Whether a head is TCP's.
fn is_last(head: Head) -> bool
    ensures { result ≡ is_tcp head }
{
    matches!(head, Head::Tcp)
}

/// The layer behind a head.
#[tactic(auto, unfolding(crate::specs::Segments::behind_of))]
fn behind(frame: &[u8], layer: Layer) -> Result<Layer, Unread>
    ensures { result ≡ behind_of frame.now layer }
{
    match layer.head {
        Head::Ethernet => typed(frame, layer, 14, 12),
        Head::Cooked => typed(frame, layer, 16, 14),
        Head::Cooked2 => typed(frame, layer, 20, 0),
        Head::Tag => typed(frame, layer, 4, 2),
        Head::Loopback => loopback(frame, layer),
        Head::Label => label(frame, layer),
        Head::Session => session(frame, layer),
        Head::Ip => datagram(frame, layer),
        Head::Extension => extension(frame, layer, 1, 8),
        Head::Authentication => extension(frame, layer, 2, 4),
        Head::Part => part(frame, layer),
        Head::Gre => gre(frame, layer),
        Head::Udp => udp(frame, layer),
        Head::Tcp => Err(Unread::OtherProtocol),
    }
}

/// The segment whose head stands in a layer.
fn tcp(frame: &[u8], layer: Layer) -> Result<Segment<'_>, Unread>
    ensures ok { IfOk result (λ s. tcp_of frame.now layer ≡ Ok (value_of s)) }
    ensures err { IfErr result (λ why. tcp_of frame.now layer ≡ Err why) }
{
    whole(frame, layer, 14)?;
    let start = layer.start + (frame[layer.start + 12] / 16) as usize * 4;
    if start < layer.start + 20 || layer.until < start {
        return Err(Unread::Malformed);
    }
    let flags = frame[layer.start + 13];
    // (what comes with a reset is none of the stream)
    let until = if flags & RST != 0 { start } else { layer.until };
    Ok(Segment {
        source: End {
            address: layer.source,
            port: two(frame, layer.start),
        },
        destination: End {
            address: layer.destination,
            port: two(frame, layer.start + 2),
        },
        flags,
        sequence: four(frame, layer.start + 4),
        acknowledged: four(frame, layer.start + 8),
        octets: range_of(frame, start, until),
        length: until - start,
    })
}
