//! IP datagrams of either version, and the extension headers of version 6.
ghost use Rattle.std.specs.Prelude.{◌≡◌, ◌+◌, ◌≤◌, ◌^◌, ◌<◌};
ghost use Rattle.smq_packets.specs.Datagrams.{behind_4, behind_6, behind_extension, behind_ip, behind_part, end_of, head_of_next, head_of_protocol};

use crate::layer::{Address, Head, Layer, Unread, leads_to, whole};
use crate::octets::{eight, four, two};

/// A part of a datagram (RFC 791, 2.3; RFC 8200, 4.5).
#[derive(Clone, Copy, Debug, PartialEq, Eq)]
pub struct Fragment {
    pub source: Address,
    pub destination: Address,
    /// What the datagram carries, as IP numbers it.
    pub protocol: u8,
    /// What the parts of one datagram have in common, with its two ends and its protocol.
    pub identification: u32,
    /// How many octets of the datagram's content stand before its own.
    pub offset: usize,
    /// Whether others stand behind them.
    pub is_followed: bool,
    /// Where its octets begin in the frame, and where they end there, were all of them captured.
    pub start: usize,
    pub until: usize,
}

/// What a protocol's number names, where it is read (IANA, Protocol Numbers).
pub(crate) fn head_of(protocol: u8) -> Option<Head>
    ensures { result ≡ head_of_protocol protocol }
{
    match protocol {
        6 => Some(Head::Tcp),
        4 | 41 => Some(Head::Ip),
        47 => Some(Head::Gre),
        17 => Some(Head::Udp),
        _ => None,
    }
}

/// What a next header's number names in a datagram of version 6, where it is read.
pub(crate) fn next_head_of(next: u8) -> Option<Head>
    ensures { result ≡ head_of_next next }
{
    match next {
        0 | 43 | 60 | 135 | 139 | 140 => Some(Head::Extension),
        51 => Some(Head::Authentication),
        44 => Some(Head::Part),
        _ => head_of(next),
    }
}

/// What a datagram leads to, by its version.
pub(crate) fn datagram(frame: &[u8], layer: Layer) -> Result<Layer, Unread>
    ensures { result ≡ behind_ip frame.now layer }
{
    whole(frame, layer, 1)?;
    match frame[layer.start] / 16 {
        4 => version_4(frame, layer),
        6 => version_6(frame, layer),
        _ => Err(Unread::OtherProtocol),
    }
}

/// Where a datagram of so many octets ends. 0 is of one that the network card was to cut.
fn end(frame: &[u8], layer: Layer, total: usize) -> usize
    requires { layer.start + total < 2 ^ 64 }
    ensures { result ≡ end_of frame.now layer total }
{
    if total == 0 {
        layer.until.min(frame.len())
    } else {
        layer.start + total
    }
}

/// What a datagram of version 4 leads to.
fn version_4(frame: &[u8], layer: Layer) -> Result<Layer, Unread>
    ensures { result ≡ behind_4 frame.now layer }
{
    whole(frame, layer, 20)?;
    let size = (frame[layer.start] % 16) as usize * 4;
    let until = end(frame, layer, two(frame, layer.start + 2) as usize);
    if size < 20 || layer.until < until {
        return Err(Unread::Malformed);
    }
    let content = Layer {
        until,
        source: Address::V4(four(frame, layer.start + 12)),
        destination: Address::V4(four(frame, layer.start + 16)),
        ..layer
    };
    whole(frame, content, size)?;
    let protocol = frame[layer.start + 9];
    let pieces = two(frame, layer.start + 6);
    if pieces % 0x4000 != 0 {
        return Err(Unread::Fragment(Fragment {
            source: content.source,
            destination: content.destination,
            protocol,
            identification: two(frame, layer.start + 4) as u32,
            offset: (pieces % 0x2000) as usize * 8,
            is_followed: pieces / 0x2000 % 2 == 1,
            start: layer.start + size,
            until,
        }));
    }
    leads_to(content, size, head_of(protocol))
}

/// What a datagram of version 6 leads to.
fn version_6(frame: &[u8], layer: Layer) -> Result<Layer, Unread>
    ensures { result ≡ behind_6 frame.now layer }
{
    whole(frame, layer, 40)?;
    let payload = two(frame, layer.start + 4) as usize;
    let until = end(frame, layer, if payload == 0 { 0 } else { 40 + payload });
    if layer.until < until {
        return Err(Unread::Malformed);
    }
    let content = Layer {
        until,
        source: Address::V6(
            eight(frame, layer.start + 8),
            eight(frame, layer.start + 16),
        ),
        destination: Address::V6(
            eight(frame, layer.start + 24),
            eight(frame, layer.start + 32),
        ),
        ..layer
    };
    leads_to(content, 40, next_head_of(frame[layer.start + 6]))
}

/// What an extension header leads to whose second octet counts units beyond the first so many.
pub(crate) fn extension(
    frame: &[u8],
    layer: Layer,
    first: usize,
    unit: usize,
) -> Result<Layer, Unread>
    requires few { first ≤ 2 }
    requires small { unit ≤ 8 }
    ensures { result ≡ behind_extension first unit frame.now layer }
{
    whole(frame, layer, 8)?;
    let size = (frame[layer.start + 1] as usize + first) * unit;
    whole(frame, layer, size)?;
    leads_to(layer, size, next_head_of(frame[layer.start]))
}

/// What a fragment header leads to, where all of the datagram stands behind it.
pub(crate) fn part(frame: &[u8], layer: Layer) -> Result<Layer, Unread>
    ensures { result ≡ behind_part frame.now layer }
{
    whole(frame, layer, 8)?;
    let next = frame[layer.start];
    let pieces = two(frame, layer.start + 2);
    if pieces / 8 != 0 || pieces % 2 != 0 {
        return Err(Unread::Fragment(Fragment {
            source: layer.source,
            destination: layer.destination,
            protocol: next,
            identification: four(frame, layer.start + 4),
            offset: (pieces / 8) as usize * 8,
            is_followed: pieces % 2 == 1,
            start: layer.start + 8,
            until: layer.until,
        }));
    }
    leads_to(layer, 8, next_head_of(next))
}
