//! Layers of a frame: the heads that stand one behind the other, each with what it leads to.
ghost use Rattle.std.specs.Prelude.{◌≡◌, ◌+◌, ◌≤◌, ◌^◌, ◌<◌, IfOk, length};
ghost use Rattle.smq_packets.specs.Layers.{whole_at, led_to};

use crate::datagram::Fragment;

/// An IP address.
#[derive(Clone, Copy, Debug, PartialEq, Eq, PartialOrd, Ord, Hash)]
pub enum Address {
    /// Of version 4.
    V4(u32),
    /// Of version 6: its upper and its lower half.
    V6(u64, u64),
}

impl Address {
    ghost use Rattle.std.specs.Prelude.{◌≡◌};
    ghost use Rattle.smq_packets.specs.Addresses.{is_same_address};

    /// Whether it is another.
    pub(crate) fn is(self, other: Address) -> bool
        ensures { result ≡ is_same_address self other }
    {
        match (self, other) {
            (Address::V4(a), Address::V4(b)) => a == b,
            (Address::V6(a, b), Address::V6(c, d)) => a == c && b == d,
            _ => false,
        }
    }
}

/// Why a frame gives no segment.
#[derive(Clone, Copy, Debug, PartialEq, Eq)]
pub enum Unread {
    /// It carries something else.
    OtherProtocol,
    /// What was captured of it ends within a head.
    CutOff,
    /// A head says less than its least length, or more than what it stands in.
    Malformed,
    /// More than `MOST_HEADS` heads stand before it.
    TooDeep,
    /// It carries a part of a datagram.
    Fragment(Fragment),
}

/// What stands at the front of a layer.
#[derive(Clone, Copy, Debug, PartialEq, Eq)]
pub(crate) enum Head {
    /// Two addresses of 6 octets, and an EtherType (IEEE 802.3, 3.2).
    Ethernet,
    /// Linux cooked: an EtherType at 14 of 16 octets (LINKTYPE_LINUX_SLL).
    Cooked,
    /// Linux cooked of version 2: an EtherType at 0 of 20 octets (LINKTYPE_LINUX_SLL2).
    Cooked2,
    /// BSD loopback: a family of addresses (LINKTYPE_NULL, LINKTYPE_LOOP).
    Loopback,
    /// A VLAN's tag: two octets, and an EtherType (IEEE 802.1Q, 9.6).
    Tag,
    /// An entry of a stack of labels (RFC 3032, 2.1).
    Label,
    /// A PPPoE session (RFC 2516, 4 and 6).
    Session,
    /// IP of either version (RFC 791, 3.1; RFC 8200, 3).
    Ip,
    /// An extension header whose second octet counts 8 octets (RFC 8200, 4).
    Extension,
    /// An authentication header (RFC 4302, 2).
    Authentication,
    /// A fragment header (RFC 8200, 4.5).
    Part,
    /// Generic routing encapsulation (RFC 2784, 2; RFC 2890, 2).
    Gre,
    /// UDP, of which VXLAN is read (RFC 768; RFC 7348, 5).
    Udp,
    /// TCP (RFC 9293, 3.1).
    Tcp,
}

/// A head in a frame, and the datagram around it.
#[derive(Clone, Copy)]
pub(crate) struct Layer {
    /// What stands there.
    pub head: Head,
    /// Where, in octets from the frame's first.
    pub start: usize,
    /// Where it ends, as the lengths around it say.
    pub until: usize,
    /// Of the innermost datagram around it.
    pub source: Address,
    pub destination: Address,
}

/// Whether so many octets from a layer's start stand in it, and were captured.
pub(crate) fn whole(frame: &[u8], layer: Layer, size: usize) -> Result<(), Unread>
    ensures value { result ≡ whole_at frame.now layer size }
    ensures there { IfOk result (λ _. (layer.start + size ≤ layer.until)
        × (layer.start + size ≤ length frame.now)) }
{
    if layer.until < size || layer.until - size < layer.start {
        return Err(Unread::Malformed);
    }
    if frame.len() < size || frame.len() - size < layer.start {
        return Err(Unread::CutOff);
    }
    Ok(())
}

/// The layer behind a head of so many octets, where its kind is read.
pub(crate) fn leads_to(layer: Layer, size: usize, head: Option<Head>) -> Result<Layer, Unread>
    requires { layer.start + size < 2 ^ 64 }
    ensures { result ≡ led_to layer size head }
{
    match head {
        None => Err(Unread::OtherProtocol),
        Some(head) => Ok(Layer {
            head,
            start: layer.start + size,
            ..layer
        }),
    }
}
