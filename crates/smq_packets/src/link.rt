//! The heads of link types, VLAN tags, labels and PPPoE sessions.
ghost use Rattle.std.specs.Prelude.{◌≡◌, ◌+◌, ◌≤◌};
ghost use Rattle.smq_packets.specs.Links.{behind_family, behind_label, behind_session, behind_type, head_of_link, head_of_type, is_family_of_ip};

use crate::layer::{Head, Layer, Unread, leads_to, whole};
use crate::octets::{four, little_four, two};

/// How the frames of an interface begin.
#[derive(Clone, Copy, Debug, PartialEq, Eq)]
pub enum LinkType {
    /// Ethernet.
    Ethernet,
    /// Linux cooked.
    Cooked,
    /// Linux cooked of version 2.
    Cooked2,
    /// BSD loopback.
    Loopback,
    /// IP alone.
    Raw,
}

impl LinkType {
    ghost use Rattle.smq_packets.specs.Links.{link_type_of};

    /// The link type of a number of tcpdump.org, where it is read.
    pub fn of(number: u16) -> Option<LinkType>
        ensures { result ≡ link_type_of number }
    {
        match number {
            1 => Some(LinkType::Ethernet),
            113 => Some(LinkType::Cooked),
            276 => Some(LinkType::Cooked2),
            0 | 108 => Some(LinkType::Loopback),
            12 | 14 | 101 | 228 | 229 => Some(LinkType::Raw),
            _ => None,
        }
    }

    /// The first head of its frames.
    pub(crate) fn head(self) -> Head
        ensures { result ≡ head_of_link self }
    {
        match self {
            LinkType::Ethernet => Head::Ethernet,
            LinkType::Cooked => Head::Cooked,
            LinkType::Cooked2 => Head::Cooked2,
            LinkType::Loopback => Head::Loopback,
            LinkType::Raw => Head::Ip,
        }
    }
}

/// What an EtherType names, where it is read.
pub(crate) fn head_of(ether_type: u16) -> Option<Head>
    ensures { result ≡ head_of_type ether_type }
{
    match ether_type {
        0x0800 | 0x86DD => Some(Head::Ip),
        0x8100 | 0x88A8 | 0x9100 | 0x9200 => Some(Head::Tag),
        0x8847 | 0x8848 => Some(Head::Label),
        0x8864 => Some(Head::Session),
        0x6558 => Some(Head::Ethernet),
        _ => None,
    }
}

/// What the EtherType at a place of a head names.
pub(crate) fn typed(frame: &[u8], layer: Layer, size: usize, at: usize) -> Result<Layer, Unread>
    requires { at + 2 ≤ size }
    ensures { result ≡ behind_type size at frame.now layer }
{
    whole(frame, layer, size)?;
    leads_to(layer, size, head_of(two(frame, layer.start + at)))
}

/// What a BSD loopback head leads to. The family is in the order of the host that captured it.
pub(crate) fn loopback(frame: &[u8], layer: Layer) -> Result<Layer, Unread>
    ensures { result ≡ behind_family frame.now layer }
{
    whole(frame, layer, 4)?;
    let head = if is_family(four(frame, layer.start))
        || is_family(little_four(frame, layer.start))
    {
        Some(Head::Ip)
    } else {
        None
    };
    leads_to(layer, 4, head)
}

/// Whether a number is AF_INET, or AF_INET6 of Linux, NetBSD, FreeBSD and macOS.
fn is_family(number: u32) -> bool
    ensures { result ≡ is_family_of_ip number }
{
    number == 2 || number == 10 || number == 24 || number == 28 || number == 30
}

/// What a label leads to: another, or IP behind the last.
pub(crate) fn label(frame: &[u8], layer: Layer) -> Result<Layer, Unread>
    ensures { result ≡ behind_label frame.now layer }
{
    whole(frame, layer, 4)?;
    let is_last = frame[layer.start + 2] % 2 == 1;
    leads_to(layer, 4, Some(if is_last { Head::Ip } else { Head::Label }))
}

/// What a PPPoE session's head leads to.
pub(crate) fn session(frame: &[u8], layer: Layer) -> Result<Layer, Unread>
    ensures { result ≡ behind_session frame.now layer }
{
    whole(frame, layer, 8)?;
    let until = layer.start + 6 + two(frame, layer.start + 4) as usize;
    let is_session = frame[layer.start] == 0x11 && frame[layer.start + 1] == 0;
    if !is_session || layer.until < until || until < layer.start + 8 {
        return Err(Unread::Malformed);
    }
    let head = match two(frame, layer.start + 6) {
        0x0021 | 0x0057 => Some(Head::Ip),
        _ => None,
    };
    leads_to(Layer { until, ..layer }, 8, head)
}
