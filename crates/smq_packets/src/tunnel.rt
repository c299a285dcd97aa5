//! The heads of tunnels over IP: GRE and VXLAN.
ghost use Rattle.std.specs.Prelude.{◌≡◌};
ghost use Rattle.smq_packets.specs.Tunnels.{behind_gre, behind_udp};

use crate::layer::{Head, Layer, Unread, leads_to, whole};
use crate::link::head_of;
use crate::octets::two;

/// UDP's port of VXLAN (RFC 7348, 5).
const VXLAN: u16 = 4789;

/// What GRE leads to. Version 1, and the routing of RFC 1701, aren't read.
pub(crate) fn gre(frame: &[u8], layer: Layer) -> Result<Layer, Unread>
    ensures { result ≡ behind_gre frame.now layer }
{
    whole(frame, layer, 4)?;
    let flags = two(frame, layer.start) as usize;
    if flags % 8 != 0 || flags / 0x0400 % 4 != 0 || flags / 0x4000 % 2 != 0 {
        return Err(Unread::OtherProtocol);
    }
    let words = 1 + flags / 0x8000 + flags / 0x2000 % 2 + flags / 0x1000 % 2;
    whole(frame, layer, words * 4)?;
    leads_to(layer, words * 4, head_of(two(frame, layer.start + 2)))
}

/// What UDP leads to: the Ethernet frame of VXLAN.
pub(crate) fn udp(frame: &[u8], layer: Layer) -> Result<Layer, Unread>
    ensures { result ≡ behind_udp frame.now layer }
{
    whole(frame, layer, 8)?;
    if two(frame, layer.start + 2) != VXLAN {
        return Err(Unread::OtherProtocol);
    }
    whole(frame, layer, 16)?;
    if frame[layer.start + 8] / 8 % 2 == 0 {
        return Err(Unread::Malformed);
    }
    leads_to(layer, 16, Some(Head::Ethernet))
}
