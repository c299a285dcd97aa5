//! Interfaces of a section (draft-ietf-opsawg-pcapng, 4.2).
ghost use Rattle.std.specs.Prelude.{◌≡◌, ◌≤◌, length};
ghost use Rattle.smq_packets.specs.Interfaces.{interface_of, moment_of, units_of};

use crate::block::BlockHead;
use crate::link::LinkType;
use crate::octets::{four_of, range_of, two_of};
use crate::options::{number_in, octet_in};

/// An interface: how its frames begin, if they are read, how many octets of each are captured (0:
/// all), in which parts of a second it counts, where they are told, and from when.
#[derive(Clone, Copy, PartialEq, Eq)]
pub(crate) struct Interface {
    pub link_type: Result<LinkType, u16>,
    pub snap_length: u32,
    pub units: Option<u128>,
    /// In seconds since 1970, in two's complement.
    pub offset: u64,
}

impl Interface {
    /// The moment of so many parts of a second, in ms since 1970, if it is told and not before.
    pub fn moment(self, count: u64) -> Option<u64>
        ensures { result ≡ moment_of self count }
    {
        let units = self.units?;
        if units == 0 {
            return None;
        }
        let since = count as u128 * 1000 / units;
        let moment = if self.offset < 0x8000_0000_0000_0000 {
            since + self.offset as u128 * 1000
        } else {
            since.checked_sub((0x1_0000_0000_0000_0000 - self.offset as u128) * 1000)?
        };
        if moment < 0x1_0000_0000_0000_0000 {
            Some(moment as u64)
        } else {
            None
        }
    }
}

/// How many parts a second has, by an interface's if_tsresol: a power of 10, or of 2.
fn units(resolution: u8) -> Option<u128>
    ensures { result ≡ units_of resolution }
{
    if resolution < 128 {
        10u128.checked_pow(resolution as u32)
    } else {
        2u128.checked_pow((resolution - 128) as u32)
    }
}

/// The interface that a block describes.
pub(crate) fn read_interface(head: BlockHead, octets: &[u8]) -> Interface
    requires least { 20 ≤ head.size }
    requires whole { head.size ≤ length octets.now }
    ensures { result ≡ interface_of head octets.now }
{
    let number = two_of(head.is_big, octets, 8);
    let options = range_of(octets, 16, head.size - 4);
    Interface {
        link_type: LinkType::of(number).ok_or(number),
        snap_length: four_of(head.is_big, octets, 12),
        units: units(octet_in(head.is_big, options, 9).unwrap_or(6)),
        offset: number_in(head.is_big, options, 14).unwrap_or(0),
    }
}
