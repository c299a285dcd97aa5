//! Numbers among octets, the first of which counts most, or least.
ghost use Rattle.std.specs.Prelude.{◌≡◌, ◌+◌, ◌≤◌, length};
ghost use Rattle.smq_packets.specs.Numbers.{between, low_number, number, ordered_number};

use byteorder::{BigEndian, ByteOrder, LittleEndian};

/// The number of two octets at a place.
pub(crate) fn two(octets: &[u8], at: usize) -> u16
    requires { at + 2 ≤ length octets.now }
    ensures { result ≡ number 2 at octets.now }
{
    BigEndian::read_u16(&octets[at..])
}

/// The number of four octets at a place.
pub(crate) fn four(octets: &[u8], at: usize) -> u32
    requires { at + 4 ≤ length octets.now }
    ensures { result ≡ number 4 at octets.now }
{
    BigEndian::read_u32(&octets[at..])
}

/// The number of eight octets at a place.
pub(crate) fn eight(octets: &[u8], at: usize) -> u64
    requires { at + 8 ≤ length octets.now }
    ensures { result ≡ number 8 at octets.now }
{
    BigEndian::read_u64(&octets[at..])
}

/// The number of four octets at a place, the first of which counts least.
pub(crate) fn little_four(octets: &[u8], at: usize) -> u32
    requires { at + 4 ≤ length octets.now }
    ensures { result ≡ low_number 4 at octets.now }
{
    LittleEndian::read_u32(&octets[at..])
}

/// The number of two octets at a place, in either order.
pub(crate) fn two_of(is_big: bool, octets: &[u8], at: usize) -> u16
    requires { at + 2 ≤ length octets.now }
    ensures { result ≡ ordered_number is_big 2 at octets.now }
{
    if is_big {
        two(octets, at)
    } else {
        LittleEndian::read_u16(&octets[at..])
    }
}

/// The number of four octets at a place, in either order.
pub(crate) fn four_of(is_big: bool, octets: &[u8], at: usize) -> u32
    requires { at + 4 ≤ length octets.now }
    ensures { result ≡ ordered_number is_big 4 at octets.now }
{
    if is_big {
        four(octets, at)
    } else {
        little_four(octets, at)
    }
}

/// The number of eight octets at a place, in either order.
pub(crate) fn eight_of(is_big: bool, octets: &[u8], at: usize) -> u64
    requires { at + 8 ≤ length octets.now }
    ensures { result ≡ ordered_number is_big 8 at octets.now }
{
    if is_big {
        eight(octets, at)
    } else {
        LittleEndian::read_u64(&octets[at..])
    }
}

/// The octets from one place to another, as far as there are such.
pub(crate) fn range_of(octets: &[u8], from: usize, until: usize) -> &[u8]
    ensures { result.now ≡ between from until octets.now }
{
    let end = if until < octets.len() {
        until
    } else {
        octets.len()
    };
    if from < end {
        &octets[from..end]
    } else {
        &octets[..0]
    }
}
