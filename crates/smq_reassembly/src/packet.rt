//! Packets, as they are numbered in a capture.
ghost use Rattle.std.specs.Prelude.{◌≡◌};
ghost use Rattle.smq_reassembly.specs.Moment.{later};

/// A packet: its number in the capture, and its moment, in microseconds since 1970 in UTC.
#[derive(Clone, Copy)]
pub struct Packet {
    pub number: u64,
    pub moment: u64,
}

/// The later of two packets in the capture, its moment raised to that of the first.
pub(crate) fn later_of(last: Packet, packet: Packet) -> Packet
    ensures { result ≡ later last packet }
{
    if packet.number < last.number {
        last
    } else {
        Packet {
            number: packet.number,
            moment: last.moment.max(packet.moment),
        }
    }
}
