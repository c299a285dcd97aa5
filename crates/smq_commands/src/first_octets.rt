//! Which octets an input begins with.
use std::io;
use std::io::Read;

/// How many octets tell what a file is.
const MARK: usize = 12;

/// What an input is by its first octets.
#[derive(Clone, Copy, Debug, PartialEq, Eq)]
pub(crate) enum Mark {
    /// A packet capture.
    Capture,
    /// What gzip packed.
    Packed,
    /// Anything else.
    Other,
}

/// An input whose first octets are remembered.
#[derive(Drop)]
pub(crate) struct FirstOctets<I> {
    input: I,
    first: [u8; MARK],
    count: usize,
}

impl<I: Read> FirstOctets<I> {
    /// An input of which nothing was read.
    pub(crate) fn new(input: I) -> FirstOctets<I> {
        FirstOctets {
            input,
            first: [0; MARK],
            count: 0,
        }
    }

    /// What it is by what was read of it.
    pub(crate) fn mark(&self) -> Mark {
        match self.first {
            // pcap with micro- and nanoseconds, in both orders of octets
            [0xA1, 0xB2, 0xC3, 0xD4, ..]
            | [0xD4, 0xC3, 0xB2, 0xA1, ..]
            | [0xA1, 0xB2, 0x3C, 0x4D, ..]
            | [0x4D, 0x3C, 0xB2, 0xA1, ..] => Mark::Capture,
            // pcapng
            [0x0A, 0x0D, 0x0D, 0x0A, _, _, _, _, 0x1A, 0x2B, 0x3C, 0x4D]
            | [0x0A, 0x0D, 0x0D, 0x0A, _, _, _, _, 0x4D, 0x3C, 0x2B, 0x1A] => Mark::Capture,
            [0x1F, 0x8B, ..] => Mark::Packed,
            _ => Mark::Other,
        }
    }
}

impl<I: Read> Read for FirstOctets<I> {
    fn read(&mut self, to: &mut [u8]) -> io::Result<usize> {
        let count = self.input.read(to)?;
        if self.count < MARK {
            let free = self.first.iter_mut().skip(self.count);
            for (place, octet) in free.zip(to.iter().take(count)) {
                *place = *octet;
            }
            self.count = self.count.saturating_add(count);
        }
        Ok(count)
    }
}
