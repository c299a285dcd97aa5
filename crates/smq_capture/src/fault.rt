//! Why a capture isn't read to its end.
use smq_packets::HeadFault;
use std::alloc::AllocError;
use std::{fmt, io};

/// Why a capture isn't read to its end.
#[derive(Debug, Drop)]
pub enum Fault {
    /// It is no pcap or pcapng file.
    NoCapture,
    /// It is packed by gzip.
    Packed,
    /// Packets of this link type aren't read.
    LinkType(u16),
    /// The moment of a packet is before 1970.
    Early(u64),
    /// The moment of a packet is past 2099, and no other was there before.
    Late(u64),
    /// A read failed.
    Read(io::Error),
    /// A write failed.
    Write(io::Error),
    /// Memory ran out.
    Memory,
}

impl fmt::Display for Fault {
    fn fmt<W: fmt::Write>(&self, f: &mut fmt::Formatter<W>) -> fmt::Result {
        match self {
            Fault::NoCapture => write!(f, "it is no pcap or pcapng file"),
            Fault::Packed => write!(
                f,
                "it is packed by gzip: `zcat FILE | smq capture .. -` reads it"
            ),
            Fault::LinkType(number) => write!(f, "packets of link type {number} aren't read"),
            Fault::Early(number) => {
                write!(f, "the moment of packet {number} is before the year 1970")
            }
            Fault::Late(number) => {
                write!(f, "the moment of packet {number} is past the year 2099")
            }
            Fault::Read(error) => write!(f, "a read failed: {error}"),
            Fault::Write(error) => write!(f, "a write failed: {error}"),
            Fault::Memory => write!(f, "memory ran out"),
        }
    }
}

impl From<AllocError> for Fault {
    fn from(_error: AllocError) -> Fault {
        Fault::Memory
    }
}

impl From<HeadFault> for Fault {
    fn from(fault: HeadFault) -> Fault {
        match fault {
            HeadFault::NoCapture => Fault::NoCapture,
            HeadFault::LinkType(number) => Fault::LinkType(number),
        }
    }
}
