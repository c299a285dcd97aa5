//! A file of packets that is being read.
use crate::fault::Fault;
use crate::room::Room;
use smq_packets::{
    Block, FileHead, NoBlock, Section, read_file_head, read_record, read_record_head,
};
use std::alloc::Global;

/// The most octets of what stands before the first packet's head of a pcap file.
pub(crate) const LONGEST_HEAD: usize = 24;

/// What became of a read.
#[derive(Clone, Copy, Debug, PartialEq, Eq)]
pub enum Step {
    /// More may follow.
    GoesOn,
    /// Nothing came within the reader's time (`TimedOut`).
    Waits,
    /// The file ended, or can't be read on.
    Ended,
}

/// A file of packets that is being read.
#[derive(Drop)]
pub struct Reading {
    pub(crate) room: Room,
    pub(crate) format: Option<Format>,
    /// How many octets of a packet that was taken are still to come.
    pub(crate) skipped: u64,
}

impl Reading {
    /// Nothing of it was read yet.
    pub fn new(alloc: Global) -> Reading {
        Reading {
            room: Room::new(alloc),
            format: None,
            skipped: 0,
        }
    }

    /// Learns from its first octets which file it is.
    pub(crate) fn begin(&mut self, alloc: Global) -> Result<(), Fault> {
        let format = match self.room.unused() {
            [0x1F, 0x8B, ..] => return Err(Fault::Packed),
            [0x0A, 0x0D, 0x0D, 0x0A, ..] => Format::Blocks(Section::new(alloc)),
            octets => {
                let head = read_file_head(octets)?;
                self.room.use_up(LONGEST_HEAD);
                Format::Records(head)
            }
        };
        self.format = Some(format);
        Ok(())
    }
}

/// How the packets of a file follow one another.
#[derive(Drop)]
pub(crate) enum Format {
    Records(FileHead),
    Blocks(Section),
}

impl Format {
    /// Whether all octets of the packet at the front were captured, where one is there.
    pub(crate) fn is_whole(&self, octets: &[u8]) -> bool {
        match self {
            Format::Records(head) => match read_record_head(*head, octets) {
                Some(record) => record.captured >= record.length,
                None => true,
            },
            // (the length that was captured, and that of the packet)
            Format::Blocks(_) => octets.get(20..24) == octets.get(24..28),
        }
    }

    /// What stands at the front of octets.
    pub(crate) fn read<'a>(&mut self, octets: &'a [u8]) -> Result<Block<'a>, NoBlock> {
        match self {
            Format::Records(head) => read_record(*head, octets),
            Format::Blocks(section) => section.read_block(octets),
        }
    }
}
