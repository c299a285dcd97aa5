//! Segments outside of a connection's window, which may be the first octets of another one between its ends.
//!
//! A host doesn't acknowledge what is outside of its window (RFC 9293, 3.10.7.4). So what is acknowledged is another connection's, and its
//! octets are kept until that is seen.
use crate::numbers::{Heard, behind, is_followed};
use smq_packets::{End, Segment};
use std::alloc::{AllocError, Global};
use std::collections::VecDeque;

/// So many octets of a connection are kept at most, of so many segments: as many as an end sends before the first is acknowledged
/// (RFC 6928, 2), also in frames of 9,000 octets.
const MOST_OCTETS: usize = 32_768;

pub(crate) const MOST_SEGMENTS: usize = 16;

/// What a segment that is kept takes besides its octets.
const KEPT: u64 = 160;

/// A segment that is kept, of a packet.
#[derive(Drop)]
pub(crate) struct Kept {
    pub(crate) number: u64,
    pub(crate) moment: u64,
    source: End,
    destination: End,
    flags: u8,
    sequence: u32,
    acknowledged: u32,
    octets: Vec<u8>,
    length: usize,
}

impl Kept {
    /// The segment.
    pub(crate) fn segment(&self) -> Segment<'_> {
        Segment {
            source: self.source,
            destination: self.destination,
            flags: self.flags,
            sequence: self.sequence,
            acknowledged: self.acknowledged,
            octets: self.octets.as_slice(),
            length: self.length,
        }
    }
}

/// The segments that are kept of a connection.
#[derive(Drop)]
pub(crate) struct Strays {
    kept: VecDeque<Kept>,
    octets: usize,
}

impl Strays {
    /// None.
    pub(crate) fn new(alloc: Global) -> Strays {
        Strays {
            kept: VecDeque::new(alloc),
            octets: 0,
        }
    }

    /// How much memory they take, at most.
    pub(crate) fn weight(&self) -> u64 {
        (self.kept.len() as u64)
            .saturating_mul(KEPT)
            .saturating_add(self.octets as u64)
    }

    /// Whether so many octets more are too many.
    pub(crate) fn is_full(&self, length: usize) -> bool {
        self.kept.len() >= MOST_SEGMENTS || self.octets.saturating_add(length) > MOST_OCTETS
    }

    /// Keeps the segment of a packet.
    pub(crate) fn put(
        &mut self,
        alloc: Global,
        number: u64,
        moment: u64,
        segment: &Segment,
    ) -> Result<(), AllocError> {
        let octets = Vec::from_slice(alloc, segment.octets)?;
        let length = octets.len();
        self.kept.push_back(Kept {
            number,
            moment,
            source: segment.source,
            destination: segment.destination,
            flags: segment.flags,
            sequence: segment.sequence,
            acknowledged: segment.acknowledged,
            octets,
            length: segment.length,
        })?;
        self.octets = self.octets.saturating_add(length);
        Ok(())
    }

    /// Takes the oldest.
    pub(crate) fn pop(&mut self) -> Option<Kept> {
        let kept = self.kept.pop_front()?;
        self.octets = self.octets.saturating_sub(kept.octets.len());
        Some(kept)
    }
}

/// What a segment tells of both directions.
pub(crate) fn heard(segment: &Segment) -> Heard {
    Heard {
        behind: behind(segment.sequence, segment.length),
        acknowledged: segment.acknowledged,
    }
}

/// Whether a segment came before another one of its connection, by their numbers.
pub(crate) fn comes_before(first: &Segment, later: &Segment) -> bool {
    if first.source == later.source {
        is_followed(heard(first), later.sequence, later.acknowledged)
    } else {
        is_followed(heard(first), later.acknowledged, later.sequence)
    }
}
