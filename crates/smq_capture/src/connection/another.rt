//! Which segments are of a connection, and which of another one between its ends.
use crate::connection::{Connection, Stray};
use crate::numbers::is_followed;
use crate::strays::{Kept, MOST_SEGMENTS, comes_before, heard};
use smq_packets::{ACK, Segment};
use std::alloc::{AllocError, Global};
use std::collections::VecDeque;

impl Connection {
    /// Whether a SYN is that of the direction of its sender.
    pub(crate) fn has_syn(&self, segment: &Segment) -> bool {
        let sender = self.sender(segment);
        let stream = self.stream(sender);
        let other = self.stream(sender.other());
        match stream.first() {
            Some(first) => segment.sequence.wrapping_add(1) == first,
            None => segment.has(ACK) && other.first() == Some(segment.acknowledged),
        }
    }

    /// Whether a segment is of this connection, by its numbers.
    pub(crate) fn fits(&self, segment: &Segment) -> bool {
        self.flow.of(self.sender(segment)).fits(segment)
    }

    /// Whether a segment shows that another connection has these ends: it acknowledges what stands outside of this one and was seen.
    pub(crate) fn is_another(&self, segment: &Segment) -> bool {
        let Some(stray) = self.stray else {
            return false;
        };
        let sender = self.sender(segment);
        segment.has(ACK)
            && stray.sender != sender
            && !self
                .flow
                .of(stray.sender)
                .fits_acknowledged(segment.acknowledged)
            && is_followed(stray.heard, segment.acknowledged, segment.sequence)
    }

    /// Takes note of a segment that isn't within its window, and keeps its octets where there is room for them.
    pub(crate) fn note_stray(
        &mut self,
        alloc: Global,
        number: u64,
        moment: u64,
        segment: &Segment,
        has_room: bool,
    ) -> Result<(), AllocError> {
        self.stray = Some(Stray {
            sender: self.sender(segment),
            heard: heard(segment),
        });
        if segment.length == 0 {
            return Ok(());
        }
        for _ in 0..MOST_SEGMENTS {
            if !self.strays.is_full(segment.octets.len()) {
                break;
            }
            self.pass_over_oldest();
        }
        if !has_room || self.strays.is_full(segment.octets.len()) {
            self.pass_over(number, segment);
            return Ok(());
        }
        self.strays.put(alloc, number, moment, segment)
    }

    /// Passes over a segment, since it isn't within its window.
    pub(crate) fn pass_over(&mut self, number: u64, segment: &Segment) {
        let sender = self.sender(segment);
        self.signs.of_mut(sender).outside.add(number);
    }

    /// Passes over the oldest segment that is kept.
    pub(crate) fn pass_over_oldest(&mut self) {
        if let Some(kept) = self.strays.pop() {
            self.pass_over(kept.number, &kept.segment());
        }
    }

    /// How much memory the segments that are kept take, at most.
    pub(crate) fn strays_weight(&self) -> u64 {
        self.strays.weight()
    }

    /// The segments that are kept and came before one of another connection between its ends; the others are passed over.
    pub(crate) fn take_strays(
        &mut self,
        alloc: Global,
        segment: &Segment,
    ) -> Result<VecDeque<Kept>, AllocError> {
        let mut found = VecDeque::new(alloc);
        for _ in 0..MOST_SEGMENTS {
            let Some(kept) = self.strays.pop() else {
                break;
            };
            if comes_before(&kept.segment(), segment) {
                found.push_back(kept)?;
            } else {
                self.pass_over(kept.number, &kept.segment());
            }
        }
        Ok(found)
    }
}
