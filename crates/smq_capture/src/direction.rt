//! One direction of a connection, and its sessions.
ghost use Rattle.std.specs.Prelude.{◌≡◌, ◌==◌, ◌+◌, ◌^◌, ◌<◌, ◌≤◌, ℕ, List, [], length, IfSome, if◌then◌else◌, max, min, true, false, None};
ghost use Rattle.smq_streams.specs.Framing.{IsFramed};
ghost use Rattle.smq_capture.specs.Flow.{Tells, nothing};
ghost use Rattle.smq_capture.specs.Sessions.{BeginsAt, Deals, Goes};

use crate::notice::Noted;
use crate::waiting::shorter;
use smq_packets::Segment;
use smq_streams::{Fit, Framer, Stream};
use std::alloc::Global;

/// A session that begins with the first PDU that begins at a place or behind it.
#[derive(Clone, Copy)]
pub(crate) struct Following {
    pub session: u64,
    pub place: u64,
}

/// One direction of a connection: its stream, and what is known of the octets that became rows.
#[derive(Drop)]
pub(crate) struct Direction {
    pub stream: Stream,
    /// Where the PDUs of what was settled end; its session, and the one that follows.
    pub framer: Framer,
    pub session: u64,
    pub following: Option<Following>,
    /// The last row's moment, and the packets whose moments were before that of the row before.
    pub moment: u64,
    pub raised: Noted,
}

/// A place of a row where sessions change: so many octets are of a session, the others of another.
#[derive(Clone, Copy)]
pub(crate) struct Settled {
    pub before: u64,
    pub place: usize,
    pub after: u64,
}

impl Direction {
    /// A direction of a session, of which nothing is known.
    pub(crate) fn new(alloc: Global, session: u64) -> Direction
        ensures tells { Tells nothing result.stream }
        ensures moment { result.moment ≡ 0 }
    {
        Direction {
            stream: Stream::new(alloc),
            framer: Framer::new(),
            session,
            following: None,
            moment: 0,
            raised: Noted::none(),
        }
    }

    /// Whether a segment is of this direction, by its sequence number.
    pub(crate) fn fits(&self, segment: &Segment) -> bool {
        self.stream.fit(segment.sequence, segment.length as u64) == Fit::Within
    }

    /// Whether the other end may acknowledge a number of this direction.
    pub(crate) fn fits_acknowledged(&self, acknowledged: u32) -> bool {
        self.stream.fit(acknowledged, 0) == Fit::Within
    }

    /// The moment of what follows: its own, or that of the last row where that is later.
    pub(crate) fn raise_moment(&mut self, moment: u64) -> u64
        ensures value { result ≡ max self.old.moment moment }
        ensures kept { self.new ≡ record self.old { moment = max self.old.moment moment } }
    {
        self.moment = self.moment.max(moment);
        self.moment
    }

    /// Takes note of a packet whose moment is before the last row's, if it is.
    pub(crate) fn note_early(&mut self, number: u64, is_early: bool)
        ensures same { self.new ≡ record self.old { raised = self.new.raised } }
        ensures early { is_early ≡ true → self.new.raised.first
            ≡ (if self.old.raised.count == 0 then number else min self.old.raised.first number) }
        ensures count { is_early ≡ true → self.old.raised.count + 1 < 2 ^ 64
            → self.new.raised.count ≡ self.old.raised.count + 1 }
        ensures none { is_early ≡ false → self.new ≡ self.old }
    {
        if is_early {
            self.raised.add(number);
        }
    }

    /// Tells octets at a place, which follow those settled before, their sessions: all are of one, or the last ones of the next.
    pub(crate) fn settle(&mut self, place: u64, octets: &[u8]) -> Settled
        ensures place { result.place ≤ length octets.now }
        ensures before { result.before ≡ self.old.session }
        ensures after { result.after ≡ self.new.session }
        ensures goes { Goes self.old self.new }
        ensures deals { Deals self.old self.new place octets.now result.place }
    {
        let before = self.session;
        let Some(following) = self.following else {
            self.framer.feed(octets);
            return Settled {
                before,
                place: octets.len(),
                after: before,
            };
        };
        let skipped = shorter(following.place.saturating_sub(place), octets.len());
        let Some(begin) = find_begin(&mut self.framer, octets, skipped) else {
            return Settled {
                before,
                place: octets.len(),
                after: before,
            };
        };
        self.session = following.session;
        self.following = None;
        Settled {
            before,
            place: begin,
            after: following.session,
        }
    }

    /// Begins a session with the next octets.
    pub(crate) fn begin_session(&mut self, session: u64)
        ensures same { self.new ≡ record self.old {
          framer = self.new.framer;
          session = session;
          following = None;
        } }
        ensures framed { IsFramed [] self.new.framer }
    {
        self.session = session;
        self.following = None;
        self.framer = Framer::new();
    }
}

/// Where a PDU begins in octets behind so many of them, if one does. The framer is at their end, then; those from that PDU on it frames
/// anew.
fn find_begin(framer: &mut Framer, octets: &[u8], skipped: usize) -> Option<usize>
    requires { skipped ≤ length octets.now }
    ensures within { IfSome result (λ place. place ≤ length octets.now) }
    ensures begins { (settled : List ℕ) → IsFramed settled framer.old
        → BeginsAt settled octets.now skipped framer.new result }
{
    let (front, back) = octets.split_at(skipped);
    framer.feed(front);
    if let Some(behind) = framer.next_pdu(back) {
        if let Some((_, rest)) = back.split_at_checked(behind) {
            *framer = Framer::new();
            framer.feed(rest);
            return Some(skipped + behind);
        }
    }
    framer.feed(back);
    None
}
