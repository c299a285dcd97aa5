//! What numbers and moments of packets tell the directions of a flow, and the sessions that begin in them.
ghost use Rattle.std.specs.Prelude.{◌≡◌, ℕ, ◌<◌, ◌≤◌, length, [], OnOk, OnErr, MatchOption, Some, None, false, true, unwrap_or, if◌then◌else◌};
ghost use Rattle.std.specs.Option.{option_or};
ghost use Rattle.smq_reassembly.specs.Piece.{first_place};
ghost use Rattle.smq_reassembly.specs.Sequence.{IsPlace};
ghost use Rattle.smq_reassembly.specs.declared.sequence.Place.{Place};
ghost use Rattle.smq_streams.specs.Acknowledged.{noted, since};
ghost use Rattle.smq_streams.specs.Direction.{IsLost, acknowledged_since, given_up_at, has_gap, is_open};
ghost use Rattle.smq_streams.specs.Extent.{with_sent};
ghost use Rattle.smq_streams.specs.Fit.{told_at};
ghost use Rattle.smq_streams.specs.Framing.{IsFramed};
ghost use Rattle.smq_capture.specs.Flow.{OtherStays, Stays, direction_of, stream_of, with_direction, with_stream};

use crate::direction::Following;
use crate::flow::Flow;
use crate::side::Side;
use smq_streams::Why;
use std::alloc::AllocError;

impl Flow {
    /// Learns the sequence number of a direction's first octet, where none is known; whether its first PDU has to be looked for.
    pub(crate) fn begin(&mut self, side: Side, first: u32, is_searching: bool)
        ensures stays { Stays self.old self.new }
        ensures begins { (stream_of side self.old).first ≡ None → self.new ≡ with_stream side
            (record (stream_of side self.old) { first = Some first; is_searching = is_searching }) self.old }
        ensures same { (f : ℕ) → (stream_of side self.old).first ≡ Some f → self.new ≡ self.old }
    {
        match side {
            Side::Client => self.client.stream.begin(first, is_searching),
            Side::Centre => self.centre.stream.begin(first, is_searching),
        }
    }

    /// Takes note that octets up to a sequence number were sent.
    pub(crate) fn note_sent(&mut self, side: Side, sequence: u32, is_exact: bool)
        ensures stays { Stays self.old self.new }
        ensures sent { (f : ℕ) (place : Place) → (stream_of side self.old).first ≡ Some f
            → IsPlace f (stream_of side self.old).order.next sequence place → (stream_of side self.new).extent
            ≡ with_sent (told_at (stream_of side self.old).order.next place) is_exact (stream_of side self.old).extent }
        ensures unknown { (stream_of side self.old).first ≡ None → self.new ≡ self.old }
        ensures rest { self.new ≡ with_stream side
            (record (stream_of side self.old) { extent = (stream_of side self.new).extent }) self.old }
    {
        match side {
            Side::Client => self.client.stream.note_sent(sequence, is_exact),
            Side::Centre => self.centre.stream.note_sent(sequence, is_exact),
        }
    }

    /// Takes note that the other end has all octets before a sequence number.
    pub(crate) fn note_acknowledged(
        &mut self,
        side: Side,
        sequence: u32,
        moment: u64,
    ) -> Result<(), AllocError>
        ensures stays { Stays self.old self.new }
        ensures sent { (f : ℕ) (place : Place) → (stream_of side self.old).first ≡ Some f
            → IsPlace f (stream_of side self.old).order.next sequence place → (stream_of side self.new).extent
            ≡ with_sent (told_at (stream_of side self.old).order.next place) false (stream_of side self.old).extent }
        ensures noted { (f : ℕ) (place : Place) → (stream_of side self.old).first ≡ Some f
            → IsPlace f (stream_of side self.old).order.next sequence place
            → 0 < length (stream_of side self.old).order.waiting
            → OnOk result (MatchOption (told_at (stream_of side self.old).order.next place)
            ((stream_of side self.new).notes ≡ (stream_of side self.old).notes)
            (λ p. (n : ℕ) → since (stream_of side self.new).notes n
            ≡ option_or (since (stream_of side self.old).notes n) (noted p moment n))) }
        ensures closed { (stream_of side self.old).order.waiting ≡ []
            → (stream_of side self.new).notes ≡ (stream_of side self.old).notes }
        ensures unknown { (stream_of side self.old).first ≡ None → self.new ≡ self.old }
        ensures err { OnErr result ((stream_of side self.new).notes ≡ (stream_of side self.old).notes) }
        ensures rest { self.new ≡ with_stream side (record (stream_of side self.old) {
          extent = (stream_of side self.new).extent;
          notes = (stream_of side self.new).notes;
        }) self.old }
    {
        match side {
            Side::Client => self.client.stream.note_acknowledged(sequence, moment),
            Side::Centre => self.centre.stream.note_acknowledged(sequence, moment),
        }
    }

    /// When what waits in a direction is given up, if anything does.
    pub(crate) fn deadline(&mut self, side: Side) -> Option<u64>
        ensures stays { Stays self.old self.new }
        ensures value { result ≡ given_up_at (stream_of side self.old).opened (acknowledged_since (stream_of side self.old)) }
        ensures keeps { (least n : ℕ) → first_place (stream_of side self.old).order.waiting ≡ Some least → least ≤ n
            → since (stream_of side self.new).notes n ≡ since (stream_of side self.old).notes n }
        ensures idle { (stream_of side self.old).order.waiting ≡ [] → self.new ≡ self.old }
        ensures rest { self.new ≡ with_stream side
            (record (stream_of side self.old) { notes = (stream_of side self.new).notes }) self.old }
    {
        match side {
            Side::Client => self.client.stream.deadline(),
            Side::Centre => self.centre.stream.deadline(),
        }
    }

    /// Why what waits in a direction won't come any more by a moment, if it won't.
    pub(crate) fn is_lost(&mut self, side: Side, moment: u64) -> Option<Why>
        ensures stays { Stays self.old self.new }
        ensures lost { IsLost (stream_of side self.old).opened (acknowledged_since (stream_of side self.old)) moment result }
        ensures keeps { (least n : ℕ) → first_place (stream_of side self.old).order.waiting ≡ Some least → least ≤ n
            → since (stream_of side self.new).notes n ≡ since (stream_of side self.old).notes n }
        ensures idle { (stream_of side self.old).order.waiting ≡ [] → self.new ≡ self.old }
        ensures rest { self.new ≡ with_stream side
            (record (stream_of side self.old) { notes = (stream_of side self.new).notes }) self.old }
    {
        match side {
            Side::Client => self.client.stream.is_lost(moment),
            Side::Centre => self.centre.stream.is_lost(moment),
        }
    }

    /// Notes since when something waits in a direction.
    pub(crate) fn watch(&mut self, side: Side, moment: u64)
        ensures stays { Stays self.old self.new }
        ensures watches { self.new ≡ with_stream side (record (stream_of side self.old) {
          opened = if is_open (stream_of side self.old) then Some (unwrap_or (stream_of side self.old).opened moment) else None;
          notes = if has_gap (stream_of side self.old) then (stream_of side self.old).notes else [];
        }) self.old }
    {
        match side {
            Side::Client => self.client.stream.watch(moment),
            Side::Centre => self.centre.stream.watch(moment),
        }
    }

    /// Notes that what waits in a direction does so from now on.
    pub(crate) fn watch_anew(&mut self, side: Side, moment: u64)
        ensures stays { Stays self.old self.new }
        ensures watches { self.new ≡ with_stream side (record (stream_of side self.old) {
          opened = if is_open (stream_of side self.old) then Some moment else None;
          notes = if has_gap (stream_of side self.old) then (stream_of side self.old).notes else [];
        }) self.old }
    {
        match side {
            Side::Client => self.client.stream.watch_anew(moment),
            Side::Centre => self.centre.stream.watch_anew(moment),
        }
    }

    /// How many octets of a direction were passed over since it was last asked.
    pub(crate) fn take_passed(&mut self, side: Side) -> u64
        ensures stays { Stays self.old self.new }
        ensures count { result ≡ (stream_of side self.old).held.passed }
        ensures anew { self.new ≡ with_stream side (record (stream_of side self.old) {
          held = record (stream_of side self.old).held { passed = 0 };
        }) self.old }
    {
        match side {
            Side::Client => self.client.stream.take_passed(),
            Side::Centre => self.centre.stream.take_passed(),
        }
    }

    /// Takes nothing more of a direction.
    pub(crate) fn stop(&mut self, side: Side)
        ensures other { OtherStays side self.old self.new }
        ensures stopped { self.new ≡ with_stream side (record (stream_of side self.old) {
          order = record (stream_of side self.old).order { waiting = [] };
          opened = None;
          notes = [];
          is_stopped = true;
        }) self.old }
    {
        match side {
            Side::Client => self.client.stream.stop(),
            Side::Centre => self.centre.stream.stop(),
        }
    }

    /// Begins a session of a direction with the first PDU that begins at a place or behind it.
    pub(crate) fn follow(&mut self, side: Side, session: u64, place: u64)
        ensures stays { Stays self.old self.new }
        ensures follows { self.new ≡ with_direction side (record (direction_of side self.old) {
          following = Some (record { session = session; place = place });
        }) self.old }
    {
        let following = Some(Following { session, place });
        match side {
            Side::Client => self.client.following = following,
            Side::Centre => self.centre.following = following,
        }
    }

    /// Begins a session of a direction with its next octets.
    pub(crate) fn begin_session(&mut self, side: Side, session: u64)
        ensures stays { Stays self.old self.new }
        ensures begins { self.new ≡ with_direction side (record (direction_of side self.old) {
          framer = (direction_of side self.new).framer;
          session = session;
          following = None;
        }) self.old }
        ensures framed { IsFramed [] (direction_of side self.new).framer }
    {
        match side {
            Side::Client => self.client.begin_session(session),
            Side::Centre => self.centre.begin_session(session),
        }
    }
}
