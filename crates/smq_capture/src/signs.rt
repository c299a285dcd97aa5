//! What numbers and flags of segments show of a direction beside its octets.
ghost use Rattle.std.specs.Prelude.{◌≡◌, ◌<◌, ◌≤◌, ◌*◌, ◌-◌, ◌^◌, ℕ, List, IfSome, IsSome, IsTrue, IsOk, OnOk, OnErr, [], ◌∷◌, length, max, min, Some, None, false, unwrap_or};
ghost use Rattle.std.specs.Option.{option_or};
ghost use Rattle.smq_capture.specs.GoingOn.{signs_of};
ghost use Rattle.smq_capture.specs.Tops.{Brought, IsWatched, noted_before, top_before, top_of, with_note};

use crate::ending::{fin_with, is_ended, is_reset};
use crate::notice::Noted;
use crate::probe::{Probe, may_be_probe};
use crate::side::Side;
use crate::tops::Tops;
use smq_streams::Stream;
use std::alloc::{AllocError, Global};

/// A gap that was given up, behind which no PDU was seen to begin yet.
#[derive(Clone, Copy)]
pub(crate) struct Sought {
    pub session: u64,
}

/// What is known of a direction beside its octets.
#[derive(Drop)]
pub(crate) struct Signs {
    /// Whether a SYN, or the answer to one, told the first octet.
    pub has_syn: bool,
    /// While the other direction waits: what packets of this one brought.
    tops: Tops,
    pub sought: Option<Sought>,
    /// The place of a FIN.
    fin: Option<u64>,
    /// The place behind the last octet that the other end acknowledged.
    acknowledged: u64,
    probe: Option<Probe>,
    pub outside: Noted,
    pub cut: Noted,
}

impl Signs {
    /// Nothing is known.
    pub(crate) fn new(alloc: Global) -> Signs
        ensures { result ≡ (record {
          has_syn = false;
          tops = [];
          sought = None;
          fin = None;
          acknowledged = 0;
          probe = None;
          outside = record { count = 0; first = 0 };
          cut = record { count = 0; first = 0 };
        }) }
    {
        Signs {
            has_syn: false,
            tops: Tops::new(alloc),
            sought: None,
            fin: None,
            acknowledged: 0,
            probe: None,
            outside: Noted::none(),
            cut: Noted::none(),
        }
    }

    /// Takes note that the other end has all octets before a place, if there is one.
    pub(crate) fn note_acknowledged(&mut self, place: Option<u64>)
        ensures { self.new ≡ record self.old { acknowledged = max self.old.acknowledged (unwrap_or place 0) } }
    {
        self.acknowledged = self.acknowledged.max(place.unwrap_or(0));
    }

    /// Sets a segment aside that may be a probe which keeps the connection alive: it has one octet, which the other end acknowledged
    /// before, and octets between it and all captured ones are missing. The octet of a probe is garbage (RFC 9293, 3.8.4).
    pub(crate) fn sets_aside(&mut self, stream: &Stream, sequence: u32, octets: &[u8]) -> bool
        ensures aside { IsTrue result → IsSome self.new.probe }
        ensures octet { IsTrue result → IfSome self.new.probe (λ p. (octets.now ≡ p.octet ∷ []) × (p.sequence ≡ sequence)
            × (p.place < self.old.acknowledged)) }
        ensures same { result ≡ false → self.new ≡ self.old }
    {
        let [octet] = octets else {
            return false;
        };
        let Some(place) = stream.place(sequence) else {
            return false;
        };
        let is_probe = may_be_probe(place, stream.top(), self.acknowledged);
        if is_probe {
            self.probe = Some(Probe {
                place,
                sequence,
                octet: *octet,
            });
        }
        is_probe
    }

    /// The segment that was set aside, once its octet is the next; none where another segment had the octet.
    pub(crate) fn take_aside(&mut self, next: u64) -> Option<Probe>
        ensures due { IfSome result (λ p. (self.old.probe ≡ Some p) × (p.place ≡ next) × (self.new.probe ≡ None)) }
        ensures early { (p : Probe) → self.old.probe ≡ Some p → next < p.place → self.new ≡ self.old }
    {
        let probe = self.probe?;
        if next < probe.place {
            return None;
        }
        self.probe = None;
        if next == probe.place {
            Some(probe)
        } else {
            None
        }
    }

    /// Takes note of a FIN at a place.
    pub(crate) fn note_fin(&mut self, place: Option<u64>)
        ensures { self.new ≡ record self.old { fin = option_or self.old.fin place } }
    {
        self.fin = fin_with(self.fin, place);
    }

    /// Whether all octets of the stream up to a FIN came.
    pub(crate) fn is_finished(&self, stream: &Stream) -> bool
        ensures { IsTrue result → (self.now.fin ≡ Some stream.now.order.next) × (stream.now.order.waiting ≡ []) }
    {
        is_ended(self.fin, stream.next(), stream.has_gap())
    }

    /// Takes note of what a packet brought while the other direction waits, or forgets that.
    pub(crate) fn note_top(
        &mut self,
        number: u64,
        before: u64,
        top: u64,
        waits: bool,
    ) -> Result<(), AllocError>
        ensures notes { IsTrue waits
            → OnOk result (self.new ≡ record self.old { tops = with_note number before top self.old.tops }) }
        ensures forgets { waits ≡ false → IsOk result × (self.new ≡ record self.old { tops = [] }) }
        ensures err { OnErr result (self.new ≡ self.old) }
    {
        if !waits {
            self.tops.clear();
            return Ok(());
        }
        self.tops.note(number, before, top)
    }

    /// The place behind all octets that packets before one have, where all have those up to the top; it isn't before the other direction
    /// waits.
    pub(crate) fn top_before(&self, number: u64, top: u64) -> u64
        ensures value { result ≡ noted_before number top self.now.tops }
        ensures tells { (from : ℕ) (packets : List Brought) → IsWatched from packets self.now.tops → top ≡ top_of packets
            → from ≤ number → result ≡ top_before number packets }
        ensures early { (from : ℕ) (packets : List Brought) → IsWatched from packets self.now.tops → top ≡ top_of packets
            → number ≤ from → (top_before number packets ≤ result) × (result ≤ top_before from packets) }
    {
        self.tops.before(number, top)
    }

    /// How much memory it takes, at most.
    pub(crate) fn weight(&self) -> u64
        ensures { result ≡ min (16 * length self.now.tops) (2 ^ 64 - 1) }
    {
        self.tops.weight()
    }
}

/// Whether a reset with this number ends the connection, by the stream of its sender.
pub(crate) fn is_reset_by(stream: &Stream, sequence: u32) -> bool {
    is_reset(stream.place(sequence), stream.next())
}

/// What is known of both directions, by the end that sends.
#[derive(Drop)]
pub(crate) struct Both {
    pub client: Signs,
    pub centre: Signs,
}

impl Both {
    /// Of the direction of an end.
    pub(crate) fn of(&self, side: Side) -> &Signs
        ensures { result.now ≡ signs_of side self.now }
    {
        match side {
            Side::Client => &self.client,
            Side::Centre => &self.centre,
        }
    }

    /// Of the direction of an end, to be changed.
    pub(crate) fn of_mut(&mut self, side: Side) -> &mut Signs {
        match side {
            Side::Client => &mut self.client,
            Side::Centre => &mut self.centre,
        }
    }
}
