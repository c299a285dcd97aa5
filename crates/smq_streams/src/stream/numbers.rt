//! What the numbers of segments tell of a direction (RFC 9293, 3.4).
ghost use Rattle.std.specs.Prelude.{◌≡◌, ℕ, ◌<◌, [], length, false, OnOk, OnErr, MatchOption, Some, None};
ghost use Rattle.std.specs.Option.{option_or};
ghost use Rattle.smq_reassembly.specs.Sequence.{IsPlace};
ghost use Rattle.smq_streams.specs.Fit.{fit_at, octet_at, told_at};
ghost use Rattle.smq_streams.specs.Acknowledged.{noted, since};
ghost use Rattle.smq_streams.specs.Extent.{sent_until, with_sent};
ghost use Rattle.smq_streams.specs.declared.fit.Fit.TheVariants as fit;

use crate::fit::{Fit, fit_by, octet_by};
use crate::stream::Stream;
use smq_reassembly::{Place, WINDOW};
use std::alloc::AllocError;

impl Stream {
    /// The place behind the last octet that was sent, as far as was seen: one number alone behind those of segments is taken for a FIN's
    /// (RFC 9293, 3.4).
    pub fn end(&self) -> u64
        ensures { result ≡ sent_until self.now.extent }
    {
        self.extent.sent()
    }

    /// The place behind the last octet that was captured.
    pub fn top(&self) -> u64
        ensures { result ≡ self.now.extent.top }
    {
        self.extent.top
    }

    /// Where an octet with a sequence number stands: the nearest place to what was given. None before the first octet.
    pub fn place(&self, sequence: u32) -> Option<u64>
        ensures found { (f : ℕ) (place : Place) → self.now.first ≡ Some f → IsPlace f self.now.order.next sequence place
            → result ≡ octet_at self.now.order.next place }
        ensures none { self.now.first ≡ None → result ≡ None }
    {
        octet_by(self.first?, self.order.next(), sequence)
    }

    /// The same, where it isn't more than a window ahead of what was given.
    fn told(&self, sequence: u32) -> Option<u64>
        ensures found { (f : ℕ) (place : Place) → self.now.first ≡ Some f → IsPlace f self.now.order.next sequence place
            → result ≡ told_at self.now.order.next place }
        ensures none { self.now.first ≡ None → result ≡ None }
    {
        let place = self.place(sequence)?;
        if place.saturating_sub(self.order.next()) > WINDOW {
            return None;
        }
        Some(place)
    }

    /// Where a segment of so many octets stands. One octet before the first is a probe that keeps the connection alive.
    pub fn fit(&self, sequence: u32, length: u64) -> Fit
        ensures found { (f : ℕ) (place : Place) → self.now.first ≡ Some f → IsPlace f self.now.order.next sequence place
            → result ≡ fit_at self.now.order.next place length }
        ensures none { self.now.first ≡ None → result ≡ fit.Within }
    {
        match self.first {
            Some(first) => fit_by(first, self.order.next(), sequence, length),
            None => Fit::Within,
        }
    }

    /// Takes note that all octets before a sequence number were sent; where that is no segment's that has octets or a FIN, the last
    /// number before it may be that of a FIN.
    pub fn note_sent(&mut self, sequence: u32, is_exact: bool)
        ensures same { self.new ≡ record self.old { extent = self.new.extent } }
        ensures sent { (f : ℕ) (place : Place) → self.old.first ≡ Some f → IsPlace f self.old.order.next sequence place
            → self.new.extent ≡ with_sent (told_at self.old.order.next place) is_exact self.old.extent }
        ensures unknown { self.old.first ≡ None → self.new ≡ self.old }
    {
        if let Some(place) = self.told(sequence) {
            if is_exact {
                self.extent.note_end(place);
            } else {
                self.extent.note_reached(place);
            }
        }
    }

    /// Takes note that the other end has all octets before a sequence number.
    pub fn note_acknowledged(&mut self, sequence: u32, moment: u64) -> Result<(), AllocError>
        ensures same { self.new ≡ record self.old { extent = self.new.extent; notes = self.new.notes } }
        ensures sent { (f : ℕ) (place : Place) → self.old.first ≡ Some f → IsPlace f self.old.order.next sequence place
            → self.new.extent ≡ with_sent (told_at self.old.order.next place) false self.old.extent }
        ensures noted { (f : ℕ) (place : Place) → self.old.first ≡ Some f → IsPlace f self.old.order.next sequence place
            → 0 < length self.old.order.waiting
            → OnOk result (MatchOption (told_at self.old.order.next place) (self.new.notes ≡ self.old.notes)
            (λ p. (n : ℕ) → since self.new.notes n ≡ option_or (since self.old.notes n) (noted p moment n))) }
        ensures closed { self.old.order.waiting ≡ [] → self.new.notes ≡ self.old.notes }
        ensures unknown { self.old.first ≡ None → self.new ≡ self.old }
        ensures err { OnErr result (self.new.notes ≡ self.old.notes) }
    {
        let Some(place) = self.told(sequence) else {
            return Ok(());
        };
        self.extent.note_reached(place);
        if !self.has_gap() {
            return Ok(());
        }
        self.acknowledged.note(place, moment)
    }
}
