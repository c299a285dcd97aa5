//! Since when something waits in a direction, and when it is given up.
ghost use Rattle.std.specs.Prelude.{◌≡◌, ℕ, ◌≤◌, IfSome, [], None, Some, unwrap_or, if◌then◌else◌};
ghost use Rattle.smq_reassembly.specs.Piece.{first_place};
ghost use Rattle.smq_streams.specs.Acknowledged.{since};
ghost use Rattle.smq_streams.specs.Direction.{IsLost, acknowledged_since, given_up_at, has_gap, is_open, packet_of};

use crate::stream::{Stream, Why};

/// A gap is given up so many ms after the other end acknowledged what is missing, or after it opened where that isn't seen.
const ACKNOWLEDGED_FOR: u64 = 2_000;

const OPEN_FOR: u64 = 300_000;

impl Stream {
    /// Takes note of when something begins and ceases to wait.
    pub fn watch(&mut self, moment: u64)
        ensures since { IfSome self.new.opened (λ m. m ≡ unwrap_or self.old.opened moment) }
        ensures closed { self.new.opened ≡ None → self.new.order.waiting ≡ [] }
        ensures same { self.new ≡ record self.old { opened = self.new.opened; notes = self.new.notes } }
        ensures opened { self.new.opened
            ≡ (if is_open self.old then Some (unwrap_or self.old.opened moment) else None) }
        ensures notes { self.new.notes ≡ (if has_gap self.old then self.old.notes else []) }
    {
        if !self.has_gap() {
            self.acknowledged.clear();
        }
        if !self.is_open() {
            self.opened = None;
        } else if self.opened.is_none() {
            self.opened = Some(moment);
        }
    }

    /// Lets the time of what waits begin anew.
    pub fn watch_anew(&mut self, moment: u64)
        ensures since { IfSome self.new.opened (λ m. m ≡ moment) }
        ensures closed { self.new.opened ≡ None → self.new.order.waiting ≡ [] }
        ensures same { self.new ≡ record self.old { opened = self.new.opened; notes = self.new.notes } }
        ensures opened { self.new.opened ≡ (if is_open self.old then Some moment else None) }
        ensures notes { self.new.notes ≡ (if has_gap self.old then self.old.notes else []) }
    {
        self.opened = None;
        self.watch(moment);
    }

    /// Since when something waits.
    pub fn opened(&self) -> Option<u64>
        ensures { result ≡ self.now.opened }
    {
        self.opened
    }

    /// When what waits is given up.
    pub fn deadline(&mut self) -> Option<u64>
        ensures value { result ≡ given_up_at self.old.opened (acknowledged_since self.old) }
        ensures same { self.new ≡ record self.old { notes = self.new.notes } }
        ensures keeps { (least n : ℕ) → first_place self.old.order.waiting ≡ Some least → least ≤ n
            → since self.new.notes n ≡ since self.old.notes n }
        ensures idle { self.old.order.waiting ≡ [] → self.new ≡ self.old }
    {
        let old = self.opened?.saturating_add(OPEN_FOR);
        match self.acknowledged_since() {
            Some(moment) if moment.saturating_add(ACKNOWLEDGED_FOR) < old => {
                Some(moment.saturating_add(ACKNOWLEDGED_FOR))
            }
            _ => Some(old),
        }
    }

    /// Since when the other end acknowledges what is missing.
    fn acknowledged_since(&mut self) -> Option<u64>
        ensures value { result ≡ acknowledged_since self.old }
        ensures same { self.new ≡ record self.old { notes = self.new.notes } }
        ensures keeps { (least n : ℕ) → first_place self.old.order.waiting ≡ Some least → least ≤ n
            → since self.new.notes n ≡ since self.old.notes n }
        ensures idle { self.old.order.waiting ≡ [] → self.new ≡ self.old }
    {
        let least = self.order.first_waiting()?;
        self.acknowledged.since(least)
    }

    /// Why what waits is given up at a moment, if it is.
    pub fn is_lost(&mut self, moment: u64) -> Option<Why>
        ensures lost { IsLost self.old.opened (acknowledged_since self.old) moment result }
        ensures same { self.new ≡ record self.old { notes = self.new.notes } }
        ensures keeps { (least n : ℕ) → first_place self.old.order.waiting ≡ Some least → least ≤ n
            → since self.new.notes n ≡ since self.old.notes n }
        ensures idle { self.old.order.waiting ≡ [] → self.new ≡ self.old }
    {
        let opened = self.opened?;
        if let Some(since) = self.acknowledged_since() {
            if moment >= since.saturating_add(ACKNOWLEDGED_FOR) {
                return Some(Why::Acknowledged);
            }
        }
        if moment >= opened.saturating_add(OPEN_FOR) {
            return Some(Why::Old);
        }
        None
    }

    /// The packet that brought the first octets behind a gap, or behind one that was given up.
    pub fn first_packet(&self) -> Option<u64>
        ensures { result ≡ packet_of self.now }
    {
        if self.is_unclear() {
            return Some(self.seeker.number());
        }
        Some(self.order.first_waiting_packet()?.number)
    }
}
