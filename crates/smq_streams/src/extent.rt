//! How far a direction was sent, by the numbers that its segments have and the other end acknowledges.
ghost use Rattle.std.specs.Prelude.{◌≡◌, max};
ghost use Rattle.smq_streams.specs.Extent.{reached_with, sent_until};

/// Places behind what was seen of a direction.
#[derive(Clone, Copy)]
pub(crate) struct Extent {
    /// Behind the last octet of a segment, and behind the last one that was captured.
    pub(crate) end: u64,
    pub(crate) top: u64,
    /// Behind the last number that the other end acknowledged or the sender went past; it may be that of a FIN.
    pub(crate) reached: u64,
}

impl Extent {
    /// Nothing was seen.
    pub(crate) fn new() -> Extent
        ensures { result ≡ record { end = 0; top = 0; reached = 0 } }
    {
        Extent {
            end: 0,
            top: 0,
            reached: 0,
        }
    }

    /// The place behind the last octet that was sent: one number alone behind those of segments is taken for a FIN's (RFC 9293, 3.4).
    pub(crate) fn sent(&self) -> u64
        ensures { result ≡ sent_until self.now }
    {
        if self.end.saturating_add(1) < self.reached {
            self.reached
        } else {
            self.end
        }
    }

    /// Takes note that octets up to a place were captured.
    pub(crate) fn note_captured(&mut self, place: u64)
        ensures { self.new ≡ record self.old { end = max self.old.end place; top = max self.old.top place } }
    {
        self.top = self.top.max(place);
        self.end = self.end.max(place);
    }

    /// Takes note that octets up to a place were sent, by a segment that has octets or a FIN.
    pub(crate) fn note_end(&mut self, place: u64)
        ensures { self.new ≡ record self.old { end = max self.old.end place } }
    {
        self.end = self.end.max(place);
    }

    /// Takes note of a place up to which numbers were sent. One more than was known is the number of a FIN.
    pub(crate) fn note_reached(&mut self, place: u64)
        ensures { self.new ≡ record self.old { reached = reached_with place self.old } }
    {
        if self.sent().saturating_add(1) < place {
            self.reached = place;
        }
    }
}
