//! One direction of a connection. (One file of calls, since each says what becomes of the whole value.)
ghost use Rattle.std.specs.Prelude.{◌≡◌, ℕ, ◌+◌, ◌-◌, ◌*◌, ◌^◌, ◌<◌, ◌≤◌, min, ◌++◌, ◌∷◌, [], List, IfOk, OnOk, OnErr, IfSome, IsSome, MatchOption, IsTrue, ◌↔◌, ◌⊎◌, length, slice_get, None, Some, Ok, true, false};
ghost use Rattle.smq_reassembly.specs.Octet.{Octet, octets_of};
ghost use Rattle.smq_reassembly.specs.Moment.{IsGiven, Start};
ghost use Rattle.smq_reassembly.specs.Piece.{Piece, octets_in};
ghost use Rattle.smq_reassembly.specs.Segment.{piece_of};
ghost use Rattle.smq_reassembly.specs.Sequence.{IsPlace};
ghost use Rattle.smq_streams.specs.Direction.{Adds, Direction, Gives, IsLent, Searches, Skips, has_gap, is_open, is_unclear, left_in, missing_tail};
ghost use Rattle.smq_streams.specs.Extent.{with_captured};
ghost use Rattle.smq_streams.specs.Fit.{end_at};
ghost use Rattle.smq_streams.specs.Search.{octets_given, place_with, with_given};
ghost use Rattle.std.specs.Option.{is_some};

use crate::acknowledged::Acknowledged;
use crate::extent::Extent;
use crate::given::Given;
use crate::seeker::Seeker;
use smq_reassembly::{Next, Packet, Part, Place, Reassembly, Taken, place_of};
use std::alloc::{AllocError, Global};
use std::marker::Model;

mod lost;
mod numbers;

/// What a piece that waits takes besides its octets.
const PIECE: u64 = 128;

/// A PDU that is seen to begin behind a gap: its place, and the packet of its first octet.
#[derive(Clone, Copy)]
pub struct Found {
    pub place: u64,
    pub number: u64,
}

/// Octets that are missing: the first, and the one behind the last.
#[derive(Clone, Copy)]
pub struct Missing {
    pub from: u64,
    pub until: u64,
}

/// Why a gap was given up.
#[derive(Clone, Copy, Debug, PartialEq, Eq)]
pub enum Why {
    /// The other end acknowledged what is missing 2 s ago.
    Acknowledged,
    /// It opened 300 s ago.
    Old,
    /// Too much waited behind gaps.
    Full,
    /// The connection ended.
    Ended,
    /// The input ended.
    End,
}

/// The octets of one direction. Places count from its first octet.
#[derive(Drop)]
pub struct Stream {
    /// The sequence number of the first octet.
    first: Option<u32>,
    order: Reassembly,
    extent: Extent,
    /// Since when something waits; and, while it does, what the other end acknowledges.
    opened: Option<u64>,
    acknowledged: Acknowledged,
    /// Whether octets are passed over until a PDU begins; and whether a gap is before them.
    is_searching: bool,
    is_behind_gap: bool,
    /// The next octets that were taken out of their order and weren't given.
    seeker: Seeker,
    /// Whether nothing more is taken.
    is_stopped: bool,
}

impl Model for Stream {
    ghost use Rattle.smq_streams.specs.Direction.{Direction};

    ghost Value = { Direction };

    ghost view = { λ s. record {
      first = s.first;
      order = s.order;
      extent = s.extent;
      held = s.seeker;
      opened = s.opened;
      notes = s.acknowledged;
      is_searching = s.is_searching;
      is_behind_gap = s.is_behind_gap;
      is_stopped = s.is_stopped;
    } };
}

impl Stream {
    /// A direction of which nothing is known.
    pub fn new(alloc: Global) -> Stream
        ensures gives { Gives [] (record { place = 0; moment = 0 }) [] result }
        ensures nothing { result ≡ record {
          first = None;
          order = result.order;
          extent = record { end = 0; top = 0; reached = 0 };
          held = record { place = 0; octets = []; passed = 0; looked = 0 };
          opened = None;
          notes = [];
          is_searching = false;
          is_behind_gap = false;
          is_stopped = false;
        } }
    {
        Stream {
            first: None,
            order: Reassembly::new(alloc),
            extent: Extent::new(),
            opened: None,
            acknowledged: Acknowledged::new(alloc),
            is_searching: false,
            is_behind_gap: false,
            seeker: Seeker::new(alloc),
            is_stopped: false,
        }
    }

    /// Learns the sequence number of the first octet, where none is known; whether the first PDU has to be looked for.
    pub fn begin(&mut self, first: u32, is_searching: bool)
        ensures begins { self.old.first ≡ None
            → self.new ≡ record self.old { first = Some first; is_searching = is_searching } }
        ensures same { (f : ℕ) → self.old.first ≡ Some f → self.new ≡ self.old }
    {
        if self.first.is_none() {
            self.first = Some(first);
            self.is_searching = is_searching;
        }
    }

    /// The sequence number of the first octet, if it is known.
    pub fn first(&self) -> Option<u32>
        ensures { result ≡ self.now.first }
    {
        self.first
    }

    /// The place behind the octets that were given.
    pub fn next(&self) -> u64
        ensures { result ≡ self.now.order.next }
    {
        self.order.next()
    }

    /// Whether octets are passed over until a PDU begins.
    pub fn is_searching(&self) -> bool
        ensures { result ≡ self.now.is_searching }
    {
        self.is_searching
    }

    /// Whether a gap was given up.
    pub fn is_behind_gap(&self) -> bool
        ensures { result ≡ self.now.is_behind_gap }
    {
        self.is_behind_gap
    }

    /// Takes nothing more: what waits is let go.
    pub fn stop(&mut self)
        ensures stopped { self.new.is_stopped ≡ true }
        ensures waiting { self.new.order.waiting ≡ [] }
        ensures given { (self.new.order.next ≡ self.old.order.next) × (self.new.held ≡ self.old.held) }
        ensures same { self.new ≡ record self.old {
          order = record self.old.order { waiting = [] };
          opened = None;
          notes = [];
          is_stopped = true;
        } }
    {
        self.is_stopped = true;
        self.order.let_go();
        self.opened = None;
        self.acknowledged.clear();
    }

    /// Whether octets wait behind a gap.
    pub fn has_gap(&self) -> bool
        ensures none { result ≡ false → self.now.order.waiting ≡ [] }
        ensures value { result ≡ has_gap self.now }
    {
        self.order.waiting_pieces() > 0
    }

    /// Whether octets wait behind a gap, or behind one that was given up until it is seen where a PDU begins.
    pub fn is_open(&self) -> bool
        ensures none { result ≡ false → self.now.order.waiting ≡ [] }
        ensures value { result ≡ is_open self.now }
    {
        self.has_gap() || self.is_unclear()
    }

    /// Whether a PDU may begin behind a gap, which what follows will show.
    fn is_unclear(&self) -> bool
        ensures { result ≡ is_unclear self.now }
    {
        self.is_searching && self.is_behind_gap && !self.seeker.is_through()
    }

    /// How much memory what waits and what is held takes: 128 octets a piece that waits, its octets, those that are held and those that
    /// are kept before them, and 16 a note.
    pub fn weight(&self) -> u64
        ensures { result ≡ min (128 * length self.now.order.waiting + octets_in self.now.order.waiting
            + (self.now.held.looked + length self.now.held.octets) + 16 * length self.now.notes) (2 ^ 64 - 1) }
    {
        (self.order.waiting_pieces() as u64)
            .saturating_mul(PIECE)
            .saturating_add(self.order.waiting_octets())
            .saturating_add(self.seeker.len() as u64)
            .saturating_add((self.acknowledged.len() as u64).saturating_mul(16))
    }

    /// Takes the octets of a segment where they are the next and none wait, and lends them: they count as given then.
    pub fn takes_next<'a>(
        &mut self,
        alloc: Global,
        sequence: u32,
        octets: &'a [u8],
        packet: Packet,
    ) -> Result<Option<Next<'a>>, AllocError>
        ensures takes { (pieces : List Piece) (start : Start) (given : List Octet) (f : ℕ) (place : Place)
            → Gives pieces start given self.old → self.old.first ≡ Some f
            → IsPlace f self.old.order.next sequence place
            → IfOk result (λ r. IfSome r (λ next.
            Gives (pieces ++ piece_of place self.old.order.next packet octets.now ∷ []) start
            (given ++ octets_of next.packet next.begins next.octets.now) self.new)) }
        ensures lends { (pieces : List Piece) (start : Start) (given : List Octet) (f : ℕ) (place : Place)
            → Gives pieces start given self.old → self.old.first ≡ Some f
            → IsPlace f self.old.order.next sequence place
            → IfOk result (λ r. IsSome r ↔ IsLent self.old place packet octets.now) }
        ensures none { (pieces : List Piece) (start : Start) (given : List Octet) (f : ℕ) (place : Place)
            → Gives pieces start given self.old → self.old.first ≡ Some f
            → IsPlace f self.old.order.next sequence place
            → IfOk result (λ r. r ≡ None → self.new ≡ self.old) }
        ensures octets { IfOk result (λ r. IfSome r (λ next. 0 < length next.octets.now)) }
        ensures captured { IfOk result (λ r. IfSome r (λ next.
            self.new.extent ≡ with_captured self.new.order.next self.old.extent)) }
        ensures same { self.new ≡ record self.old { order = self.new.order; extent = self.new.extent } }
        ensures unknown { self.old.first ≡ None → (result ≡ Ok None) × (self.new ≡ self.old) }
        ensures err { OnErr result ((self.new.extent ≡ self.old.extent)
            × (self.new.order.next ≡ self.old.order.next)) }
    {
        let Some(first) = self.first else {
            return Ok(None);
        };
        if self.is_searching || self.is_stopped || octets.is_empty() || self.is_held() {
            return Ok(None);
        }
        let Place::Ahead(0) = place_of(first, self.order.next(), sequence) else {
            return Ok(None);
        };
        let Taken::Lends(next) = self
            .order
            .take_segment(alloc, first, sequence, packet, octets)?
        else {
            return Ok(None);
        };
        let end = self.order.next();
        self.note_captured(end);
        Ok(Some(next))
    }

    /// Whether octets are held or wait, behind which the next ones have to stand.
    fn is_held(&self) -> bool
        ensures none { result ≡ false → self.now.held.octets ≡ [] }
        ensures closed { result ≡ false → self.now.order.waiting ≡ [] }
        ensures some { result ≡ true → self.now.order.waiting ≡ [] → self.now.held.octets ≡ [] → ⊥ }
    {
        self.has_gap() || !self.seeker.is_through()
    }

    /// Takes the octets of a segment, and tells whether it is within the window.
    pub fn add(
        &mut self,
        alloc: Global,
        sequence: u32,
        octets: &[u8],
        packet: Packet,
    ) -> Result<bool, AllocError>
        ensures adds { (pieces : List Piece) (start : Start) (given : List Octet) (f : ℕ) (place : Place)
            → Gives pieces start given self.old → self.old.first ≡ Some f
            → self.old.is_stopped ≡ false → 0 < length octets.now
            → IsPlace f self.old.order.next sequence place
            → IfOk result (λ taken. Adds pieces start given
            (piece_of place self.old.order.next packet octets.now) self.old self.new taken) }
        ensures captured { (f : ℕ) (place : Place) → self.old.first ≡ Some f
            → IsPlace f self.old.order.next sequence place
            → OnOk result ((self.new ≡ self.old) ⊎ (self.new.extent
            ≡ with_captured (end_at self.old.order.next place (length octets.now)) self.old.extent)) }
        ensures same { self.new ≡ record self.old {
          order = self.new.order;
          extent = self.new.extent;
          held = self.new.held;
        } }
        ensures still { OnOk result (self.new.order ≡ self.old.order → self.new ≡ self.old) }
        ensures far { IfOk result (λ taken. taken ≡ false → self.new ≡ self.old) }
        ensures stopped { self.old.is_stopped ≡ true → (result ≡ Ok true) × (self.new ≡ self.old) }
        ensures unknown { self.old.first ≡ None → (result ≡ Ok true) × (self.new ≡ self.old) }
        ensures empty { octets.now ≡ [] → (result ≡ Ok true) × (self.new ≡ self.old) }
        ensures err { OnErr result ((self.new.extent ≡ self.old.extent)
            × (self.new.held.octets ≡ self.old.held.octets)) }
    {
        let Some(first) = self.first else {
            return Ok(true);
        };
        if octets.is_empty() || self.is_stopped {
            return Ok(true);
        }
        let place = self.order.next();
        let length = octets.len() as u64;
        let end = match place_of(first, place, sequence) {
            Place::Ahead(far) => place.saturating_add(far as u64).saturating_add(length),
            Place::Behind(far) => place.saturating_add(length.saturating_sub(far as u64)),
        };
        match self
            .order
            .take_segment(alloc, first, sequence, packet, octets)?
        {
            Taken::Lends(next) => self.hold(alloc, place, next)?,
            Taken::Waits => {}
            Taken::Repeats => return Ok(true),
            Taken::TooFarAhead => return Ok(false),
        }
        self.note_captured(end);
        Ok(true)
    }

    /// Holds octets that were lent until they are given.
    fn hold(&mut self, alloc: Global, place: u64, next: Next<'_>) -> Result<(), AllocError>
        ensures ok { OnOk result ((self.new.order ≡ self.old.order) × (self.new.held.octets
            ≡ self.old.held.octets ++ octets_of next.entry.packet next.entry.begins next.entry.octets.now)
            × (self.new.held.place ≡ place_with place self.old.held.octets self.old.held.place)) }
        ensures same { self.new ≡ record self.old { held = self.new.held } }
        ensures err { OnErr result (self.new ≡ self.old) }
    {
        let given = Given {
            place,
            number: next.packet.number,
            moment: next.packet.moment,
            begins: next.begins,
            octets: Vec::from_slice(alloc, next.octets)?,
        };
        self.hold_given(&given)?;
        Ok(())
    }

    /// Holds octets until they are given.
    fn hold_given(&mut self, given: &Given) -> Result<(), AllocError>
        ensures ok { OnOk result (self.new ≡ record self.old { held = with_given given.now self.old.held }) }
        ensures same { self.new ≡ record self.old { held = self.new.held } }
        ensures err { OnErr result (self.new ≡ self.old) }
    {
        self.seeker.push(given)
    }

    /// Takes note that octets up to a place were captured.
    fn note_captured(&mut self, end: u64)
        ensures { self.new ≡ record self.old { extent = with_captured end self.old.extent } }
    {
        self.extent.note_captured(end);
    }

    /// The next octets that follow what was given, as one segment brought them; none while a PDU is looked for.
    pub fn next_part(&mut self, alloc: Global) -> Result<Option<Given>, AllocError>
        ensures some { (pieces : List Piece) (start : Start) (given : List Octet)
            → Gives pieces start given self.old → IfOk result (λ r. IfSome r (λ part.
            (part.place ≡ start.place + length given) × Gives pieces start (given ++ octets_given part) self.new)) }
        ensures none { (pieces : List Piece) (start : Start) (given : List Octet)
            → Gives pieces start given self.old → self.old.is_searching ≡ false
            → IfOk result (λ r. r ≡ None → IsGiven pieces start given) }
        ensures octets { IfOk result (λ r. IfSome r (λ part. 0 < length part.octets.items)) }
        ensures fewer { IfOk result (λ r. IfSome r (λ part. left_in self.new < left_in self.old)) }
        ensures searches { self.old.is_searching ≡ true → result ≡ Ok None }
        ensures same { self.new ≡ record self.old { order = self.new.order; held = self.new.held } }
        ensures still { IfOk result (λ r. r ≡ None → self.new ≡ self.old) }
        ensures err { OnErr result (self.new ≡ self.old) }
    {
        if self.is_searching {
            return Ok(None);
        }
        // For the proof: no place is counted up to the greatest.
        let _ = self.order.next();
        match self.seeker.next_part(alloc)? {
            Some(given) => Ok(Some(given)),
            None => Ok(self.next_in_order()),
        }
    }

    /// The next octets, as one segment brought them.
    fn next_in_order(&mut self) -> Option<Given>
        ensures same { (self.new.held ≡ self.old.held) × (self.new.is_searching ≡ self.old.is_searching) }
        ensures fewer { IsSome result → octets_in self.new.order.waiting < octets_in self.old.order.waiting }
        ensures octets { IfSome result (λ part. 0 < length part.octets.items) }
        ensures frame { self.new ≡ record self.old { order = self.new.order } }
        ensures still { result ≡ None → self.new ≡ self.old }
        ensures some { (pieces : List Piece) (start : Start) (given : List Octet)
            → Gives pieces start given self.old → IfSome result (λ part.
            Gives pieces start given (record self.new { held = with_given part self.old.held })) }
        ensures place { IfSome result (λ part. part.place ≡ self.old.order.next) }
        ensures most { self.old.order.next ≤ 2 ^ 60 }
        ensures none { (pieces : List Piece) (start : Start) (given : List Octet)
            → Gives pieces start given self.old → result ≡ None
            → IsGiven pieces start (given ++ self.old.held.octets) × Gives pieces start given self.new }
    {
        let place = self.order.next();
        let Part {
            packet,
            begins,
            octets,
        } = self.order.next_part()?;
        Some(Given {
            place,
            number: packet.number,
            moment: packet.moment,
            begins,
            octets,
        })
    }

    /// Gives the gap before what waits up, where no octets before it are held: the stream goes on behind it, where a PDU begins. What is
    /// missing.
    pub fn skip_gap(&mut self) -> Option<Missing>
        ensures skips { (pieces : List Piece) (start : Start) (given : List Octet)
            → Gives pieces start given self.old
            → IfSome result (λ missing. Skips pieces self.old self.new missing) }
        ensures through { IfSome result (λ missing. self.old.held.octets ≡ []) }
        ensures some { IfSome result (λ missing. (missing.from ≡ self.old.order.next)
            × (missing.until ≡ self.new.order.next) × (self.new.order.waiting ≡ self.old.order.waiting)
            × (self.new ≡ record self.old { order = self.new.order; is_searching = true; is_behind_gap = true })) }
        ensures none { result ≡ None → self.old.held.octets ≡ [] → self.old.order.waiting ≡ [] }
        ensures still { result ≡ None → self.new ≡ self.old }
    {
        if !self.seeker.is_through() {
            return None;
        }
        let from = self.order.next();
        let until = self.order.skip_gap()?;
        self.is_searching = true;
        self.is_behind_gap = true;
        Some(Missing { from, until })
    }

    /// What is missing where the capture of this direction ends.
    pub fn missing_tail(&self) -> Option<Missing>
        ensures { result ≡ missing_tail self.now }
    {
        let from = self.order.next();
        if self.is_stopped {
            return None;
        }
        let until = self.order.first_waiting().unwrap_or(self.end());
        if from < until {
            Some(Missing { from, until })
        } else {
            None
        }
    }

    /// Passes over what follows, up to the first PDU that begins in it. Where no more octets come before a gap or the end, what isn't
    /// clear is no PDU.
    pub fn search(&mut self, is_end: bool) -> Result<Option<Found>, AllocError>
        ensures searches { (pieces : List Piece) (start : Start) (given : List Octet)
            → Gives pieces start given self.old
            → IfOk result (λ found. Searches is_end pieces start given self.old self.new (is_some found)) }
        ensures found { IfOk result (λ r. MatchOption r (self.new.is_searching ≡ self.old.is_searching)
            (λ found. (self.new.is_searching ≡ false) × (found.place ≡ self.new.held.place))) }
        ensures number { IfOk result (λ r. IfSome r (λ found. MatchOption (slice_get self.new.held.octets 0)
            (found.number ≡ 0) (λ (o : Octet). found.number ≡ o.packet.number))) }
        ensures same { self.new ≡ record self.old {
          order = self.new.order;
          held = self.new.held;
          is_searching = self.new.is_searching;
        } }
        ensures err { OnErr result (self.new.is_searching ≡ self.old.is_searching) }
    {
        self.hold_all()?;
        if !self.seeker.find(is_end) {
            return Ok(None);
        }
        self.is_searching = false;
        Ok(Some(Found {
            place: self.seeker.place(),
            number: self.seeker.number(),
        }))
    }

    /// Holds all octets that are the next.
    fn hold_all(&mut self) -> Result<(), AllocError>
        ensures holds { (pieces : List Piece) (start : Start) (given : List Octet)
            → Gives pieces start given self.old → OnOk result (Gives pieces start given self.new
            × IsGiven pieces start (given ++ self.new.held.octets)) }
        ensures passed { self.new.held.passed ≡ self.old.held.passed }
        ensures most { OnOk result (self.new.order.next ≤ 2 ^ 60) }
        ensures same { self.new ≡ record self.old { order = self.new.order; held = self.new.held } }
    {
        'parts: while let Some(given) = self.next_in_order() {
            self.hold_given(&given)?;
        }
        Ok(())
    }

    /// How many octets were passed over since it was last asked.
    pub fn take_passed(&mut self) -> u64
        ensures count { result ≡ self.old.held.passed }
        ensures anew { self.new ≡ record self.old { held = record self.old.held { passed = 0 } } }
    {
        self.seeker.take_passed()
    }
}
