//! The first PDU among octets that follow one another.
ghost use Rattle.std.specs.Prelude.{◌≡◌, ℕ, ◌+◌, ◌<◌, ◌++◌, [], IfOk, OnOk, OnErr, MatchOption, IsTrue, ◌↔◌, length, slice_get, Some, None};
ghost use Rattle.std.specs.Option.{option_map};
ghost use Rattle.smq_reassembly.specs.Octet.{Octet};
ghost use Rattle.smq_reassembly.specs.Moment.{values};
ghost use Rattle.smq_streams.specs.Search.{Finds, Search, Shows, beyond, counted, emptied, kept_before, octets_given, trimmed, with_given};

use crate::given::Given;
use crate::headers::{Sight, look_at};
use smq_reassembly::Packet;
use std::alloc::{AllocError, Global};
use std::collections::VecDeque;
use std::marker::Model;

/// So many octets that were looked at are let go at once.
const LET_GO: usize = 65_536;

/// Octets that one packet brought: how many are left, and whether the first of these is the first of a segment.
#[derive(Clone, Copy)]
pub(crate) struct Mark {
    pub(crate) packet: Packet,
    pub(crate) begins: bool,
    pub(crate) left: usize,
}

/// Octets of a direction that follow one another, among which the first PDU is looked for. Where it isn't yet seen whether a PDU begins
/// at an octet, the search waits for what follows, and looks at that octet again; at others it looks once.
#[derive(Drop)]
pub struct Seeker {
    octets: Vec<u8>,
    /// How many of them were looked at, and the place of the one behind.
    looked: usize,
    place: u64,
    /// What brought those behind: the first of the marks, and the others.
    first: Option<Mark>,
    others: VecDeque<Mark>,
    /// How many were passed over since it was last asked.
    passed: u64,
}

impl Model for Seeker {
    ghost use Rattle.std.specs.Prelude.{drop};
    ghost use Rattle.smq_streams.specs.Search.{Search};
    ghost use Rattle.smq_streams.specs.within.Marks.{IsKept, marks_of, octets_by};

    ghost Value = { Search };

    ghost view = { λ s. record {
      place = s.place;
      octets = octets_by (marks_of s.first s.others.items) (drop s.looked s.octets.items);
      passed = s.passed;
      looked = s.looked;
    } };

    ghost invariant = { λ s. IsKept s.octets.items s.looked s.first s.others.items };
}

impl Seeker {
    /// No octets.
    pub fn new(alloc: Global) -> Seeker
        ensures { result ≡ (record { place = 0; octets = []; passed = 0; looked = 0 }) }
    {
        Seeker {
            octets: Vec::new(alloc),
            looked: 0,
            place: 0,
            first: None,
            others: VecDeque::new(alloc),
            passed: 0,
        }
    }

    /// How many octets it keeps, which are those that are looked at and some before them.
    pub fn len(&self) -> usize
        ensures { result ≡ self.now.looked + length self.now.octets }
    {
        self.octets.len()
    }

    /// Whether no octet is left to be looked at.
    pub fn is_through(&self) -> bool
        ensures { IsTrue result ↔ (self.now.octets ≡ []) }
    {
        match self.first {
            Some(_) => false,
            None => true,
        }
    }

    /// The place of the octet that is looked at.
    pub fn place(&self) -> u64
        ensures { result ≡ self.now.place }
    {
        self.place
    }

    /// How many octets were passed over since it was last asked.
    pub fn take_passed(&mut self) -> u64
        ensures count { result ≡ self.old.passed }
        ensures anew { self.new ≡ (record self.old { passed = 0 }) }
    {
        let passed = self.passed;
        self.passed = 0;
        passed
    }

    /// Puts octets behind those before.
    pub fn push(&mut self, given: &Given) -> Result<(), AllocError>
        ensures ok { OnOk result (self.new ≡ with_given given.now self.old) }
        ensures err { OnErr result (self.new ≡ self.old) }
    {
        let is_first = self.is_through();
        self.append(given)?;
        if is_first {
            self.place = given.place;
        }
        self.let_go();
        Ok(())
    }

    /// Puts octets behind those before, at the place that follows.
    fn append(&mut self, given: &Given) -> Result<(), AllocError>
        ensures ok { OnOk result (self.new
            ≡ (record self.old { octets = self.old.octets ++ octets_given given.now })) }
        ensures err { OnErr result (self.new ≡ self.old) }
    {
        if given.octets.is_empty() {
            return Ok(());
        }
        self.others.reserve(1)?;
        self.octets.extend_from_slice(given.octets.as_slice())?;
        let mark = Mark {
            packet: Packet {
                number: given.number,
                moment: given.moment,
            },
            begins: given.begins,
            left: given.octets.len(),
        };
        if self.first.is_none() {
            self.first = Some(mark);
        } else {
            self.others.push_back_reserved(mark);
        }
        Ok(())
    }

    /// Lets go of what was looked at, where that is much.
    fn let_go(&mut self)
        ensures { self.new ≡ trimmed self.old }
    {
        if self.looked >= LET_GO {
            let left = self.octets.len() - self.looked;
            self.octets.rotate_left(self.looked);
            self.octets.truncate(left);
            self.octets.shrink_to_fit();
            self.looked = 0;
        }
    }

    /// Looks for a PDU; whether one begins at the octet that is looked at then. Where no more octets come, what isn't clear is no PDU,
    /// and all is let go where none begins.
    pub fn find(&mut self, is_end: bool) -> bool
        ensures { Finds is_end self.old self.new result }
    {
        'octets: while let Some(begins) = self.begins() {
            match look_ahead(self.rest(), begins, is_end) {
                Sight::Begins => return true,
                Sight::Unclear => return false,
                Sight::Other => self.pass(),
            }
        }
        self.clear();
        false
    }

    /// Whether the octet that is looked at is the first of a segment, if there is one.
    fn begins(&self) -> Option<bool>
        ensures { result ≡ option_map (λ (o : Octet). o.begins) (slice_get self.now.octets 0) }
    {
        Some(self.first?.begins)
    }

    /// The octets from the one that is looked at on.
    fn rest(&self) -> &[u8]
        ensures { result.now ≡ values self.now.octets }
    {
        &self.octets[self.looked..]
    }

    /// Passes over the octet that is looked at.
    fn pass(&mut self)
        requires { 0 < length self.old.octets }
        ensures { self.new ≡ beyond 1 self.old }
    {
        if let Some(first) = self.first {
            self.looked += 1;
            self.place = self.place.saturating_add(1);
            self.passed = self.passed.saturating_add(1);
            if first.left > 1 {
                self.first = Some(Mark {
                    packet: first.packet,
                    begins: false,
                    left: first.left - 1,
                });
            } else {
                self.first = self.others.pop_front();
            }
        }
    }

    /// Lets go of what was looked at, where that is all.
    fn clear(&mut self)
        ensures { self.new ≡ emptied self.old }
    {
        if self.is_through() {
            self.octets.clear();
            self.looked = 0;
        }
    }

    /// The number of the packet that brought the octet that is looked at.
    pub fn number(&self) -> u64
        ensures { MatchOption (slice_get self.now.octets 0) (result ≡ 0) (λ (o : Octet). result ≡ o.packet.number) }
    {
        match self.first {
            Some(mark) => mark.packet.number,
            None => 0,
        }
    }

    /// The next octets from the one that is looked at on, as one packet brought them.
    pub fn next_part(&mut self, alloc: Global) -> Result<Option<Given>, AllocError>
        ensures ok { IfOk result (λ r. MatchOption r ((self.old.octets ≡ []) × (self.new ≡ self.old))
            (λ given. (0 < length given.octets.items) × (given.place ≡ self.old.place)
            × (self.old.octets ≡ octets_given given ++ self.new.octets)
            × (self.new.place ≡ counted self.old.place (length given.octets.items))
            × (self.new.passed ≡ self.old.passed)
            × (self.new.looked ≡ kept_before self.new.octets (self.old.looked + length given.octets.items)))) }
        ensures err { OnErr result (self.new ≡ self.old) }
    {
        let Some(mark) = self.first else {
            return Ok(None);
        };
        let until = self.looked + mark.left;
        let octets = Vec::from_slice(alloc, &self.octets[self.looked..until])?;
        let place = self.place;
        self.looked = until;
        self.place = place.saturating_add(mark.left as u64);
        self.first = self.others.pop_front();
        self.clear();
        Ok(Some(Given {
            place,
            number: mark.packet.number,
            moment: mark.packet.moment,
            begins: mark.begins,
            octets,
        }))
    }
}

/// What the first octets look like: where no more come, what isn't clear is no PDU.
fn look_ahead(octets: &[u8], is_start: bool, is_end: bool) -> Sight
    ensures { Shows is_end octets.now is_start result }
{
    match look_at(octets, 0, is_start) {
        Sight::Unclear if is_end => Sight::Other,
        sight => sight,
    }
}
