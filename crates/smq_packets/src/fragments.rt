//! Datagrams put together from their fragments (RFC 791, 3.2; RFC 8200, 4.5).
ghost use Rattle.std.specs.Prelude.{◌≡◌, ◌+◌, ◌-◌, ◌≤◌, ◌^◌, ◌<◌, [], drop, length, option_copied, option_map, IfOk, min, true, IfErr, IfSome, false, IsNone, IsOkAnd, Ok, Err};
ghost use Rattle.smq_packets.specs.Fragments.{is_full_at, is_unusable_in, joined_of, is_overlapped, is_repeated, part_at, segment_of_whole, IsPartOf, LetsGo, MakesRoom, PutsTogether, Waits};
ghost use Rattle.smq_packets.specs.Segments.{value_of};

use crate::datagram::{Fragment, head_of, next_head_of};
use crate::layer::{Address, Layer, Unread};
use crate::octets::range_of;
use crate::part::Part;
use crate::segment::{Segment, last_segment};
use std::alloc::{AllocError, Global};
use std::marker::Model;

/// The most fragments that are kept. The oldest is let go before another is kept.
pub const MOST_PARTS: usize = 128;

/// How long a fragment is kept, in ms (RFC 8200, 4.5: 60 seconds).
pub const MOST_WAITING: u64 = 60_000;

/// A datagram's content, put together.
#[derive(Drop)]
pub struct Whole {
    pub source: Address,
    pub destination: Address,
    /// What it carries, as IP numbers it.
    pub protocol: u8,
    pub octets: Vec<u8>,
}

/// The latest fragments of a capture whose datagrams aren't whole.
#[derive(Drop)]
pub struct Fragments {
    parts: Vec<Part>,
    dropped: u64,
}

impl Model for Fragments {
    ghost use Rattle.std.specs.Prelude.{length, ◌≤◌};
    ghost use Rattle.smq_packets.specs.Fragments.{FragmentsValue};

    ghost Value = { FragmentsValue };

    ghost view = { λ f. record { parts = f.parts.items; dropped = f.dropped } };

    ghost invariant = { λ f. length f.parts.items ≤ 128 };
}

impl Fragments {
    /// None yet.
    pub fn new(alloc: Global) -> Fragments
        ensures { result ≡ record { parts = []; dropped = 0 } }
    {
        Fragments {
            parts: Vec::new(alloc),
            dropped: 0,
        }
    }

    /// How many were let go before their datagram was whole.
    pub fn dropped(&self) -> u64
        ensures { result ≡ self.now.dropped }
    {
        self.dropped
    }

    /// Takes a fragment of a frame at a moment, and gives the datagram that it makes whole. It is let go
    /// where it wasn't captured as a whole or is malformed, and passed over where it was kept before.
    /// Of a datagram whose fragments overlap nothing is given (RFC 5722, 4).
    pub fn take(
        &mut self,
        alloc: Global,
        moment: u64,
        fragment: Fragment,
        frame: &[u8],
    ) -> Result<Option<Whole>, AllocError>
        ensures unusable { is_unusable_in frame.now fragment ≡ true →
            LetsGo self.old self.new × IsOkAnd result (λ found. IsNone found) }
        ensures repeated { is_unusable_in frame.now fragment ≡ false →
            is_repeated fragment self.old.parts ≡ true →
            (self.new ≡ self.old) × IsOkAnd result (λ found. IsNone found) }
        ensures whole { IfOk result (λ found. IfSome found (λ whole.
            PutsTogether self.old self.new moment fragment frame.now whole)) }
        ensures waits { IfOk result (λ found. IsNone found →
            is_unusable_in frame.now fragment ≡ false →
            is_repeated fragment self.old.parts ≡ false →
            Waits self.old self.new moment fragment frame.now) }
    {
        if is_unusable(frame, fragment) {
            self.dropped = self.dropped.saturating_add(1);
            return Ok(None);
        }
        if self.has(fragment) {
            return Ok(None);
        }
        self.keep(alloc, moment, fragment, frame)
    }

    /// Keeps a fragment, and gives the datagram that it makes whole.
    fn keep(
        &mut self,
        alloc: Global,
        moment: u64,
        fragment: Fragment,
        frame: &[u8],
    ) -> Result<Option<Whole>, AllocError>
        requires { is_unusable_in frame.now fragment ≡ false }
        ensures whole { IfOk result (λ found. IfSome found (λ whole.
            PutsTogether self.old self.new moment fragment frame.now whole)) }
        ensures waits { IfOk result (λ found. IsNone found →
            Waits self.old self.new moment fragment frame.now) }
    {
        let is_overlapping = self.overlaps(fragment);
        let part = copied(alloc, moment, fragment, frame, is_overlapping)?;
        self.make_room(moment);
        self.parts.push(part)?;
        let Some(octets) = join(alloc, self.parts.as_slice(), fragment)? else {
            return Ok(None);
        };
        self.parts.retain(|part| !part.is_of(fragment));
        Ok(Some(Whole {
            source: fragment.source,
            destination: fragment.destination,
            protocol: fragment.protocol,
            octets,
        }))
    }

    /// Whether a fragment was kept before.
    #[tactic(auto, unfolding(crate::specs::Fragments::is_repeated))]
    fn has(&self, fragment: Fragment) -> bool
        requires { fragment.start ≤ fragment.until }
        ensures { result ≡ is_repeated fragment self.now.parts }
    {
        self.parts.iter().any(|part| {
            part.is_of(fragment)
                && part.offset == fragment.offset
                && part.octets.len() == fragment.until - fragment.start
        })
    }

    /// Whether a fragment overlaps one of its datagram, or others there overlapped.
    #[tactic(auto, unfolding(crate::specs::Fragments::is_overlapped))]
    fn overlaps(&self, fragment: Fragment) -> bool
        requires before { fragment.start ≤ fragment.until }
        requires within { fragment.offset + (fragment.until - fragment.start) ≤ 65535 }
        ensures { result ≡ is_overlapped fragment self.now.parts }
    {
        self.parts.iter().any(|part| {
            part.is_of(fragment)
                && (part.is_overlapping
                    || part.offset < fragment.offset + (fragment.until - fragment.start)
                        && fragment.offset < part.offset + part.octets.len())
        })
    }

    /// Lets the oldest go, where they are too old or too many. How many.
    fn make_room(&mut self, moment: u64) -> usize
        ensures gone { self.new.parts ≡ drop result self.old.parts }
        ensures room { MakesRoom moment self.old.parts result }
        ensures counted { self.new.dropped ≡ min (self.old.dropped + result) (2 ^ 64 - 1) }
    {
        let most = self.parts.len();
        for gone in 0..most {
            if !self.is_full(moment) {
                return gone;
            }
            self.parts.remove(0);
            self.dropped = self.dropped.saturating_add(1);
        }
        most
    }

    /// Whether the oldest is too old, or no other has room.
    fn is_full(&self, moment: u64) -> bool
        ensures { result ≡ is_full_at moment self.now.parts }
    {
        if self.parts.len() >= MOST_PARTS {
            return true;
        }
        match self.parts.first() {
            None => false,
            Some(part) => moment.saturating_sub(part.moment) > MOST_WAITING,
        }
    }
}

/// Whether a fragment wasn't captured as a whole, has no octets, ends within a unit of 8 octets where
/// others follow, or ends behind the 65,535th octet (RFC 8200, 4.5).
fn is_unusable(frame: &[u8], fragment: Fragment) -> bool
    ensures { result ≡ is_unusable_in frame.now fragment }
{
    if fragment.until <= fragment.start || frame.len() < fragment.until {
        return true;
    }
    let size = fragment.until - fragment.start;
    fragment.is_followed && size % 8 != 0 || size > 65_535 || fragment.offset > 65_535 - size
}

/// The part to keep of a fragment.
fn copied(
    alloc: Global,
    moment: u64,
    fragment: Fragment,
    frame: &[u8],
    is_overlapping: bool,
) -> Result<Part, AllocError>
    requires { is_unusable_in frame.now fragment ≡ false }
    ensures { IfOk result (λ part. IsPartOf part fragment moment frame.now is_overlapping) }
{
    let mut octets = Vec::new(alloc);
    octets.extend_from_slice(range_of(frame, fragment.start, fragment.until))?;
    Ok(Part {
        source: fragment.source,
        destination: fragment.destination,
        protocol: fragment.protocol,
        identification: fragment.identification,
        moment,
        offset: fragment.offset,
        is_followed: fragment.is_followed,
        is_overlapping,
        octets,
    })
}

/// The part of a datagram at an offset.
fn find_part(parts: &[Part], fragment: Fragment, at: usize) -> Option<&Part>
    ensures { option_copied result ≡ part_at parts.now fragment at }
{
    parts
        .iter()
        .find(|part| part.is_of(fragment) && part.offset == at)
}

/// The content of a datagram whose parts are there, from its first to one that no other follows, and
/// overlap nowhere.
fn join(alloc: Global, parts: &[Part], fragment: Fragment) -> Result<Option<Vec<u8>>, AllocError>
    ensures { IfOk result (λ found. option_map (λ octets. octets.items) found
        ≡ joined_of parts.now fragment) }
{
    let mut octets = Vec::new(alloc);
    for passed in 0..parts.len() {
        let Some(part) = find_part(parts, fragment, octets.len()) else {
            return Ok(None);
        };
        if part.is_overlapping {
            return Ok(None);
        }
        octets.extend_from_slice(part.octets.as_slice())?;
        if !part.is_followed {
            return Ok(Some(octets));
        }
    }
    Ok(None)
}

impl Whole {
    /// Its TCP segment, behind all heads that are read.
    pub fn read_segment(&self) -> Result<Segment<'_>, Unread>
        ensures ok { IfOk result (λ s. segment_of_whole self.now ≡ Ok (value_of s)) }
        ensures err { IfErr result (λ why. segment_of_whole self.now ≡ Err why) }
    {
        let head = match self.source {
            Address::V4(_) => head_of(self.protocol),
            Address::V6(_, _) => next_head_of(self.protocol),
        };
        let Some(head) = head else {
            return Err(Unread::OtherProtocol);
        };
        last_segment(
            self.octets.as_slice(),
            Layer {
                head,
                start: 0,
                until: self.octets.len(),
                source: self.source,
                destination: self.destination,
            },
        )
    }
}
