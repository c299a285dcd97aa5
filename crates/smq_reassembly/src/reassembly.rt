//! A direction, as its segments come.
ghost use Rattle.std.specs.Prelude.{◌≡◌, ◌+◌, ◌<◌, ◌≤◌, ◌^◌, ◌++◌, ◌∷◌, [], ℕ, List, IfOk, OnOk, OnErr, IfSome, IsSome, MatchOption, None, Some, length, true, false, ◌↔◌, IsTrue, min, max};
ghost use Rattle.smq_reassembly.specs.Octet.{Octet, octets_of};
ghost use Rattle.smq_reassembly.specs.Piece.{AreApart, Piece, first_octet, first_packet, first_place, octet_in, octets_in};
ghost use Rattle.smq_reassembly.specs.Moment.{IsGiven, Start};
ghost use Rattle.smq_reassembly.specs.Segment.{Changes, IsTooFarAhead, came, octets_given, piece_of};
ghost use Rattle.smq_reassembly.specs.Sequence.{IsPlace};
ghost use Rattle.smq_reassembly.specs.State.{Follows, State};
ghost use Rattle.smq_reassembly.specs.Stream.{IsGap};

use crate::packet::{Packet, later_of};
use crate::sequence::{Place, place_of};
use crate::waiting::Waiting;
use std::alloc::{AllocError, Global};
use std::marker::Model;

/// The most octets of a direction, 2 to the power 60.
pub const LONGEST: u64 = 1_152_921_504_606_846_976;

/// How many octets from the next one on are kept, 16 MiB: more than the windows in use have, also scaled ones (RFC 7323, 2). What ends
/// further ahead is no segment that the other end would take.
pub const WINDOW: u64 = 16_777_216;

/// A direction: the place of its next octet, with which packet the last was given, and what waits behind octets that didn't come yet.
#[derive(Drop)]
pub struct Reassembly {
    next: u64,
    last: Packet,
    waiting: Waiting,
}

/// Octets of a segment that are the next of their direction.
#[derive(Clone, Copy)]
pub struct Next<'a> {
    /// The packet with which they are given, its moment raised to that of the octet before.
    pub packet: Packet,
    /// Whether the first of them is the first of the segment.
    pub begins: bool,
    pub octets: &'a [u8],
}

/// Octets of one packet that waited, and are now the next of their direction.
#[derive(Drop)]
pub struct Part {
    /// The packet with which they are given, its moment raised to that of the octet before.
    pub packet: Packet,
    /// Whether the first of them is the first of its segment.
    pub begins: bool,
    pub octets: Vec<u8>,
}

/// What becomes of a segment.
#[derive(Clone, Copy)]
pub enum Taken<'a> {
    /// These octets are the next. Others may follow them at once: `next_part` has them.
    Lends(Next<'a>),
    /// Some octets are new, and wait.
    Waits,
    /// No octet is new.
    Repeats,
    /// It ends further ahead than `WINDOW`, or behind `LONGEST`, and isn't kept.
    TooFarAhead,
}

impl Model for Reassembly {
    ghost use Rattle.std.specs.Prelude.{◌≤◌, ◌^◌};
    ghost use Rattle.smq_reassembly.specs.State.{State};
    ghost use Rattle.smq_reassembly.specs.within.Chain.{IsChain, pieces_of};

    ghost Value = { State };

    ghost view = { λ r. record { next = r.next; last = r.last; waiting = pieces_of r.waiting } };

    ghost invariant = { λ r. (r.next ≤ 2 ^ 60) × IsChain r.next r.waiting };
}

impl Reassembly {
    /// A direction of which nothing came.
    pub fn new(alloc: Global) -> Reassembly
        ensures { Follows [] (record { place = 0; moment = 0 }) [] result }
    {
        Reassembly {
            next: 0,
            last: Packet {
                number: 0,
                moment: 0,
            },
            waiting: Waiting::new(alloc),
        }
    }

    /// The place of the next octet: how many stand before it.
    pub fn next(&self) -> u64
        ensures value { result ≡ self.now.next }
        ensures most { result ≤ 2 ^ 60 }
    {
        self.next
    }

    /// How many octets wait.
    pub fn waiting_octets(&self) -> u64
        ensures count { result ≡ octets_in self.now.waiting }
        ensures once { AreApart self.now.next self.now.waiting }
    {
        self.waiting.octets()
    }

    /// In how many pieces they wait, each with some hundred octets of memory beside its own.
    pub fn waiting_pieces(&self) -> usize
        ensures { result ≡ length self.now.waiting }
    {
        self.waiting.pieces()
    }

    /// The place of the first octet that waits.
    pub fn first_waiting(&self) -> Option<u64>
        ensures { result ≡ first_place self.now.waiting }
    {
        self.waiting.first()
    }

    /// The packet that brought the first octet that waits.
    pub fn first_waiting_packet(&self) -> Option<Packet>
        ensures { result ≡ first_packet self.now.waiting }
    {
        self.waiting.first_packet()
    }

    /// Lets go of what waits.
    pub fn let_go(&mut self)
        ensures next { self.new.next ≡ self.old.next }
        ensures last { self.new.last ≡ self.old.last }
        ensures none { self.new.waiting ≡ [] }
    {
        self.waiting.clear();
    }

    /// Takes the octets of a segment, by the sequence number of its first octet and that of the direction's (RFC 9293, 3.4: a SYN takes
    /// a number, too, so that the first octet has the one after it; that of a FIN stands behind the last octet). The only error is that
    /// memory ran out: then a part of the octets may wait, and none is given.
    pub fn take_segment<'a>(
        &mut self,
        alloc: Global,
        first: u32,
        sequence: u32,
        packet: Packet,
        octets: &'a [u8],
    ) -> Result<Taken<'a>, AllocError>
        ensures stands { (place : Place) × IsPlace first self.old.next sequence place }
        ensures takes { (pieces : List Piece) (start : Start) (given : List Octet) (place : Place)
            → IsPlace first self.old.next sequence place → Follows pieces start given self.old
            → IfOk result (λ taken.
            Follows (came taken pieces (piece_of place self.old.next packet octets.now))
            start (given ++ octets_given taken) self.new) }
        ensures far { (place : Place) → IsPlace first self.old.next sequence place
            → IfOk result (λ taken. (taken ≡ Taken.TooFarAhead)
            ↔ IsTooFarAhead self.old.next (piece_of place self.old.next packet octets.now)) }
        ensures changes { IfOk result (λ taken. Changes taken self.old self.new) }
        ensures stays { (n : ℕ) (o : Octet) → first_octet self.old.waiting n ≡ Some o
            → first_octet self.new.waiting n ≡ Some o }
        ensures next { OnOk result (first_octet self.new.waiting self.new.next
            ≡ first_octet self.old.waiting self.new.next) }
        ensures err { OnErr result ((self.new.next ≡ self.old.next) × (self.new.last ≡ self.old.last)) }
    {
        let place = place_of(first, self.next, sequence);
        let (at, begins, octets) = from_next(self.next, place, octets);
        if is_too_far(self.next, at, octets.len()) {
            return Ok(Taken::TooFarAhead);
        }
        self.take_at(alloc, at, begins, packet, octets)
    }

    /// The next octets of those that waited, as one packet brought them.
    pub fn next_part(&mut self) -> Option<Part>
        ensures some { (pieces : List Piece) (start : Start) (given : List Octet)
            → Follows pieces start given self.old
            → IfSome result (λ part. Follows pieces start
            (given ++ octets_of part.packet part.begins part.octets.items) self.new) }
        ensures none { (pieces : List Piece) (start : Start) (given : List Octet)
            → Follows pieces start given self.old
            → result ≡ None → IsGiven pieces start given }
        ensures fewer { IfSome result (λ part. (0 < length part.octets.items)
            × (self.new.next ≡ self.old.next + length part.octets.items)
            × (octets_in self.old.waiting ≡ octets_in self.new.waiting + length part.octets.items)) }
        ensures same { result ≡ None → self.new ≡ self.old }
    {
        let (end, held) = self.waiting.take_at(self.next)?;
        self.last = later_of(self.last, held.packet);
        self.next = end;
        Some(Part {
            packet: self.last,
            begins: held.begins,
            octets: held.octets,
        })
    }

    /// Gives up what is missing before the octets that wait: the stream begins anew with the first of them, of which `next_part` has
    /// the octets. Its place.
    pub fn skip_gap(&mut self) -> Option<u64>
        ensures some { (pieces : List Piece) (start : Start) (given : List Octet)
            → Follows pieces start given self.old
            → IfSome result (λ place. IsGap pieces self.old.next place
            × Follows pieces (record { place = place; moment = self.old.last.moment }) [] self.new) }
        ensures keeps { IfSome result (λ place. (self.new.next ≡ place)
            × (self.new.waiting ≡ self.old.waiting)) }
        ensures none { result ≡ None → (self.new ≡ self.old) × (self.old.waiting ≡ []) }
    {
        let place = self.waiting.first()?;
        self.next = place;
        self.last = Packet {
            number: 0,
            moment: self.last.moment,
        };
        Some(place)
    }

    /// Takes octets that end within the window.
    fn take_at<'a>(
        &mut self,
        alloc: Global,
        at: u64,
        begins: bool,
        packet: Packet,
        octets: &'a [u8],
    ) -> Result<Taken<'a>, AllocError>
        requires ahead { self.old.next ≤ at }
        requires end { at + length octets.now ≤ 2 ^ 60 }
        ensures takes { (pieces : List Piece) (start : Start) (given : List Octet) (piece : Piece)
            → ((n : ℕ) → self.old.next ≤ n → octet_in piece n
            ≡ octet_in (record { at = at; octets = octets_of packet begins octets.now }) n)
            → Follows pieces start given self.old
            → IfOk result (λ taken. Follows (pieces ++ piece ∷ []) start (given ++ octets_given taken) self.new) }
        ensures near { IfOk result (λ taken. taken ≡ Taken.TooFarAhead → ⊥) }
        ensures changes { IfOk result (λ taken. Changes taken self.old self.new) }
        ensures stays { (n : ℕ) (o : Octet) → first_octet self.old.waiting n ≡ Some o
            → first_octet self.new.waiting n ≡ Some o }
        ensures next { OnOk result (first_octet self.new.waiting self.new.next
            ≡ first_octet self.old.waiting self.new.next) }
        ensures err { OnErr result ((self.new.next ≡ self.old.next) × (self.new.last ≡ self.old.last)) }
    {
        if at == self.next {
            let until = self.missing_until(at + octets.len() as u64);
            if until > at {
                return self.lend(alloc, begins, packet, octets, (until - at) as usize);
            }
        }
        self.wait(alloc, at, begins, packet, octets)
    }

    /// How far none of the next octets waits, up to a place.
    fn missing_until(&self, end: u64) -> u64
        requires { self.now.next ≤ end }
        ensures low { self.now.next ≤ result }
        ensures high { result ≤ end }
        ensures none { (n : ℕ) → self.now.next ≤ n → n < result → first_octet self.now.waiting n ≡ None }
        ensures full { result < end → IsSome (first_octet self.now.waiting result) }
    {
        let _ = &self.next;
        let Some(first) = self.waiting.first() else {
            return end;
        };
        first.min(end)
    }

    /// Gives so many octets, which are the next, and keeps those behind them.
    fn lend<'a>(
        &mut self,
        alloc: Global,
        begins: bool,
        packet: Packet,
        octets: &'a [u8],
        count: usize,
    ) -> Result<Taken<'a>, AllocError>
        requires some { 0 < count }
        requires whole { count ≤ length octets.now }
        requires end { self.old.next + length octets.now ≤ 2 ^ 60 }
        requires none { (n : ℕ) → self.old.next ≤ n → n < self.old.next + count
            → first_octet self.old.waiting n ≡ None }
        requires full { count < length octets.now
            → IsSome (first_octet self.old.waiting (self.old.next + count)) }
        ensures takes { (pieces : List Piece) (start : Start) (given : List Octet) (piece : Piece)
            → ((n : ℕ) → self.old.next ≤ n → octet_in piece n
            ≡ octet_in (record { at = self.old.next; octets = octets_of packet begins octets.now }) n)
            → Follows pieces start given self.old
            → IfOk result (λ taken. Follows (pieces ++ piece ∷ []) start (given ++ octets_given taken) self.new) }
        ensures near { IfOk result (λ taken. taken ≡ Taken.TooFarAhead → ⊥) }
        ensures changes { IfOk result (λ taken. Changes taken self.old self.new) }
        ensures stays { (n : ℕ) (o : Octet) → first_octet self.old.waiting n ≡ Some o
            → first_octet self.new.waiting n ≡ Some o }
        ensures next { OnOk result (first_octet self.new.waiting self.new.next
            ≡ first_octet self.old.waiting self.new.next) }
        ensures err { OnErr result ((self.new.next ≡ self.old.next) × (self.new.last ≡ self.old.last)) }
    {
        let until = self.next + count as u64;
        let (front, back) = octets.split_at(count);
        self.waiting.keep(alloc, until, false, packet, back)?;
        self.last = later_of(self.last, packet);
        self.next = until;
        Ok(Taken::Lends(Next {
            packet: self.last,
            begins,
            octets: front,
        }))
    }

    /// Keeps octets that aren't the next.
    fn wait<'a>(
        &mut self,
        alloc: Global,
        at: u64,
        begins: bool,
        packet: Packet,
        octets: &'a [u8],
    ) -> Result<Taken<'a>, AllocError>
        requires ahead { self.old.next ≤ at }
        requires end { at + length octets.now ≤ 2 ^ 60 }
        requires full { at ≡ self.old.next → 0 < length octets.now
            → IsSome (first_octet self.old.waiting self.old.next) }
        ensures takes { (pieces : List Piece) (start : Start) (given : List Octet) (piece : Piece)
            → ((n : ℕ) → self.old.next ≤ n → octet_in piece n
            ≡ octet_in (record { at = at; octets = octets_of packet begins octets.now }) n)
            → Follows pieces start given self.old
            → IfOk result (λ taken. Follows (pieces ++ piece ∷ []) start (given ++ octets_given taken) self.new) }
        ensures near { IfOk result (λ taken. taken ≡ Taken.TooFarAhead → ⊥) }
        ensures changes { IfOk result (λ taken. Changes taken self.old self.new) }
        ensures stays { (n : ℕ) (o : Octet) → first_octet self.old.waiting n ≡ Some o
            → first_octet self.new.waiting n ≡ Some o }
        ensures next { OnOk result (first_octet self.new.waiting self.new.next
            ≡ first_octet self.old.waiting self.new.next) }
        ensures err { OnErr result ((self.new.next ≡ self.old.next) × (self.new.last ≡ self.old.last)) }
    {
        let any = self.waiting.keep(alloc, at, begins, packet, octets)?;
        Ok(if any { Taken::Waits } else { Taken::Repeats })
    }
}

/// Whether so many octets at a place end behind the window, or behind the last place.
fn is_too_far(next: u64, at: u64, count: usize) -> bool
    requires { next ≤ 2 ^ 60 }
    ensures { IsTrue result ↔ (min (next + WINDOW) LONGEST < at + count) }
{
    let limit = (next + WINDOW).min(LONGEST);
    at > limit || count as u64 > limit - at
}

/// The octets of a segment that aren't before the next one: the place of the first, and whether it is the first of the segment.
fn from_next(next: u64, place: Place, octets: &[u8]) -> (u64, bool, &[u8])
    requires room { next ≤ 2 ^ 60 }
    requires some { (far : ℕ) → place ≡ Place.Behind far → 0 < far }
    ensures ahead { next ≤ result.0 }
    ensures same { (packet : Packet) (n : ℕ) → next ≤ n → octet_in (piece_of place next packet octets.now) n
        ≡ octet_in (record { at = result.0; octets = octets_of packet result.1 result.2.now }) n }
    ensures end { (packet : Packet) → result.0 + length result.2.now
        ≡ max next ((piece_of place next packet octets.now).at + length (piece_of place next packet octets.now).octets) }
{
    match place {
        Place::Ahead(far) => (next + far as u64, true, octets),
        Place::Behind(far) => {
            let count = octets.len().min(far as usize);
            (next, false, octets.split_at(count).1)
        }
    }
}
