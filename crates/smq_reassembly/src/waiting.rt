//! What waits behind octets that didn't come yet.
ghost use Rattle.std.specs.Prelude.{◌≡◌, ℕ, ◌+◌, ◌<◌, ◌≤◌, ◌^◌, ◌∷◌, [], IsTrue, IfOk, OnOk, OnErr, MatchOption, None, Some, length, find, true, false, nat_lt, IsSome};
ghost use Rattle.std.specs.Option.{option_map, option_or};
ghost use Rattle.std.specs.Map.Iter.{deref_pair};
ghost use Rattle.smq_reassembly.specs.Octet.{Octet, octets_of};
ghost use Rattle.smq_reassembly.specs.Piece.{first_octet, first_packet, first_place, octet_in, octets_in};
ghost use Rattle.smq_reassembly.specs.within.Chain.{AllWait, IsChain, IsKept, piece_of_entry, pieces_of};

use crate::packet::Packet;
use std::alloc::{AllocError, Global};
use std::collections::BTreeMap;
use std::marker::Model;
use std::ops::Bound;

/// Octets of a packet that wait.
#[derive(Drop)]
pub(crate) struct Held {
    pub(crate) begins: bool,
    pub(crate) packet: Packet,
    pub(crate) octets: Vec<u8>,
}

/// Octets that wait, each once: how many, and pieces of them by the place after the last octet.
#[derive(Drop)]
pub(crate) struct Waiting {
    octets: u64,
    pieces: BTreeMap<u64, Held>,
}

impl Model for Waiting {
    ghost use Rattle.smq_reassembly.specs.declared.waiting.Held.{Held};
    ghost use Rattle.smq_reassembly.specs.within.Chain.{IsKept};
    ghost use Rattle.std.specs.Prelude.{ℕ, List};

    ghost Value = { List (ℕ × Held) };

    ghost view = { λ w. w.pieces.entries };

    ghost invariant = { λ w. IsKept w.octets w.pieces.entries };
}

/// Octets from a place up to another: they wait, or none of them does.
#[derive(Clone, Copy)]
enum Run {
    Waits(u64),
    Misses(u64),
}

impl Waiting {
    /// Nothing waits.
    pub(crate) fn new(alloc: Global) -> Waiting
        ensures { result ≡ [] }
    {
        Waiting {
            octets: 0,
            pieces: BTreeMap::new(alloc),
        }
    }

    /// How many octets wait.
    pub(crate) fn octets(&self) -> u64
        ensures { result ≡ octets_in (pieces_of self.now) }
    {
        self.octets
    }

    /// In how many pieces they wait.
    pub(crate) fn pieces(&self) -> usize
        ensures { result ≡ length self.now }
    {
        self.pieces.len()
    }

    /// The place of the first octet that waits.
    pub(crate) fn first(&self) -> Option<u64>
        ensures { result ≡ first_place (pieces_of self.now) }
    {
        let (end, held) = self.pieces.first_key_value()?;
        Some(*end - held.octets.len() as u64)
    }

    /// The packet of the first piece.
    pub(crate) fn first_packet(&self) -> Option<Packet>
        ensures { result ≡ first_packet (pieces_of self.now) }
    {
        let (_, held) = self.pieces.first_key_value()?;
        Some(held.packet)
    }

    /// Lets go of all.
    pub(crate) fn clear(&mut self)
        ensures { self.new ≡ [] }
    {
        self.pieces.clear();
        self.octets = 0;
    }

    /// Takes the first piece out, if it begins at a place. The place after it comes first.
    pub(crate) fn take_at(&mut self, place: u64) -> Option<(u64, Held)>
        ensures none { result ≡ None →
            (self.new ≡ self.old)
            × (first_place (pieces_of self.old) ≡ Some place → ⊥) }
        ensures some { (r : ℕ × _) → result ≡ Some r →
            (self.old ≡ r ∷ self.new)
            × (first_place (pieces_of self.old) ≡ Some place) }
    {
        if self.first() != Some(place) {
            return None;
        }
        let (end, held) = self.pieces.pop_first()?;
        self.octets -= held.octets.len() as u64;
        Some((end, held))
    }

    /// Keeps the octets of a packet that don't wait yet, and tells whether there were any.
    pub(crate) fn keep(
        &mut self,
        alloc: Global,
        at: u64,
        begins: bool,
        packet: Packet,
        octets: &[u8],
    ) -> Result<bool, AllocError>
        requires end { at + length octets.now ≤ 2 ^ 60 }
        ensures brings { OnOk result ((n : ℕ) → first_octet (pieces_of self.new) n
            ≡ option_or (first_octet (pieces_of self.old) n)
            (octet_in (record { at = at; octets = octets_of packet begins octets.now }) n)) }
        ensures apart { (from : ℕ) → from ≤ at
            → IsChain from self.old → IsChain from self.new }
        ensures stays { (n : ℕ) (o : Octet) → first_octet (pieces_of self.old) n ≡ Some o
            → first_octet (pieces_of self.new) n ≡ Some o }
        ensures same { IfOk result (λ any. any ≡ false → self.new ≡ self.old) }
        ensures more { IfOk result (λ any. any ≡ true →
            octets_in (pieces_of self.old) < octets_in (pieces_of self.new)) }
    {
        let end = at + octets.len() as u64;
        let mut place = at;
        let mut any = false;
        'runs: while place < end {
            match self.run_at(place, end) {
                Run::Waits(until) => place = until,
                Run::Misses(until) => {
                    let part = &octets[(place - at) as usize..(until - at) as usize];
                    self.put(alloc, place, begins && place == at, packet, part)?;
                    place = until;
                    any = true;
                }
            }
        }
        Ok(any)
    }

    /// How far octets wait from a place on, or else how far none does, up to another place.
    fn run_at(&self, place: u64, end: u64) -> Run
        requires { place < end }
        ensures waits { (until : ℕ) → result ≡ Run.Waits until →
            (place < until) × AllWait (pieces_of self.now) place until }
        ensures misses { (until : ℕ) → result ≡ Run.Misses until →
            (place < until) × (until ≤ end)
            × ((n : ℕ) → place ≤ n → n < until → first_octet (pieces_of self.now) n ≡ None) }
    {
        let Some((until, held)) = piece_after(&self.pieces, &place) else {
            return Run::Misses(end);
        };
        let start = *until - held.octets.len() as u64;
        if start <= place {
            Run::Waits(*until)
        } else if start < end {
            Run::Misses(start)
        } else {
            Run::Misses(end)
        }
    }

    /// Keeps octets of a packet where none wait.
    fn put(
        &mut self,
        alloc: Global,
        at: u64,
        begins: bool,
        packet: Packet,
        octets: &[u8],
    ) -> Result<(), AllocError>
        requires some { 0 < length octets.now }
        requires end { at + length octets.now ≤ 2 ^ 60 }
        requires free { (n : ℕ) → at ≤ n → n < at + length octets.now
            → first_octet (pieces_of self.old) n ≡ None }
        ensures brings { OnOk result ((n : ℕ) → first_octet (pieces_of self.new) n
            ≡ option_or (first_octet (pieces_of self.old) n)
            (octet_in (record { at = at; octets = octets_of packet begins octets.now }) n)) }
        ensures apart { (from : ℕ) → from ≤ at
            → IsChain from self.old → IsChain from self.new }
        ensures more { OnOk result (octets_in (pieces_of self.new)
            ≡ octets_in (pieces_of self.old) + length octets.now) }
        ensures err { OnErr result (self.new ≡ self.old) }
    {
        let octets = Vec::from_slice(alloc, octets)?;
        let count = octets.len() as u64;
        self.pieces.insert(
            at + count,
            Held {
                begins,
                packet,
                octets,
            },
        )?;
        self.octets += count;
        Ok(())
    }
}

/// The first piece that ends after a place.
fn piece_after<'a>(pieces: &'a BTreeMap<u64, Held>, place: &u64) -> Option<(&'a u64, &'a Held)>
    ensures { option_map deref_pair result ≡ find (λ e. nat_lt place.now e.0) pieces.now.entries }
{
    pieces
        .range((Bound::Excluded(place), Bound::Unbounded))
        .next()
}
