//! How far the octets of a direction had come with each packet, as long as the other direction waits.
ghost use Rattle.std.specs.Prelude.{◌≡◌, ℕ, ◌*◌, ◌-◌, ◌^◌, ◌≤◌, [], List, length, max, min, OnOk, OnErr};
ghost use Rattle.std.specs.List.Sorted.{IsNonDecreasingBy};
ghost use Rattle.smq_capture.specs.declared.tops.Top.{Top};
ghost use Rattle.smq_capture.specs.Tops.{Brought, IsWatched, last_noted, noted_before, top_before, top_of, with_note};

use std::alloc::{AllocError, Global};
use std::collections::VecDeque;
use std::marker::Model;

/// A packet that brought octets, and the place behind all that those before it had brought.
#[derive(Clone, Copy)]
pub(crate) struct Top {
    pub(crate) number: u64,
    pub(crate) before: u64,
}

/// Packets of a direction that brought octets, in the order in which they came.
#[derive(Drop)]
pub(crate) struct Tops {
    tops: VecDeque<Top>,
}

impl Model for Tops {
    ghost use Rattle.std.specs.Prelude.{List};
    ghost use Rattle.std.specs.List.Sorted.{IsNonDecreasingBy};
    ghost use Rattle.smq_capture.specs.declared.tops.Top.{Top};

    ghost Value = { List Top };

    ghost view = { λ t. t.tops.items };

    ghost invariant = { λ t. IsNonDecreasingBy (λ (top : Top). top.number) t.tops.items };
}

impl Tops {
    /// None.
    pub(crate) fn new(alloc: Global) -> Tops
        ensures { result ≡ [] }
    {
        Tops {
            tops: VecDeque::new(alloc),
        }
    }

    /// Forgets all.
    pub(crate) fn clear(&mut self)
        ensures { self.new ≡ [] }
    {
        self.tops.clear();
    }

    /// Takes note of a packet that brought the octets up to the top, where some are behind all that those before it had brought.
    pub(crate) fn note(&mut self, number: u64, before: u64, top: u64) -> Result<(), AllocError>
        ensures ok { OnOk result (self.new ≡ with_note number before top self.old) }
        ensures err { OnErr result (self.new ≡ self.old) }
    {
        if before >= top {
            return Ok(());
        }
        let number = counted(&self.tops, number);
        Ok(self.tops.push_back(Top { number, before })?)
    }

    /// The place behind all octets that packets before one have, where all have those up to the top. Of packets that came before the
    /// first of these it tells no two apart.
    pub(crate) fn before(&self, number: u64, top: u64) -> u64
        ensures value { result ≡ noted_before number top self.now }
        ensures tells { (from : ℕ) (packets : List Brought) → IsWatched from packets self.now → top ≡ top_of packets
            → from ≤ number → result ≡ top_before number packets }
        ensures early { (from : ℕ) (packets : List Brought) → IsWatched from packets self.now → top ≡ top_of packets
            → number ≤ from → (top_before number packets ≤ result) × (result ≤ top_before from packets) }
    {
        let first = self.tops.partition_point(|top| top.number < number);
        match self.tops.get(first) {
            Some(found) => found.before,
            None => top,
        }
    }

    /// How much memory they take, at most.
    pub(crate) fn weight(&self) -> u64
        ensures { result ≡ min (16 * length self.now) (2 ^ 64 - 1) }
    {
        (self.tops.len() as u64).saturating_mul(16)
    }
}

/// The number by which a packet counts behind others: its own, or theirs where that is greater.
fn counted(tops: &VecDeque<Top>, number: u64) -> u64
    ensures { IsNonDecreasingBy (λ (t : Top). t.number) tops.now.items → result ≡ max (last_noted tops.now.items) number }
{
    match tops.back() {
        Some(last) => last.number.max(number),
        None => number,
    }
}
