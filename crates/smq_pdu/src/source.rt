//! The address that a message comes from (SMPP 3.4, 5.2.8).
ghost use Rattle.std.specs.Prelude.{◌≡◌, ◌≤◌, length};
ghost use Rattle.smq_pdu.specs.Sources.{source_in};

use arrayvec::ArrayVec;
use std::marker::Model;

/// How many octets a submit_sm's source_addr may have: 20, with its closing NUL 21 (SMPP 3.4, 4.4.1).
pub const LONGEST_SOURCE: usize = 20;

/// A source_addr of 1 to `LONGEST_SOURCE` octets, without its closing NUL. A contract sees the octets, by which sources are ordered.
#[derive(Clone, Debug, PartialEq, Eq, PartialOrd, Ord, Drop)]
pub struct SourceAddress {
    octets: ArrayVec<u8, 20>,
}

impl Model for SourceAddress {
    ghost use Rattle.std.specs.Prelude.{ℕ, ◌≤◌, List, length};

    ghost Value = { List ℕ };

    ghost view = { λ source. source.octets.items };

    ghost invariant = { λ source. (1 ≤ length source.octets.items) × (length source.octets.items ≤ 20) };

    ghost inverse = { λ octets. record { octets = record { items = octets } } };
}

impl SourceAddress {
    /// Takes the octets of a source_addr. None where they are empty, or more than `LONGEST_SOURCE`.
    #[tactic(auto, unfolding(crate::specs::Sources::source_in))]
    pub fn new(text: &[u8]) -> Option<SourceAddress>
        ensures { result ≡ source_in text.now }
    {
        let mut octets = ArrayVec::new();
        if text.is_empty() || octets.try_extend_from_slice(text).is_err() {
            return None;
        }
        Some(SourceAddress { octets })
    }

    /// The octets.
    pub fn as_slice(&self) -> &[u8]
        ensures value { result.now ≡ self.now }
        ensures not_empty { 1 ≤ length self.now }
        ensures in_range { length self.now ≤ LONGEST_SOURCE }
    {
        self.octets.as_slice()
    }

    /// An equal address. It takes no memory.
    pub fn copy(&self) -> SourceAddress
        ensures { result ≡ self.now }
    {
        let mut octets = ArrayVec::new();
        let _ = octets.try_extend_from_slice(self.octets.as_slice());
        SourceAddress { octets }
    }
}
