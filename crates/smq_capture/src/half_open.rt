//! Connections that are about to begin: a SYN that wasn't answered yet, or the answer to one that wasn't captured.
ghost use Rattle.std.specs.Prelude.{◌≡◌, ◌↔◌, ◌⊎◌, IfSome, IsTrue, length, Some};
ghost use Rattle.smq_capture.specs.Beginning.{Answers, IsConfirmed};

use crate::numbers::{is_ahead, reaches};
use smq_packets::End;
use std::alloc::{AllocError, Global};

/// The most octets of a SYN that are kept.
const MOST_OF_SYN: usize = 2_048;

/// A SYN: its packet, its number, and the octets that came with it.
#[derive(Drop)]
pub(crate) struct Syn {
    pub number: u64,
    pub moment: u64,
    pub sequence: u32,
    pub octets: Vec<u8>,
}

/// An answer to a SYN: its packet, its number, and what it acknowledges.
#[derive(Clone, Copy)]
pub(crate) struct Answer {
    pub number: u64,
    pub sequence: u32,
    pub acknowledged: u32,
}

/// What is known of a connection that is about to begin: the end that calls, its first SYN and its newest, and the newest answer.
#[derive(Drop)]
pub(crate) struct HalfOpen {
    pub caller: End,
    pub first: Option<Syn>,
    pub newest: Option<Syn>,
    pub answer: Option<Answer>,
}

impl Syn {
    /// A SYN of a packet. Of more octets than 2,048 none are kept.
    pub(crate) fn new(
        alloc: Global,
        number: u64,
        moment: u64,
        sequence: u32,
        octets: &[u8],
    ) -> Result<Syn, AllocError> {
        let octets = if octets.len() > MOST_OF_SYN {
            Vec::new(alloc)
        } else {
            Vec::from_slice(alloc, octets)?
        };
        Ok(Syn {
            number,
            moment,
            sequence,
            octets,
        })
    }

    /// Whether an answer that acknowledges a number answers it: its number, and all or a part of its octets.
    pub(crate) fn is_answered(&self, acknowledged: u32) -> bool
        ensures { IsTrue result ↔ Answers self.now.sequence (length self.now.octets.items) acknowledged }
    {
        reaches(
            self.sequence.wrapping_add(1),
            acknowledged,
            self.octets.len() as u64,
        )
    }
}

impl Answer {
    /// Whether a segment of the end that called, with these numbers, shows that it had this answer.
    pub(crate) fn is_confirmed(&self, sequence: u32, acknowledged: u32) -> bool
        ensures { IsTrue result ↔ IsConfirmed self.now sequence acknowledged }
    {
        is_ahead(self.acknowledged, sequence)
            && is_ahead(self.sequence.wrapping_add(1), acknowledged)
    }
}

impl HalfOpen {
    /// Of an end that calls nothing is known.
    pub(crate) fn new(caller: End) -> HalfOpen {
        HalfOpen {
            caller,
            first: None,
            newest: None,
            answer: None,
        }
    }

    /// Takes a SYN of the end that calls.
    pub(crate) fn take_syn(&mut self, syn: Syn) {
        match &self.first {
            None => self.first = Some(syn),
            Some(first) if first.sequence == syn.sequence => {}
            Some(_) => self.newest = Some(syn),
        }
    }

    /// The SYN that an answer with this acknowledged number answers, if it came.
    pub(crate) fn answered(self, acknowledged: u32) -> Option<Syn>
        ensures answers { IfSome result (λ syn. Answers syn.sequence (length syn.octets.items) acknowledged) }
        ensures came { IfSome result (λ syn. (self.first ≡ Some syn) ⊎ (self.newest ≡ Some syn)) }
    {
        let HalfOpen {
            caller: _,
            first,
            newest,
            answer: _,
        } = self;
        if let Some(syn) = newest {
            if syn.is_answered(acknowledged) {
                return Some(syn);
            }
        }
        match first {
            Some(syn) if syn.is_answered(acknowledged) => Some(syn),
            _ => None,
        }
    }

    /// Whether a SYN that came is answered by this acknowledged number.
    pub(crate) fn is_answered(&self, acknowledged: u32) -> bool {
        is_answered(&self.first, acknowledged) || is_answered(&self.newest, acknowledged)
    }
}

/// Whether a SYN came that is answered by this acknowledged number.
fn is_answered(syn: &Option<Syn>, acknowledged: u32) -> bool {
    match syn {
        Some(syn) => syn.is_answered(acknowledged),
        None => false,
    }
}
