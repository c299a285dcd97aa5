//! What is kept of a stream between its pieces.
ghost use Rattle.std.specs.Prelude.{◌≡◌, ◌≤◌, ◌+◌, ◌↔◌, ◌++◌, [], length, None, Some, IfOk, IfSome, IsTrue};
ghost use Rattle.smq_frame.specs.Framing.{IsWaiting};
ghost use Rattle.smq_frame.specs.Tail.{IsTail, tails_equal};
ghost use Rattle.smq_frame.specs.within.Parts.{IsParted};

use crate::framing::{are_same, joined, parted};
use bytes::Bytes;
use std::alloc::{AllocError, Global};
use std::marker::Model;

/// The most octets of one stream, 2 to the power 48.
pub const LONGEST_STREAM: u64 = 281_474_976_710_656;

/// What is kept of a stream between its pieces: the number of octets taken so far, the last of them
/// that are not framed yet, and the offset of a bad length. After a bad length nothing is framed.
/// These last octets, its rest, are kept in two parts, so that a piece is copied together with a
/// few recent octets alone while a long PDU comes.
#[derive(Drop)]
pub struct Tail {
    offset: u64,
    settled: Bytes,
    recent: Bytes,
    broken: Option<u64>,
}

impl Model for Tail {
    ghost use Rattle.std.specs.Prelude.{◌++◌};
    ghost use Rattle.smq_frame.specs.Tail.{TailValue, IsTail};
    ghost use Rattle.smq_frame.specs.within.Parts.{IsParted};

    ghost Value = { TailValue };

    ghost view = { λ t.
        record { offset = t.offset; rest = t.settled ++ t.recent; broken = t.broken } };

    ghost invariant = { λ t.
        IsTail (record { offset = t.offset; rest = t.settled ++ t.recent; broken = t.broken })
        × IsParted t.settled t.recent };
}

impl Tail {
    /// The tail of a stream of which so many octets were taken, all of them framed.
    pub fn at(offset: u64) -> Tail
        ensures { result ≡ (record { offset = offset; rest = []; broken = None }) }
    {
        Tail::waiting(offset, Bytes::new())
    }

    /// The tail of a stream whose last octets wait for more.
    pub(crate) fn waiting(offset: u64, rest: Bytes) -> Tail
        requires within { length rest ≤ offset }
        requires waits { IsWaiting rest }
        ensures { result ≡ (record { offset = offset; rest = rest; broken = None }) }
    {
        let (settled, recent) = parted(rest);
        Tail::in_parts(offset, settled, recent)
    }

    /// The tail of a stream whose last octets, in these parts, wait for more.
    pub(crate) fn in_parts(offset: u64, settled: Bytes, recent: Bytes) -> Tail
        requires within { length (settled ++ recent) ≤ offset }
        requires waits { IsWaiting (settled ++ recent) }
        requires parted { IsParted settled recent }
        ensures { result ≡ (record { offset = offset; rest = settled ++ recent; broken = None }) }
    {
        Tail {
            offset,
            settled,
            recent,
            broken: None,
        }
    }

    /// The tail of a stream that has a bad length at `broken`.
    pub(crate) fn broken_at(offset: u64, broken: u64) -> Tail
        requires { broken + 4 ≤ offset }
        ensures { result ≡ (record { offset = offset; rest = []; broken = Some broken }) }
    {
        Tail {
            offset,
            settled: Bytes::new(),
            recent: Bytes::new(),
            broken: Some(broken),
        }
    }

    /// The number of octets taken so far.
    pub fn offset(&self) -> u64
        ensures { result ≡ self.now.offset }
    {
        self.offset
    }

    /// The octets that wait for more: fewer than four, or fewer than the first four state. They are
    /// copied where they are kept in two parts, and else shared. The only error is that memory ran
    /// out.
    pub fn rest(&self, alloc: Global) -> Result<Bytes, AllocError>
        ensures { IfOk result (λ octets. octets ≡ self.now.rest) }
    {
        joined(alloc, &self.settled, &self.recent)
    }

    /// The number of octets that wait for more.
    pub fn waiting_octets(&self) -> u64
        ensures value { result ≡ length self.now.rest }

        // No whole frame and no bad length stands at the front of the rest.
        ensures kept { IsTail self.now }
    {
        (self.settled.len() + self.recent.len()) as u64
    }

    /// The two parts of the octets that wait for more: the settled ones, and the recent ones.
    pub(crate) fn parts(&self) -> (&Bytes, &Bytes)
        ensures whole { result.0.now ++ result.1.now ≡ self.now.rest }
        ensures parted { IsParted result.0.now result.1.now }
        ensures kept { IsTail self.now }
    {
        (&self.settled, &self.recent)
    }

    /// The offset of the bad length, if there was one. Its four octets have been taken.
    pub fn broken(&self) -> Option<u64>
        ensures value { result ≡ self.now.broken }
        ensures before { IfSome result (λ at. at + 4 ≤ self.now.offset) }
    {
        self.broken
    }

    /// Whether so many octets more are within `LONGEST_STREAM`.
    pub fn has_room(&self, octets: usize) -> bool
        ensures { IsTrue result ↔ (self.now.offset + octets ≤ LONGEST_STREAM) }
    {
        let taken = self.offset;
        let more = octets as u64;
        taken <= LONGEST_STREAM && more <= LONGEST_STREAM - taken
    }

    /// An equal tail. The octets of the rest are shared, not copied.
    pub fn copy(&self) -> Result<Tail, AllocError>
        ensures { IfOk result (λ tail. tail ≡ self.now) }
    {
        Ok(Tail {
            offset: self.offset,
            settled: self.settled.clone()?,
            recent: self.recent.clone()?,
            broken: self.broken,
        })
    }

    /// Whether both are the same tail.
    #[tactic(auto, using(crate::proofs::TailTests::equal_tails))]
    pub fn is_same(&self, other: &Tail) -> bool
        ensures test { result ≡ tails_equal self.now other.now }
        ensures equal { IsTrue result ↔ (self.now ≡ other.now) }
    {
        self.offset == other.offset
            && are_same(
                self.settled.as_slice(),
                self.recent.as_slice(),
                other.settled.as_slice(),
                other.recent.as_slice(),
            )
            && self.broken == other.broken
    }
}
