//! Where the PDUs of a direction end.
ghost use Rattle.std.specs.Prelude.{◌≡◌, ℕ, ◌+◌, ◌<◌, ◌≤◌, ◌++◌, ◌∷◌, [], List, MatchOption, length, take};
ghost use Rattle.smq_streams.specs.Framing.{Cuts, IsFramed, IsNextPdu, IsUnderWay};
ghost use Rattle.smq_streams.specs.Sight.{IsFirstPdu};

use crate::headers::{first_pdu, is_length};

/// What is known of the PDU at the end of a direction.
#[derive(Clone, Copy)]
pub enum Framer {
    /// So many octets of the next length, and their number.
    Length { count: u32, number: u32 },
    /// One octet of the PDU and so many more are left.
    Left(u64),
    /// A length that can't be.
    Broken,
}

impl Framer {
    /// Before the first octet.
    pub fn new() -> Framer
        ensures start { IsFramed [] result }
        ensures none { IsUnderWay [] result }
    {
        Framer::Length {
            count: 0,
            number: 0,
        }
    }

    /// Takes octets.
    pub fn feed(&mut self, octets: &[u8])
        ensures { (before : List ℕ) → IsFramed before self.old → IsFramed (before ++ octets.now) self.new }
    {
        let mut at: usize = 0;
        while at < octets.len() {
            at += self.take(&octets[at..]);
        }
    }

    /// Takes some octets of those that follow. How many.
    fn take(&mut self, octets: &[u8]) -> usize
        requires { 0 < length octets.now }
        ensures some { 0 < result }
        ensures most { result ≤ length octets.now }
        ensures takes { (before : List ℕ) → IsFramed before self.old
            → IsFramed (before ++ take result octets.now) self.new }
    {
        match *self {
            Framer::Broken => octets.len(),
            Framer::Left(left) => {
                let length = octets.len() as u64;
                if length <= left {
                    *self = Framer::Left(left - length);
                    octets.len()
                } else {
                    *self = Framer::new();
                    left as usize + 1
                }
            }
            Framer::Length { count, number } => {
                *self = with_octet(count, number, octets[0]);
                1
            }
        }
    }

    /// Where the first PDU begins in the octets that follow, if any does: behind the one that is under way, or, where its length can't
    /// be, where one is seen to begin.
    pub fn next_pdu(self, octets: &[u8]) -> Option<usize>
        ensures broken { self ≡ Framer.Broken → IsFirstPdu octets.now result }
        ensures behind { (rest : List ℕ) → IsUnderWay rest self → (self ≡ Framer.Broken → ⊥)
            → IsNextPdu rest octets.now result }
    {
        match self {
            Framer::Broken => first_pdu(octets),
            Framer::Left(left) => behind(0, left, octets.len()),
            Framer::Length { count, number } => first_behind(count, number, octets),
        }
    }
}

/// The place behind so many octets, so many more and one, if an octet is there.
fn behind(at: usize, left: u64, length: usize) -> Option<usize>
    requires { at ≤ length }
    ensures { MatchOption result (length ≤ at + (left + 1)) (λ place. (place ≡ at + (left + 1)) × (place < length)) }
{
    let rest = length - at;
    if left < rest as u64 && left as usize + 1 < rest {
        Some(at + (left as usize + 1))
    } else {
        None
    }
}

/// What is known of a PDU with one octet more.
fn with_octet(count: u32, number: u32, octet: u8) -> Framer
    ensures { (rest : List ℕ) → IsUnderWay rest (Framer.Length count number)
        → IsUnderWay (rest ++ octet ∷ []) result }
{
    let number = number.wrapping_mul(256).wrapping_add(octet as u32);
    if count < 3 {
        Framer::Length {
            count: count + 1,
            number,
        }
    } else if is_length(number) {
        Framer::Left(number as u64 - 5)
    } else {
        Framer::Broken
    }
}

/// The place behind a PDU of whose length so many octets are known.
fn first_behind(count: u32, number: u32, octets: &[u8]) -> Option<usize>
    ensures { (rest : List ℕ) → IsUnderWay rest (Framer.Length count number)
        → IsNextPdu rest octets.now result }
{
    if count == 0 {
        return if octets.is_empty() { None } else { Some(0) };
    }
    let mut framer = Framer::Length { count, number };
    for (i, octet) in octets.iter().enumerate() {
        match framer {
            Framer::Length { count, number } => framer = with_octet(count, number, *octet),
            Framer::Left(left) => return behind(i, left, octets.len()),
            Framer::Broken => return None,
        }
    }
    None
}
