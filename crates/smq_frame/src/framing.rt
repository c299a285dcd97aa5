//! Whole PDUs cut from the front of a stream's octets, and the two parts in which the rest is kept: its settled octets, and the most
//! recent ones after them.
ghost use Rattle.std.specs.Prelude.{◌≡◌, ◌⊎◌, ◌+◌, ◌^◌, ◌<◌, ◌≤◌, ◌↔◌, ◌++◌, [], length, map, true, false, None, All, MatchOption, IfOk, IsOk, IsSome, IsTrue, nat_eq};
ghost use Rattle.std.specs.Cmp.Lexicographic.{pointwise};
ghost use Rattle.smq_frame.specs.Framing.{stated_length, begins_frame, is_bad, frames_of, rest_of, IsWaiting, IsBad, Splits};
ghost use Rattle.smq_frame.specs.Stream.{placed, frames_after};
ghost use Rattle.smq_frame.specs.Tail.{tail_with, tail_after};
ghost use Rattle.smq_frame.specs.within.Parts.{IsParted};

use crate::{LONGEST_STREAM, Tail};
use bytes::Bytes;
use smq_kit::Moment;
use std::alloc::{AllocError, Global};
use std::marker::Model;

/// The fewest octets of a PDU, which are its header (SMPP 3.4, section 3).
pub const SHORTEST_PDU: u32 = 16;

/// The most octets of a PDU.
pub const LONGEST_PDU: u32 = 131_072;

/// The most octets of a rest that are copied again with a piece before they are settled.
const MOST_RECENT: usize = 512;

/// A whole PDU of 16 to 131,072 octets, whose first four state its own length (SMPP 3.4,
/// section 3).
#[derive(Drop)]
pub struct Frame {
    /// The number of octets before it in its stream.
    pub offset: u64,
    /// The moment of its last octet, in ms since 1970 in UTC.
    pub moment: Moment,
    /// Its octets, header and body.
    pub octets: Bytes,
}

impl Model for Frame {
    ghost use Rattle.smq_frame.specs.Frame.{FrameValue};
    ghost use Rattle.smq_frame.specs.Framing.{IsFrame};

    ghost Value = { FrameValue };

    ghost view = { λ f. record { offset = f.offset; moment = f.moment; octets = f.octets } };

    ghost invariant = { λ f. IsFrame f.octets };
}

/// The frames that a piece completes, each stamped with the piece's moment, and the tail after it.
/// With no rest to go on from, the frames share the piece's octets; else rest and piece are copied
/// together once. While a long PDU comes, only its recent octets are copied with the piece. A bad
/// length is no error: the tail is then broken, and nothing more is framed.
#[tactic(auto, using(crate::proofs::Tails::frames_facts))]
pub fn frames(
    alloc: Global,
    tail: &Tail,
    moment: Moment,
    piece: &Bytes,
) -> Result<(Vec<Frame>, Tail), AllocError>
    requires { tail.now.offset + length piece.now ≤ LONGEST_STREAM }
    ensures frames { IfOk result (λ r. r.0.items ≡ frames_after tail.now moment piece.now) }
    ensures stamped { IfOk result (λ r. All (λ frame. frame.moment ≡ moment) r.0.items) }
    ensures tail { IfOk result (λ r. r.1 ≡ tail_after tail.now piece.now) }

    // The rest and the piece are these frames, one after the other, and no others.
    ensures split { IfOk result (λ r. tail.now.broken ≡ None →
        Splits (tail.now.rest ++ piece.now) (map (λ frame. frame.octets) r.0.items)
        (rest_of (tail.now.rest ++ piece.now))) }

    // Of a broken stream nothing is framed, its offset alone grows, and no memory is taken.
    ensures none { IfOk result (λ r. IsSome tail.now.broken → r.0.items ≡ []) }
    ensures broken { IfOk result (λ r. IsSome tail.now.broken →
        r.1 ≡ record tail.now { offset = tail.now.offset + length piece.now }) }
    ensures memory { IsSome tail.now.broken → IsOk result }
{
    let offset = tail.offset() + piece.len() as u64;
    let start = tail.offset() - tail.waiting_octets();
    if let Some(broken) = tail.broken() {
        return Ok((Vec::new(alloc), Tail::broken_at(offset, broken)));
    }
    let (settled, recent) = tail.parts();
    if states_more(settled.as_slice(), recent.len() + piece.len()) {
        let (settled, recent) = grown(alloc, settled, recent, piece)?;
        return Ok((Vec::new(alloc), Tail::in_parts(offset, settled, recent)));
    }
    let octets = all_joined(alloc, settled, recent, piece)?;
    let (found, left) = cut(alloc, octets, start, moment)?;
    Ok((found, tail_left(offset, left)))
}

/// Whether the octets state a length, and have fewer than it with so many others.
fn states_more(octets: &[u8], others: usize) -> bool
    requires { length octets.now + others < 2 ^ 64 }
    ensures { IsTrue result ↔ (4 ≤ length octets.now)
        × (length octets.now + others < stated_length octets.now) }
{
    match command_length(octets) {
        None => false,
        Some(len) => octets.len() + others < len as usize,
    }
}

/// The frames at the front, the first of which stands at `start`, and what is left after them.
fn cut(
    alloc: Global,
    octets: Bytes,
    start: u64,
    moment: Moment,
) -> Result<(Vec<Frame>, Bytes), AllocError>
    requires { start + length octets ≤ LONGEST_STREAM }
    ensures frames { IfOk result (λ r. r.0.items ≡ placed moment start (frames_of octets)) }
    ensures rest { IfOk result (λ r. r.1 ≡ rest_of octets) }
{
    let mut found = Vec::new(alloc);
    let mut rest = octets;
    let mut offset = start;
    while let Some(len) = whole_frame(rest.as_slice()) {
        let frame = rest.split_to(len)?;
        found.push(Frame {
            offset,
            moment,
            octets: frame,
        })?;
        offset += len as u64;
    }
    Ok((found, rest))
}

/// The tail where so many octets were taken and these are left after the frames.
#[tactic(auto, using(crate::proofs::Tails::tail_facts))]
fn tail_left(offset: u64, rest: Bytes) -> Tail
    requires within { length rest ≤ offset }
    requires ends { IsWaiting rest ⊎ IsBad rest }
    ensures { result ≡ tail_with offset rest }
{
    if begins_badly(rest.as_slice()) {
        return Tail::broken_at(offset, offset - rest.len() as u64);
    }
    Tail::waiting(offset, rest)
}

/// The length of the whole frame at the front, if there is one.
fn whole_frame(octets: &[u8]) -> Option<usize>
    ensures { MatchOption result (begins_frame octets.now ≡ false)
        (λ n. (begins_frame octets.now ≡ true) × (n ≡ stated_length octets.now)
        × (16 ≤ n) × (n ≤ length octets.now)) }
{
    let len = command_length(octets)?;
    if len < SHORTEST_PDU || len > LONGEST_PDU || len as usize > octets.len() {
        return None;
    }
    Some(len as usize)
}

/// Whether a length outside the limits stands at the front.
fn begins_badly(octets: &[u8]) -> bool
    ensures { result ≡ is_bad octets.now }
{
    match command_length(octets) {
        None => false,
        Some(len) => len < SHORTEST_PDU || len > LONGEST_PDU,
    }
}

/// The length that the first four octets state, if there are four (SMPP 3.4, section 3).
#[tactic(auto, unfolding(crate::specs::Framing::stated_length))]
fn command_length(octets: &[u8]) -> Option<u32>
    ensures { MatchOption result (length octets.now < 4)
        (λ n. (4 ≤ length octets.now) × (n ≡ stated_length octets.now)) }
{
    if octets.len() < 4 {
        return None;
    }
    Some(u32::from_be_bytes([octets[0], octets[1], octets[2], octets[3]]))
}

/// The parts of octets that are left after frames: they are recent where they are at most
/// `MOST_RECENT`, and else settled.
pub(crate) fn parted(octets: Bytes) -> (Bytes, Bytes)
    ensures whole { result.0 ++ result.1 ≡ octets }
    ensures kept { IsParted result.0 result.1 }
    ensures few { length octets ≤ MOST_RECENT → result.0 ≡ [] }
    ensures many { MOST_RECENT < length octets → result.1 ≡ [] }
{
    if octets.len() <= MOST_RECENT {
        return (Bytes::new(), octets);
    }
    (octets, Bytes::new())
}

/// The parts with a piece after them. The settled one is shared while the recent octets and the
/// piece are at most `MOST_RECENT`; else all are settled.
fn grown(
    alloc: Global,
    settled: &Bytes,
    recent: &Bytes,
    piece: &Bytes,
) -> Result<(Bytes, Bytes), AllocError>
    requires parted { IsParted settled.now recent.now }
    requires room { length settled.now + length recent.now + length piece.now < 2 ^ 64 }
    ensures whole { IfOk result (λ r. r.0 ++ r.1 ≡ (settled.now ++ recent.now) ++ piece.now) }
    ensures kept { IfOk result (λ r. IsParted r.0 r.1) }
    ensures few { IfOk result (λ r. length recent.now + length piece.now ≤ MOST_RECENT →
        r.0 ≡ settled.now) }
    ensures many { IfOk result (λ r. MOST_RECENT < length recent.now + length piece.now →
        r.1 ≡ []) }
{
    if recent.len() + piece.len() <= MOST_RECENT {
        return Ok((settled.clone()?, joined(alloc, recent, piece)?));
    }
    Ok((all_joined(alloc, settled, recent, piece)?, Bytes::new()))
}

/// The octets of all three, one after the other. Where two of them are empty nothing is copied.
// Inlined as `joined` is: each piece of a short PDU goes through both.
#[inline(always)]
fn all_joined(
    alloc: Global,
    settled: &Bytes,
    recent: &Bytes,
    piece: &Bytes,
) -> Result<Bytes, AllocError>
    requires { length settled.now + length recent.now + length piece.now < 2 ^ 64 }
    ensures { IfOk result (λ octets. octets ≡ (settled.now ++ recent.now) ++ piece.now) }
{
    if settled.is_empty() {
        return joined(alloc, recent, piece);
    }
    if recent.is_empty() {
        return joined(alloc, settled, piece);
    }
    let mut all = Vec::with_capacity(alloc, settled.len() + recent.len() + piece.len())?;
    all.extend_from_slice(settled.as_slice())?;
    all.extend_from_slice(recent.as_slice())?;
    all.extend_from_slice(piece.as_slice())?;
    Ok(Bytes::from_vec(all)?)
}

/// The octets of both, one after the other. Where one of them is empty nothing is copied.
#[inline(always)]
pub(crate) fn joined(alloc: Global, front: &Bytes, back: &Bytes) -> Result<Bytes, AllocError>
    requires { length front.now + length back.now < 2 ^ 64 }
    ensures { IfOk result (λ octets. octets ≡ front.now ++ back.now) }
{
    if front.is_empty() {
        return back.clone();
    }
    if back.is_empty() {
        return front.clone();
    }
    let mut both = Vec::with_capacity(alloc, front.len() + back.len())?;
    both.extend_from_slice(front.as_slice())?;
    both.extend_from_slice(back.as_slice())?;
    Ok(Bytes::from_vec(both)?)
}

/// Whether two rests are the same octets, however each is parted.
pub(crate) fn are_same(
    settled: &[u8],
    recent: &[u8],
    other_settled: &[u8],
    other_recent: &[u8],
) -> bool
    requires own { length settled.now + length recent.now < 2 ^ 64 }
    requires other { length other_settled.now + length other_recent.now < 2 ^ 64 }
    ensures { result ≡ pointwise nat_eq (settled.now ++ recent.now)
        (other_settled.now ++ other_recent.now) }
{
    if settled.len() + recent.len() != other_settled.len() + other_recent.len() {
        return false;
    }
    if settled.len() <= other_settled.len() {
        return are_same_parts(settled, recent, other_settled, other_recent);
    }
    are_same_parts(other_settled, other_recent, settled, recent)
}

/// Whether two rests of as many octets are the same, of which the second has the longer settled
/// part, or one as long.
fn are_same_parts(settled: &[u8], recent: &[u8], longer: &[u8], shorter: &[u8]) -> bool
    requires as_many { length settled.now + length recent.now
        ≡ length longer.now + length shorter.now }
    requires ordered { length settled.now ≤ length longer.now }
    ensures { result ≡ pointwise nat_eq (settled.now ++ recent.now) (longer.now ++ shorter.now) }
{
    let (front, middle) = longer.split_at(settled.len());
    let (centre, end) = recent.split_at(middle.len());
    settled == front && centre == middle && end == shorter
}
