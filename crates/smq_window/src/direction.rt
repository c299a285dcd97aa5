//! What is kept of one direction of a connection.
ghost use Rattle.std.specs.Prelude.{◌≡◌, ◌+◌, ◌≤◌, ◌++◌, take, drop, length, IfOk, OnOk, None};
ghost use Rattle.smq_frame.specs.Stream.{frames_after};
ghost use Rattle.smq_window.specs.Direction as defined;
ghost use Rattle.smq_window.specs.Window as windows;
ghost use Rattle.smq_window.specs.Direction.{after_piece, broken_by, empty_direction};

use bytes::Bytes;
use smq_frame::{Frame, LONGEST_STREAM, Tail, frames};
use smq_kit::Moment;
use std::alloc::{AllocError, Global};

/// A direction: the moment of its last piece, its tail, and, of a length that can't be, the four octets, and the period whose session
/// has them.
#[derive(Drop)]
pub struct Direction {
    pub(crate) last: Moment,
    pub(crate) tail: Tail,
    pub(crate) broken: Option<Bytes>,
    pub(crate) written: Option<u64>,
}

impl Direction {
    /// Before its first octet.
    pub(crate) fn new() -> Direction
        ensures { result ≡ empty_direction }
    {
        Direction {
            last: Moment::epoch(),
            tail: Tail::at(0),
            broken: None,
            written: None,
        }
    }

    /// Whether no octets wait, and no length was bad.
    pub(crate) fn is_quiet(&self) -> bool
        ensures { result ≡ windows.is_quiet self.now }
    {
        self.tail.waiting_octets() == 0 && self.tail.broken().is_none()
    }

    /// Takes a piece, and gives the PDUs that are whole by then. The only error is that memory ran out.
    pub(crate) fn take(
        &mut self,
        alloc: Global,
        moment: Moment,
        octets: &Bytes,
    ) -> Result<Vec<Frame>, AllocError>
        requires { self.old.tail.offset + length octets.now ≤ LONGEST_STREAM }
        ensures frames { IfOk result (λ frames. frames.items ≡ frames_after self.old.tail moment octets.now) }
        ensures after { OnOk result (self.new ≡ after_piece self.old moment octets.now) }
    {
        let (found, tail) = frames(alloc, &self.tail, moment, octets)?;
        let broken = broken_after(alloc, &self.broken, &self.tail, &tail, octets)?;
        self.last = moment;
        self.tail = tail;
        self.broken = broken;
        Ok(found)
    }
}

/// The four octets of a length that can't be, after a piece, where one is met.
fn broken_after(
    alloc: Global,
    broken: &Option<Bytes>,
    before: &Tail,
    after: &Tail,
    octets: &Bytes,
) -> Result<Option<Bytes>, AllocError>
    ensures { IfOk result (λ r. r ≡ broken_by broken.now before.now.broken before.now octets.now after.now.broken) }
{
    if before.broken().is_none() {
        if let Some(at) = after.broken() {
            return Ok(Some(octets_at(alloc, before, octets, at)?));
        }
    }
    match broken {
        Some(octets) => Ok(Some(octets.clone()?)),
        None => Ok(None),
    }
}

/// The four octets at an offset, among those that waited and a piece.
fn octets_at(alloc: Global, tail: &Tail, octets: &Bytes, at: u64) -> Result<Bytes, AllocError>
    ensures { IfOk result (λ r. r ≡ defined.octets_at tail.now octets.now at) }
{
    let waiting = tail.waiting_octets();
    let start = tail.offset() - waiting;
    let rest = tail.rest(alloc)?;
    let mut whole = Vec::new(alloc);
    whole.extend_from_slice(rest.as_slice())?;
    whole.extend_from_slice(octets.as_slice())?;
    let behind = at.saturating_sub(start);
    four_at(alloc, whole.as_slice(), behind)
}

/// The four octets at an index, or as many as there are.
fn four_at(alloc: Global, octets: &[u8], index: u64) -> Result<Bytes, AllocError>
    ensures { IfOk result (λ r. r ≡ take 4 (drop index octets.now)) }
{
    let length = octets.len();
    if index > length as u64 {
        return Ok(Bytes::new());
    }
    let (_, behind) = octets.split_at(index as usize);
    if behind.len() <= 4 {
        return copied(alloc, behind);
    }
    let (four, _) = behind.split_at(4);
    copied(alloc, four)
}

/// The octets in a memory of their own.
fn copied(alloc: Global, octets: &[u8]) -> Result<Bytes, AllocError>
    ensures { IfOk result (λ r. r ≡ octets.now) }
{
    let mut all = Vec::with_capacity(alloc, octets.len())?;
    all.extend_from_slice(octets)?;
    Ok(Bytes::from_vec(all)?)
}
