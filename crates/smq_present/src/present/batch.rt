//! A piece as a capture says it, and as it is once it is framed and decoded on a tail, before any book is looked at: a batch. It keeps the
//! tail on which it was made, by which a book tells whether it still fits.
ghost use Rattle.std.specs.Prelude.{◌≡◌, ◌<◌, ◌+◌, ◌^◌, ◌≤◌, length, map, IfOk, IfErr, MatchOption, Err};
ghost use Rattle.smq_frame.specs.Stream.{frames_after};
ghost use Rattle.smq_frame.specs.Tail.{tail_after};
ghost use Rattle.smq_pdu.specs.Placed.{placed_pdu};
ghost use Rattle.smq_present.specs.present.Kept.{kept_pdu};
ghost use Rattle.smq_present.specs.present.Batch.{batch_of, batch_pdus, next_tail, prepare_refusal};

use crate::StoredPdu;
use crate::present::kept::pdus_of;
use bytes::Bytes;
use smq_frame::{Tail, frames};
use smq_kit::{Dir, LinkId, Moment, Refusal, SessionId};
use std::alloc::{AllocError, Global};
use std::marker::Model;
use std::sync::Arc;

/// A piece: octets of one direction of a session, handed in at one moment.
#[derive(Drop)]
pub struct PieceRow {
    pub link: LinkId,
    pub session: SessionId,
    pub dir: Dir,
    pub moment: Moment,
    pub octets: Bytes,
}

/// What copies of a batch share.
#[derive(Drop)]
pub(crate) struct DecodedPiece {
    pub(crate) tail: Tail,
    pub(crate) octets: Bytes,
    pub(crate) pdus: Vec<StoredPdu>,
    pub(crate) next: Tail,
}

impl DecodedPiece {
    /// Octets of one moment, decoded on a tail.
    pub(crate) fn of(
        alloc: Global,
        tail: Tail,
        moment: Moment,
        octets: Bytes,
    ) -> Result<DecodedPiece, AllocError>
        requires room { tail.offset + length octets ≤ 2 ^ 48 }
        ensures given { IfOk result (λ piece. (piece.tail ≡ tail) × (piece.octets ≡ octets)) }
        ensures pdus { IfOk result (λ piece.
            piece.pdus.items ≡ map kept_pdu (map placed_pdu (frames_after tail moment octets))) }
        ensures next { IfOk result (λ piece. piece.next ≡ tail_after tail octets) }
    {
        let (found, next) = frames(alloc, &tail, moment, &octets)?;
        let pdus = pdus_of(alloc, found.as_slice())?;
        Ok(DecodedPiece {
            tail,
            octets,
            pdus,
            next,
        })
    }
}

/// A piece of octets that is decoded on a tail, to be put after a direction that has this tail.
#[derive(Drop)]
pub struct Batch {
    pub(crate) link: LinkId,
    pub(crate) session: SessionId,
    pub(crate) dir: Dir,
    pub(crate) moment: Moment,
    pub(crate) piece: Arc<DecodedPiece, Global>,
}

impl Model for Batch {
    ghost use Rattle.std.specs.Prelude.{◌≡◌, ◌<◌, ◌≤◌, ◌+◌, ◌^◌, length};
    ghost use Rattle.std.specs.Arc.{arc_value};
    ghost use Rattle.smq_present.specs.present.Batch.{BatchValue, batch_of, batch_pdus, next_tail};

    ghost Value = { BatchValue };

    ghost view = { λ b. let d = arc_value b.piece in batch_of b.link b.session b.dir d.tail b.moment d.octets };

    ghost invariant = { λ b. let d = arc_value b.piece in
        let value = batch_of b.link b.session b.dir d.tail b.moment d.octets in
        (d.pdus.items ≡ batch_pdus value) × (d.next ≡ next_tail value) × (0 < length d.octets)
        × (d.tail.offset + length d.octets ≤ 2 ^ 48) };
}

impl PartialEq for Batch {
    ghost use Rattle.smq_present.specs.within.EqualBatches.{batches_eq, batches_eq_laws};
    ghost use Rattle.std.specs.Cmp.{partial_equiv_from_equiv};

    ghost eq = { batches_eq };

    ghost laws = { partial_equiv_from_equiv batches_eq_laws };

    fn eq(&self, other: &Batch) -> bool {
        let is_same_direction = self.link == other.link
            && self.session == other.session
            && self.dir == other.dir;
        is_same_direction
            && self.piece.tail.is_same(&other.piece.tail)
            && self.moment == other.moment
            && self.piece.octets == other.piece.octets
    }
}

impl Eq for Batch {
    ghost use Rattle.smq_present.specs.within.EqualBatches.{batches_eq_laws};

    ghost laws = { batches_eq_laws };
}

impl Batch {
    /// The link that a new session gets, and that one which is present must have.
    pub fn link(&self) -> LinkId
        ensures { result ≡ self.now.link }
    {
        self.link
    }

    /// The session that the octets are for.
    pub fn session(&self) -> SessionId
        ensures { result ≡ self.now.session }
    {
        self.session
    }

    /// The direction of the session.
    pub fn dir(&self) -> Dir
        ensures { result ≡ self.now.dir }
    {
        self.dir
    }

    /// The tail on which the octets were decoded.
    pub fn tail(&self) -> &Tail
        ensures { result.now ≡ self.now.tail }
    {
        &self.piece.tail
    }

    /// The moment of all the octets.
    pub fn moment(&self) -> Moment
        ensures { result ≡ self.now.moment }
    {
        self.moment
    }

    /// The octets, of which there is one at least.
    pub fn octets(&self) -> &Bytes
        ensures value { result.now ≡ self.now.octets }
        ensures not_empty { 0 < length self.now.octets }
    {
        &self.piece.octets
    }

    /// What is kept of the PDUs that the octets complete, in order.
    pub fn pdus(&self) -> &[StoredPdu]
        ensures { result.now ≡ batch_pdus self.now }
    {
        self.piece.pdus.as_slice()
    }

    /// An equal batch, which shares the octets and what is kept of the PDUs. It takes no memory.
    pub fn copy(&self) -> Result<Batch, AllocError>
        ensures { IfOk result (λ batch. batch ≡ self.now) }
    {
        Ok(Batch {
            link: self.link,
            session: self.session,
            dir: self.dir,
            moment: self.moment,
            piece: Arc::try_clone(&self.piece)?,
        })
    }

    /// The tail after the octets.
    pub fn next(&self) -> &Tail
        ensures { result.now ≡ next_tail self.now }
    {
        &self.piece.next
    }
}

/// Decodes octets on a tail.
fn decoded(
    alloc: Global,
    link: LinkId,
    session: SessionId,
    dir: Dir,
    tail: &Tail,
    moment: Moment,
    octets: Bytes,
) -> Result<Batch, AllocError>
    requires room { tail.now.offset + length octets ≤ 2 ^ 48 }
    requires some { 0 < length octets }
    ensures { IfOk result (λ batch. batch ≡ batch_of link session dir tail.now moment octets) }
{
    let piece = DecodedPiece::of(alloc, tail.copy()?, moment, octets)?;
    let piece = Arc::new(alloc, piece)?;
    Ok(Batch {
        link,
        session,
        dir,
        moment,
        piece,
    })
}

/// Decodes octets on a tail, for one direction of a session. Refused are, in order: no octets (`EmptyPiece`); octets
/// with which the direction would pass 2 to the power 48 (`StreamFull`); and lack of memory (`Memory`).
pub fn prepare(
    alloc: Global,
    link: LinkId,
    session: SessionId,
    dir: Dir,
    tail: &Tail,
    moment: Moment,
    octets: Bytes,
) -> Result<Batch, Refusal>
    ensures value { IfOk result (λ batch.
        batch ≡ batch_of link session dir tail.now moment octets) }
    ensures refused { MatchOption (prepare_refusal tail.now octets)
        (IfErr result (λ refusal. refusal ≡ Refusal.Memory))
        (λ refusal. result ≡ Err refusal) }
{
    if octets.is_empty() {
        return Err(Refusal::EmptyPiece);
    }
    if !tail.has_room(octets.len()) {
        return Err(Refusal::StreamFull);
    }
    decoded(alloc, link, session, dir, tail, moment, octets).map_err(|_| Refusal::Memory)
}
