//! One captured session: its link, which it keeps, and both its directions. Of each its octets as they were handed in, and beside them the
//! tail, the PDUs and the last moment, which are always those of the octets.
//!
//! Whoever changes `grow` takes all memory before the first change: what comes after that can't fail.
ghost use Rattle.std.specs.Prelude.{◌≡◌, [], Some, IfOk, MatchResult, ◌<◌, ◌≤◌, ◌+◌, ◌^◌, ◌++◌, length, map, OnOk, OnErr};
ghost use Rattle.smq_frame.specs.Stream.{values, handed_in, frames_after};
ghost use Rattle.smq_frame.specs.Tail.{tail_of, tail_after};
ghost use Rattle.smq_present.specs.present.Present.{direction};
ghost use Rattle.smq_kit.specs.Replies.{IsReply, first_of};
ghost use Rattle.smq_present.specs.present.Replies.{append_refusals, backward, stream_refusals};
ghost use Rattle.smq_present.specs.present.Steps.{session_after};
ghost use Rattle.smq_pdu.specs.Placed.{placed_pdu};
ghost use Rattle.smq_present.specs.present.Kept.{kept_pdu, kept_pdus};
ghost use Rattle.smq_present.specs.present.Stream.{stream_of, last_moment};

use crate::present::batch::DecodedPiece;
use crate::present::kept::{make_room, push_copies};
use crate::{Batch, StoredPdu};
use bytes::Bytes;
use smq_frame::Tail;
use smq_kit::{Dir, LinkId, Moment, Refusal};
use std::alloc::{AllocError, Global};
use std::marker::Model;
use std::sync::Arc;

/// A captured session: its link, and the octets of the client (ESME) and of the centre (SMSC).
#[derive(Drop)]
pub struct Session {
    pub link: LinkId,
    pub client: Direction,
    pub centre: Direction,
}

impl Session {
    /// One direction of the session.
    pub fn direction(&self, dir: Dir) -> &Direction
        ensures { result.now ≡ direction dir self.now }
    {
        match dir {
            Dir::FromClient => &self.client,
            Dir::FromCentre => &self.centre,
        }
    }

    /// An equal session, whose PDUs are decoded again from its octets.
    pub fn decoded_again(&self, alloc: Global) -> Result<Session, AllocError>
        ensures { IfOk result (λ session. session ≡ self.now) }
    {
        Ok(Session {
            link: self.link,
            client: self.client.decoded_again(alloc)?,
            centre: self.centre.decoded_again(alloc)?,
        })
    }

    /// What refuses a batch, if anything: lack of memory aside.
    pub(crate) fn refusal(&self, batch: &Batch) -> Option<Refusal>
        ensures { result ≡ first_of (append_refusals (Some self.now) batch.now) }
    {
        if self.link.0 != batch.link.0 {
            return Some(Refusal::OtherLink { link: self.link });
        }
        self.direction(batch.dir).refusal(batch)
    }

    /// A session of a link without octets.
    pub fn new(alloc: Global, link: LinkId) -> Session
        ensures { result ≡ (record { link = link; client = []; centre = [] }) }
    {
        Session {
            link,
            client: Direction::new(alloc),
            centre: Direction::new(alloc),
        }
    }

    /// Puts a batch after the direction on whose tail it was prepared. The tails aren't compared, which reads all octets that
    /// wait. A refusal changes nothing.
    pub(crate) fn append_in_step(&mut self, batch: Batch) -> Result<(), Refusal>
        requires in_step { batch.tail ≡ tail_of (values (direction batch.dir self.old)) }
        ensures { IsReply (first_of (append_refusals (Some self.old) batch)) result
            (self.new ≡ session_after (Some self.old) batch) (self.new ≡ self.old) }
    {
        if self.link.0 != batch.link.0 {
            return Err(Refusal::OtherLink { link: self.link });
        }
        if let Some(refusal) = self.direction(batch.dir).backward(&batch) {
            return Err(refusal);
        }
        self.put(batch)
    }

    /// Puts a batch that nothing refuses after its direction. Want of memory changes nothing.
    fn put(&mut self, batch: Batch) -> Result<(), Refusal>
        requires in_step { batch.tail ≡ tail_of (values (direction batch.dir self.old)) }
        ensures { MatchResult result (λ _. self.new ≡ session_after (Some self.old) batch)
            (λ refusal. (refusal ≡ Refusal.Memory) × (self.new ≡ self.old)) }
    {
        match batch.dir {
            Dir::FromClient => self.client.put(batch),
            Dir::FromCentre => self.centre.put(batch),
        }
    }
}

/// Octets that were handed in at one moment.
#[derive(Drop)]
pub struct Piece {
    pub moment: Moment,
    pub octets: Bytes,
}

/// One direction of a session. A contract sees its octets with their moments.
#[derive(Drop)]
pub struct Direction {
    pieces: Vec<Piece>,
    tail: Tail,
    pdus: Vec<StoredPdu>,
    last: Moment,
}

impl Model for Direction {
    ghost use Rattle.std.specs.Prelude.{List};
    ghost use Rattle.smq_frame.specs.Stream.{Octet};
    ghost use Rattle.smq_present.specs.present.Stream.{stream_of, Keeps};

    ghost Value = { List Octet };

    ghost view = { λ d. stream_of d.pieces.items };

    ghost invariant = { λ d. Keeps (stream_of d.pieces.items) d.tail d.pdus.items d.last };
}

impl Direction {
    /// A direction with no octets.
    pub(crate) fn new(alloc: Global) -> Direction
        ensures { result ≡ [] }
    {
        Direction {
            pieces: Vec::new(alloc),
            tail: Tail::at(0),
            pdus: Vec::new(alloc),
            last: Moment::epoch(),
        }
    }

    /// What is kept of the octets between pieces: their number, those that aren't framed yet, and the offset of a bad
    /// length.
    pub fn tail(&self) -> &Tail
        ensures { result.now ≡ tail_of (values self.now) }
    {
        &self.tail
    }

    /// What is kept of the PDUs, in order.
    pub fn pdus(&self) -> &[StoredPdu]
        ensures { result.now ≡ kept_pdus self.now }
    {
        self.pdus.as_slice()
    }

    /// The moment of the last octet, in ms since 1970 in UTC; 0 where there is none.
    pub fn last(&self) -> Moment
        ensures { result ≡ last_moment self.now }
    {
        self.last
    }

    /// The octets as pieces of one moment each, in order.
    pub fn pieces(&self) -> &[Piece]
        ensures { stream_of result.now ≡ self.now }
    {
        self.pieces.as_slice()
    }

    /// An equal direction, whose PDUs are decoded again from its octets.
    fn decoded_again(&self, alloc: Global) -> Result<Direction, AllocError>
        ensures { IfOk result (λ direction. direction ≡ self.now) }
    {
        let mut again = Direction::new(alloc);
        for piece in &self.pieces {
            again.decode(alloc, piece.moment, &piece.octets)?;
        }
        Ok(again)
    }

    /// Decodes octets of one moment, if there are any, and puts them after those that are there.
    fn decode(&mut self, alloc: Global, moment: Moment, octets: &Bytes) -> Result<(), AllocError>
        requires room { length self.old + length octets.now ≤ 2 ^ 48 }
        ensures { OnOk result (self.new ≡ self.old ++ handed_in moment octets.now) }
    {
        if octets.is_empty() {
            return Ok(());
        }
        let piece = DecodedPiece::of(alloc, self.tail.copy()?, moment, octets.clone()?)?;
        self.grow(moment, piece)
    }

    /// Puts a piece after the octets. An error changes nothing.
    fn grow(&mut self, moment: Moment, piece: DecodedPiece) -> Result<(), AllocError>
        requires pdus { let tail = tail_of (values self.old) in
            piece.pdus.items ≡ map kept_pdu (map placed_pdu (frames_after tail moment piece.octets)) }
        requires next { piece.next ≡ tail_after (tail_of (values self.old)) piece.octets }
        requires room { length self.old + length piece.octets ≤ 2 ^ 48 }
        requires some { 0 < length piece.octets }
        ensures ok { OnOk result (self.new ≡ self.old ++ handed_in moment piece.octets) }
        ensures err { OnErr result (self.new ≡ self.old) }
    {
        let DecodedPiece {
            tail: _,
            octets,
            mut pdus,
            next,
        } = piece;
        make_room(&mut self.pieces, 1)?;
        make_room(&mut self.pdus, pdus.len())?;
        self.pdus.append(&mut pdus)?;
        self.pieces.push_reserved(Piece { moment, octets });
        self.tail = next;
        self.last = moment;
        Ok(())
    }

    /// Puts a piece that others share after the octets: a copy of what is kept of its PDUs. An error changes nothing.
    fn grow_by_copy(&mut self, moment: Moment, piece: &DecodedPiece) -> Result<(), AllocError>
        requires pdus { let tail = tail_of (values self.old) in
            piece.now.pdus.items ≡ map kept_pdu (map placed_pdu (frames_after tail moment piece.now.octets)) }
        requires next { piece.now.next ≡ tail_after (tail_of (values self.old)) piece.now.octets }
        requires room { length self.old + length piece.now.octets ≤ 2 ^ 48 }
        requires some { 0 < length piece.now.octets }
        ensures ok { OnOk result (self.new ≡ self.old ++ handed_in moment piece.now.octets) }
        ensures err { OnErr result (self.new ≡ self.old) }
    {
        let octets = piece.octets.clone()?;
        let next = piece.next.copy()?;
        let Direction {
            pieces,
            tail,
            pdus,
            last,
        } = self;
        make_room(pieces, 1)?;
        push_copies(pdus, piece.pdus.as_slice())?;
        pieces.push_reserved(Piece { moment, octets });
        *tail = next;
        *last = moment;
        Ok(())
    }

    /// What refuses a batch, if anything: lack of memory aside.
    #[tactic(auto, using(crate::proofs::lemmas::present::Growth::offset_facts))]
    pub(crate) fn refusal(&self, batch: &Batch) -> Option<Refusal>
        ensures value { result ≡ first_of (stream_refusals self.now batch.now) }
    {
        if !batch.piece.tail.is_same(&self.tail) {
            return Some(Refusal::OutOfStep {
                offset: self.tail.offset(),
            });
        }
        self.backward(batch)
    }

    /// The refusal of a batch whose moment is before that of the last octet.
    fn backward(&self, batch: &Batch) -> Option<Refusal>
        ensures { result ≡ backward self.now batch.now }
    {
        if batch.moment < self.last {
            return Some(Refusal::Backward { last: self.last });
        }
        None
    }

    /// Puts a batch that nothing refuses after the octets. Want of memory changes nothing.
    #[tactic(auto, using(crate::proofs::lemmas::present::Growth::offset_facts))]
    pub(crate) fn put(&mut self, batch: Batch) -> Result<(), Refusal>
        requires in_step { batch.tail ≡ tail_of (values self.old) }
        ensures { MatchResult result (λ _. self.new ≡ self.old ++ handed_in batch.moment batch.octets)
            (λ refusal. (refusal ≡ Refusal.Memory) × (self.new ≡ self.old)) }
    {
        let Batch {
            link: _,
            session: _,
            dir: _,
            moment,
            piece,
        } = batch;
        let grown = match Arc::try_unwrap(piece) {
            Ok(piece) => self.grow(moment, piece),
            Err(shared) => self.grow_by_copy(moment, &shared),
        };
        grown.map_err(|_| Refusal::Memory)
    }
}
