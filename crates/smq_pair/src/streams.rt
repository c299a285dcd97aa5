//! The PDUs of both directions, as they are kept.
ghost use Rattle.std.specs.Prelude.{◌≡◌, ◌<◌, ◌++◌, ◌∷◌, [], true, None, IfOk, IsSome, OnOk, OnErr, option_and_then};
ghost use Rattle.smq_pair.specs.declared.paired_pdu.PduLink.TheVariants.{Before, Partner};
ghost use Rattle.std.specs.List.{All};
ghost use Rattle.smq_pair.specs.Pairing.{pair_of};
ghost use Rattle.smq_pair.specs.within.Kept.{are_below, are_of_session, entries_from, entries_in, held_at, joined, kept_at, linked, next_kept, pair_found, partner_in, partner_kept, pdus_in, placed_at, places_alone, settled_entries};

use crate::paired_pdu::{PairedPdu, PduLink, Role, opposite};
use crate::pairing::Pair;
use crate::places::{Places, at};
use crate::stream::Stream;
use smq_kit::{Dir, Place, SessionId};
use smq_pdu::{agrees, is_request};
use std::alloc::{AllocError, Global};

/// The PDUs of each direction, and those that can be brought back, each with their session. Where there are no PDUs it says
/// nothing.
#[derive(Drop)]
pub(crate) struct Streams {
    pub session: SessionId,
    pub settled_session: SessionId,
    pub client: Stream,
    pub centre: Stream,
}

impl Streams {
    /// No PDUs.
    pub(crate) fn new(alloc: Global) -> Streams
        ensures client { (entries_in result).client ≡ [] }
        ensures centre { (entries_in result).centre ≡ [] }
        ensures settled { settled_entries result ≡ entries_in result }
    {
        Streams {
            session: SessionId(0),
            settled_session: SessionId(0),
            client: Stream::new(alloc),
            centre: Stream::new(alloc),
        }
    }

    /// The PDU at a place.
    pub(crate) fn at(&self, place: Place) -> Option<PairedPdu>
        ensures { result ≡ kept_at place (entries_in self.now) }
    {
        if place.session.0 != self.session.0 {
            return None;
        }
        self.from(place.dir).get(place.offset)
    }

    /// Puts a PDU at a place above those of its direction, makes it the partner of its own and the next of the one at
    /// `before`, not both, and gives the pair that it makes. An error changes nothing.
    pub(crate) fn add(
        &mut self,
        place: Place,
        before: Option<u64>,
        entry: PairedPdu,
    ) -> Result<Option<Pair>, AllocError>
        requires below { are_below place (pdus_in (entries_in self.old)) ≡ true }
        requires one { IsSome before → partner_in entry.link ≡ None }
        ensures added { OnOk result
            (entries_in self.new ≡ joined place.dir place before entry (entries_in self.old)) }
        ensures made { IfOk result (λ made. made
            ≡ pair_found place entry (partner_kept place.dir entry (entries_in self.old))) }
        ensures err { OnErr result (entries_in self.new ≡ entries_in self.old) }
        ensures settled { settled_entries self.new ≡ settled_entries self.old }
    {
        let found = match place.dir {
            Dir::FromClient => join(
                &mut self.client,
                &mut self.centre,
                place.offset,
                before,
                entry,
            )?,
            Dir::FromCentre => join(
                &mut self.centre,
                &mut self.client,
                place.offset,
                before,
                entry,
            )?,
        };
        self.session = place.session;
        Ok(pair(place, entry, found))
    }

    /// Brings back the PDUs of the last `settle`, or none.
    pub(crate) fn undo(&mut self)
        ensures entries { entries_in self.new ≡ settled_entries self.old }
        ensures settled { settled_entries self.new ≡ settled_entries self.old }
    {
        self.session = self.settled_session;
        self.client.undo();
        self.centre.undo();
    }

    /// Makes the PDUs those that `undo` brings back.
    pub(crate) fn settle(&mut self)
        ensures entries { entries_in self.new ≡ entries_in self.old }
        ensures settled { settled_entries self.new ≡ entries_in self.old }
    {
        self.settled_session = self.session;
        self.client.settle();
        self.centre.settle();
    }

    /// Whether the PDUs are all of a session.
    pub(crate) fn are_of(&self, session: SessionId) -> bool
        ensures { result ≡ are_of_session session (pdus_in (entries_in self.now)) }
    {
        self.session.0 == session.0
            || (self.client.entries().is_empty() && self.centre.entries().is_empty())
    }

    /// Whether the PDUs of a place's direction are all below it: the last is.
    pub(crate) fn are_below(&self, place: Place) -> bool
        ensures { result ≡ are_below place (pdus_in (entries_in self.now)) }
    {
        match self.from(place.dir).entries().last() {
            Some(last) => last.0 < place.offset,
            None => true,
        }
    }

    /// The places of the PDUs of a side that have no partner, in order.
    pub(crate) fn alone(&self, side: Role) -> Places<'_>
        ensures { result ≡ places_alone side (entries_in self.now) }
    {
        Places {
            side,
            session: self.session,
            client: self.client.entries().iter(),
            centre: self.centre.entries().iter(),
        }
    }

    /// The pair of a PDU at a place with its partner.
    pub(crate) fn pair_in(&self, place: Place, entry: PairedPdu) -> Option<Pair>
        ensures { result
            ≡ pair_found place entry (partner_kept place.dir entry (entries_in self.now)) }
    {
        let partner = entry.partner()?;
        let found = self.from(opposite(place.dir)).get(partner);
        pair(place, entry, found)
    }

    /// The offset of the next that waits as the PDU at an offset of a direction does.
    pub(crate) fn next_of(&self, dir: Dir, offset: u64) -> Option<u64>
        ensures { result ≡ next_kept dir offset (entries_in self.now) }
    {
        self.from(dir).get(offset)?.next()
    }

    /// The PDUs of a direction.
    fn from(&self, dir: Dir) -> &Stream
        ensures { result.now.content ≡ entries_from dir (entries_in self.now) }
    {
        match dir {
            Dir::FromClient => &self.client,
            Dir::FromCentre => &self.centre,
        }
    }
}

/// Puts a PDU at an offset of its direction, makes it the partner of its own in the other and the next of the one at
/// `before`, not both, and gives what was kept of its partner. An error changes nothing.
fn join(
    own: &mut Stream,
    other: &mut Stream,
    offset: u64,
    before: Option<u64>,
    entry: PairedPdu,
) -> Result<Option<PairedPdu>, AllocError>
    requires above { All (λ e. e.0 < offset) own.old.content }
    requires one { IsSome before → partner_in entry.link ≡ None }
    ensures own { OnOk result (own.new.content
        ≡ linked before (Before offset) own.old.content ++ (offset, entry) ∷ []) }
    ensures other { OnOk result (other.new.content
        ≡ linked (partner_in entry.link) (Partner offset) other.old.content) }
    ensures found { IfOk result (λ found. found
        ≡ option_and_then (λ q. held_at q other.old.content) (partner_in entry.link)) }
    ensures err { OnErr result (own.new.content ≡ own.old.content) }
    ensures err_other { OnErr result (other.new.content ≡ other.old.content) }
    ensures settled { own.new.settled ≡ own.old.settled }
    ensures settled_other { other.new.settled ≡ other.old.settled }
{
    own.make_room()?;
    link(own, before, PduLink::Before(offset))?;
    let found = link(other, entry.partner(), PduLink::Partner(offset))?;
    own.push(offset, entry);
    Ok(found)
}

/// Gives the PDU at an offset, if that is given, a link, and tells what was kept of it. An error changes nothing.
fn link(
    stream: &mut Stream,
    at: Option<u64>,
    link: PduLink,
) -> Result<Option<PairedPdu>, AllocError>
    ensures ok { OnOk result (stream.new.content ≡ linked at link stream.old.content) }
    ensures found { IfOk result (λ found. found
        ≡ option_and_then (λ q. held_at q stream.old.content) at) }
    ensures err { OnErr result (stream.new.content ≡ stream.old.content) }
    ensures given { OnErr result (IsSome at) }
    ensures settled { stream.new.settled ≡ stream.old.settled }
    ensures room { stream.new.room ≡ stream.old.room }
{
    match at {
        Some(at) => stream.link(at, link),
        None => Ok(None),
    }
}

/// The pair of a PDU at a place with its partner, of which this is kept.
fn pair(place: Place, entry: PairedPdu, found: Option<PairedPdu>) -> Option<Pair>
    ensures { result ≡ pair_found place entry found }
{
    let partner = at(place.session, opposite(place.dir), entry.partner()?);
    let other = found?;
    Some(if is_request(entry.command) {
        paired(place, entry, partner, other)
    } else {
        paired(partner, other, place, entry)
    })
}

/// The pair of a request and its response.
fn paired(
    request: Place,
    request_entry: PairedPdu,
    response: Place,
    response_entry: PairedPdu,
) -> Pair
    ensures { result ≡ pair_of (placed_at request request_entry) (placed_at response response_entry) }
{
    Pair {
        request,
        response,
        agrees: agrees(request_entry.command, response_entry.command),
        status: response_entry.status,
    }
}
