//! The two directions of a session, each PDU with its partner: the response to a request, or the request of a response. They are paired
//! here apart from the pairs of a book, which these check: the PDUs of a sequence number are taken in turn.
ghost use Rattle.std.specs.Prelude.{◌≡◌, IfOk, ◌==◌, if◌then◌else◌, ℕ};
ghost use Rattle.std.specs.Option.{option_copied};
ghost use Rattle.smq_kit.specs.declared.place.Dir.TheVariants.{FromClient, FromCentre};
ghost use Rattle.smq_present.specs.present.Kept.{kept_pdus};
ghost use Rattle.smq_present.specs.within.Pairs.{Rises};
ghost use Rattle.smq_present.specs.within.Sides.{IsSide};
ghost use Rattle.smq_present.specs.within.Turns.{HasPartners, partner_at, HasTurns, advanced, first_in};
ghost use Rattle.smq_pdu.specs.Header.{header_with};
ghost use Rattle.smq_present.specs.within.Turns as t;

use crate::{Session, StoredPdu};
use smq_kit::{Dir, SessionId};
use smq_pdu::{is_request, is_response};
use std::alloc::{AllocError, Global};
use std::collections::BTreeMap;

/// A direction of a session: its PDUs, those of the other direction, and by the index of each PDU that of its partner there.
#[derive(Drop)]
pub struct Side<'a> {
    pub session: SessionId,
    pub dir: Dir,
    pub pdus: &'a [StoredPdu],
    pub other: &'a [StoredPdu],
    /// Of each request, where it has a response.
    pub responses: Vec<Option<usize>>,
    /// Of each response, where it has a request.
    pub requests: Vec<Option<usize>>,
}

impl<'a> Side<'a> {
    /// A direction whose PDUs are these, where the other has those.
    pub(crate) fn of(
        alloc: Global,
        session: SessionId,
        dir: Dir,
        pdus: &'a [StoredPdu],
        other: &'a [StoredPdu],
    ) -> Result<Side<'a>, AllocError>
        requires { Rises 0 pdus.now }
        ensures { IfOk result (λ side. IsSide session dir pdus.now other.now side) }
    {
        Ok(Side {
            session,
            dir,
            pdus,
            other,
            responses: partners_of(alloc, Kind::Request, pdus, other)?,
            requests: partners_of(alloc, Kind::Response, pdus, other)?,
        })
    }

    /// The response to the request at an index.
    pub fn response(&self, index: usize) -> Option<&'a StoredPdu>
        ensures { option_copied result ≡ partner_at self.now.responses.items self.now.other.now index }
    {
        partner(self.responses.as_slice(), self.other, index)
    }

    /// The request of the response at an index.
    pub fn request(&self, index: usize) -> Option<&'a StoredPdu>
        ensures { option_copied result ≡ partner_at self.now.requests.items self.now.other.now index }
    {
        partner(self.requests.as_slice(), self.other, index)
    }
}

/// Both directions of a session: the client's, then the centre's.
pub fn sides_of(
    alloc: Global,
    number: SessionId,
    session: &Session,
) -> Result<(Side<'_>, Side<'_>), AllocError>
    ensures client { IfOk result (λ sides.
        IsSide number FromClient (kept_pdus session.now.client) (kept_pdus session.now.centre) sides.0) }
    ensures centre { IfOk result (λ sides.
        IsSide number FromCentre (kept_pdus session.now.centre) (kept_pdus session.now.client) sides.1) }
{
    let client = session.client.pdus();
    let centre = session.centre.pdus();
    let from_client = Side::of(alloc, number, Dir::FromClient, client, centre)?;
    let from_centre = Side::of(alloc, number, Dir::FromCentre, centre, client)?;
    Ok((from_client, from_centre))
}

/// The partner of the PDU at an index.
fn partner<'a>(
    partners: &[Option<usize>],
    other: &'a [StoredPdu],
    index: usize,
) -> Option<&'a StoredPdu>
    ensures { option_copied result ≡ partner_at partners.now other.now index }
{
    let at = (*partners.get(index)?)?;
    other.get(at)
}

/// Of each PDU of a kind the index of its partner in the other direction, where it has one.
fn partners_of(
    alloc: Global,
    kind: Kind,
    mine: &[StoredPdu],
    other: &[StoredPdu],
) -> Result<Vec<Option<usize>>, AllocError>
    ensures { IfOk result (λ partners. HasPartners kind mine.now other.now partners.items) }
{
    let mut turns = Turns::of(alloc, kind.opposite(), other)?;
    let mut partners = Vec::with_capacity(alloc, mine.len())?;
    for pdu in mine {
        let partner = if kind.has(pdu.command) {
            turns.take(pdu.seq)
        } else {
            None
        };
        partners.push(partner)?;
    }
    Ok(partners)
}

/// The two kinds of PDU that are in pairs.
#[derive(Clone, Copy)]
enum Kind {
    Request,
    Response,
}

impl Kind {
    /// Whether a PDU with this command_id is of the kind.
    fn has(self, command: u32) -> bool
        ensures { result ≡ t.is_kind self (header_with command) }
    {
        match self {
            Kind::Request => is_request(command),
            Kind::Response => is_response(command),
        }
    }

    /// The kind of those with which it is in pairs.
    fn opposite(self) -> Kind
        ensures { result ≡ t.opposite self }
    {
        match self {
            Kind::Request => Kind::Response,
            Kind::Response => Kind::Request,
        }
    }
}

/// The PDUs of a kind by their sequence numbers, in order: the first of each number that isn't taken, and the next after each.
#[derive(Drop)]
struct Turns {
    first: BTreeMap<u32, Option<usize>>,
    next: Vec<Option<usize>>,
}

impl Turns {
    /// Those of a direction, of which none is taken.
    fn of(alloc: Global, kind: Kind, pdus: &[StoredPdu]) -> Result<Turns, AllocError>
        ensures { IfOk result (λ turns. HasTurns kind pdus.now (λ seq. 0) turns) }
    {
        let mut first = BTreeMap::new(alloc);
        let mut next = vec![in alloc; None; pdus.len()]?;
        let mut index = pdus.len();
        while index > 0 {
            index -= 1;
            let pdu = &pdus[index];
            if kind.has(pdu.command) {
                next[index] = first.insert(pdu.seq, Some(index))?.flatten();
            }
        }
        Ok(Turns { first, next })
    }

    /// Takes the first of a number that isn't taken, and gives its index.
    fn take(&mut self, seq: u32) -> Option<usize>
        ensures taken { result ≡ first_in self.old.first seq }
        ensures first { (q : ℕ) → first_in self.new.first q ≡ (if seq == q
            then advanced self.old.next.items result else first_in self.old.first q) }
        ensures next { self.new.next ≡ self.old.next }
    {
        let first = self.first.get_mut(&seq)?;
        advance(first, self.next.as_slice())
    }
}

/// Takes the first turn, after which the next of its number is the first.
fn advance(first: &mut Option<usize>, next: &[Option<usize>]) -> Option<usize>
    ensures first { result ≡ first.old }
    ensures next { first.new ≡ advanced next.now first.old }
{
    let turn = (*first)?;
    *first = next.get(turn).copied().flatten();
    Some(turn)
}
