//! What is kept of a PDU, and what waits of its sequence number.
ghost use Rattle.std.specs.Prelude.{◌≡◌};
ghost use Rattle.smq_pair.specs.Pairing as pairing;
ghost use Rattle.smq_pair.specs.within.Waits as defined;
ghost use Rattle.smq_pair.specs.within.Kept.{series_of_entry, is_alone, next_in, partner_in};

use smq_kit::Dir;
use smq_pdu::{is_request, is_response};
use smq_shelf::ShelfKey;

/// What is kept of a PDU: what its header says, and to which PDU it is linked.
#[derive(Clone, Copy)]
pub(crate) struct PairedPdu {
    pub seq: u32,
    pub command: u32,
    pub status: u32,
    pub link: PduLink,
}

/// To which PDU one is linked, by offset.
#[derive(Clone, Copy)]
pub(crate) enum PduLink {
    /// To none: it has no partner, and none waits after it.
    Alone,
    /// To the next of its direction that waits as it does.
    Before(u64),
    /// To its partner, in the other direction.
    Partner(u64),
}

/// What a PDU is in a pair.
#[derive(Clone, Copy, PartialEq, Eq)]
pub(crate) enum Role {
    Request,
    Response,
}

/// The requests of a direction, or its responses, of one sequence number.
#[derive(Clone, Copy)]
pub(crate) struct Series {
    pub seq: u32,
    pub dir: Dir,
    pub side: Role,
}

/// The requests of a direction that have one sequence number, and the responses to them in the other.
#[derive(Clone, Copy, PartialEq, Eq, PartialOrd, Ord)]
pub(crate) struct Exchange {
    pub seq: u32,
    pub dir: Dir,
}

/// The PDUs of an exchange that have no partner, which are all of one side: the offsets of the first and the last.
#[derive(Clone, Copy)]
pub(crate) struct Waiting {
    pub side: Role,
    pub first: u64,
    pub last: u64,
}

/// What a PDU makes of an exchange: what waits after it, the one before it that waits, and its own link.
#[derive(Clone, Copy)]
pub(crate) struct Meeting {
    pub waiting: Option<Waiting>,
    pub before: Option<u64>,
    pub link: PduLink,
}

impl ShelfKey for Exchange {
    ghost use Rattle.smq_pair.specs.within.KeyLaws.{one_exchange};

    ghost exact = { one_exchange };

    fn copy(&self) -> Exchange {
        *self
    }
}

impl PairedPdu {
    /// The offset of its partner, if it has one.
    pub(crate) fn partner(&self) -> Option<u64>
        ensures { result ≡ partner_in self.now.link }
    {
        match self.link {
            PduLink::Partner(offset) => Some(offset),
            _ => None,
        }
    }

    /// The offset of the next that waits as it does, if there is one.
    pub(crate) fn next(&self) -> Option<u64>
        ensures { result ≡ next_in self.now.link }
    {
        match self.link {
            PduLink::Before(offset) => Some(offset),
            _ => None,
        }
    }

    /// The series in which it stands, if it is a request or a response of a direction.
    pub(crate) fn series(&self, dir: Dir) -> Option<Series>
        ensures { result ≡ series_of_entry dir self.now }
    {
        let side = if is_request(self.command) {
            Role::Request
        } else if is_response(self.command) {
            Role::Response
        } else {
            return None;
        };
        Some(Series {
            dir,
            side,
            seq: self.seq,
        })
    }

    /// Whether it is of this side and has no partner.
    pub(crate) fn is_alone(&self, side: Role) -> bool
        ensures { result ≡ is_alone side self.now }
    {
        let is_of_side = match side {
            Role::Request => is_request(self.command),
            Role::Response => is_response(self.command),
        };
        is_of_side && self.partner().is_none()
    }
}

impl Series {
    /// The exchange of which it is a side.
    pub(crate) fn exchange(&self) -> Exchange
        ensures { result ≡ defined.exchange_of self.now }
    {
        Exchange {
            seq: self.seq,
            dir: dir_of(self.side, self.dir),
        }
    }
}

/// The direction of a side, where this is that of requests; and the other way round.
pub(crate) fn dir_of(side: Role, dir: Dir) -> Dir
    ensures { result ≡ defined.dir_of side dir }
{
    match side {
        Role::Request => dir,
        Role::Response => opposite(dir),
    }
}

/// What the PDU at an offset, of a side, makes of an exchange, where the second of those that wait is at `next`.
pub(crate) fn meeting_with(
    waiting: Option<Waiting>,
    side: Role,
    offset: u64,
    next: Option<u64>,
) -> Meeting
    ensures { result ≡ defined.meeting_with waiting side offset next }
{
    let Some(waiting) = waiting else {
        let first = offset;
        let last = offset;
        return Meeting {
            waiting: Some(Waiting { side, first, last }),
            before: None,
            link: PduLink::Alone,
        };
    };
    if is_same(waiting.side, side) {
        return Meeting {
            waiting: Some(Waiting {
                last: offset,
                ..waiting
            }),
            before: Some(waiting.last),
            link: PduLink::Alone,
        };
    }
    Meeting {
        waiting: match next {
            Some(first) => Some(Waiting { first, ..waiting }),
            None => None,
        },
        before: None,
        link: PduLink::Partner(waiting.first),
    }
}

/// Whether two sides are one.
fn is_same(side: Role, other: Role) -> bool
    ensures { result ≡ defined.is_same side other }
{
    match (side, other) {
        (Role::Request, Role::Request) => true,
        (Role::Response, Role::Response) => true,
        _ => false,
    }
}

/// The other direction.
pub(crate) fn opposite(dir: Dir) -> Dir
    ensures { result ≡ pairing.opposite dir }
{
    match dir {
        Dir::FromClient => Dir::FromCentre,
        Dir::FromCentre => Dir::FromClient,
    }
}
