//! Where a PDU stands: its session, its direction and its offset.
ghost use Rattle.smq_kit.specs.Orders.{PlacesAreOrdered};

use crate::SessionId;

/// Whose octets a direction has: the client's (ESME) or the centre's (SMSC). The client's come first in order.
#[derive(Clone, Copy, Debug, PartialEq, Eq, PartialOrd, Ord)]
pub enum Dir {
    FromClient,
    FromCentre,
}

/// The place of a PDU. Places are ordered by session, then direction, then offset.
#[derive(Clone, Copy, Debug, PartialEq, Eq)]
pub struct Place {
    pub session: SessionId,
    pub dir: Dir,
    /// In octets from the direction's first, to the PDU's first octet.
    pub offset: u64,
}

/// The place before which none stands.
pub const LEAST_PLACE: Place = Place {
    session: SessionId(0),
    dir: Dir::FromClient,
    offset: 0,
};

/// The order of places is by session, then direction, the client's first, then offset.
pub fn places_are_ordered()
    ensures { PlacesAreOrdered }
{}
