//! Numbers that name links, sessions and routes.
ghost use Rattle.smq_kit.specs.Orders.{LinksAreOrdered, SessionsAreOrdered, RoutesAreOrdered};

/// A link: one commercial connection with a message centre (SMSC), by its number.
#[derive(Clone, Copy, Debug, PartialEq, Eq, PartialOrd, Ord)]
pub struct LinkId(pub u32);

/// A session: one captured connection of a link, with two octet streams, by its number.
#[derive(Clone, Copy, Debug, PartialEq, Eq, PartialOrd, Ord)]
pub struct SessionId(pub u64);

/// A route: where messages for a prefix of numbers are sent, by its number.
#[derive(Clone, Copy, Debug, PartialEq, Eq, PartialOrd, Ord)]
pub struct RouteId(pub u32);

/// Links, sessions and routes are ordered by their numbers, and equal exactly where they are one.
pub fn names_are_ordered()
    ensures links { LinksAreOrdered }
    ensures sessions { SessionsAreOrdered }
    ensures routes { RoutesAreOrdered }
{}
