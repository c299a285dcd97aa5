//! Versions of the route of a prefix.
ghost use Rattle.std.specs.Prelude.{◌≡◌, Some};
ghost use Rattle.smq_kit.specs.Replies.{IsReplyInPlace, first_of};
ghost use Rattle.smq_route.specs.Edits.{end_refusals, ending, corrected};
ghost use Rattle.smq_route.specs.Versions.{lasts_past};

use smq_kit::{Digits, Moment, Network, Refusal, RouteId};
use smq_shelf::ShelfKey;

/// What a version is known by. Keys are ordered by the octets of their prefixes, then by their beginnings.
#[derive(Debug, PartialEq, Eq, PartialOrd, Ord, Drop)]
pub struct VersionKey {
    /// What the numbers begin with (E.164).
    pub prefix: Digits,
    /// The first moment at which it holds, in ms since 1970 in UTC.
    pub from: Moment,
}

/// A version of the route of a prefix.
#[derive(Debug, PartialEq, Eq, Drop)]
pub struct Version {
    /// The first moment at which it no longer holds, in ms since 1970 in UTC. An open version has none.
    pub until: Option<Moment>,
    /// Where messages for the prefix are sent.
    pub route: RouteId,
    /// The mobile network that the prefix belongs to (E.212).
    pub network: Network,
}

impl ShelfKey for VersionKey {
    ghost use Rattle.smq_route.specs.within.Kept.{one_key};

    ghost exact = { one_key };

    fn copy(&self) -> VersionKey {
        VersionKey {
            prefix: self.prefix.copy(),
            from: self.from,
        }
    }
}

impl Version {
    /// An equal version. It takes no memory.
    pub(crate) fn copy(&self) -> Version
        ensures { result ≡ self.now }
    {
        Version {
            until: self.until,
            route: self.route,
            network: self.network.copy(),
        }
    }

    /// Whether it is open or ends after a moment.
    pub(crate) fn lasts_past(&self, moment: Moment) -> bool
        ensures { result ≡ lasts_past moment self.now.until }
    {
        match self.until {
            Some(until) => moment < until,
            None => true,
        }
    }

    /// Ends it. A refusal changes nothing.
    pub(crate) fn end(&mut self, from: Moment, until: Moment) -> Result<(), Refusal>
        ensures { IsReplyInPlace (first_of (end_refusals (Some self.old) from until)) result
            (self.new ≡ ending until self.old) (self.new ≡ self.old) }
    {
        if let Some(ended) = self.until {
            return Err(Refusal::Ended { until: ended });
        }
        if until <= from {
            return Err(Refusal::BadEnd);
        }
        self.until = Some(until);
        Ok(())
    }

    /// Gives it another route and network.
    pub(crate) fn correct(&mut self, route: RouteId, network: Network)
        ensures { self.new ≡ corrected route network self.old }
    {
        self.route = route;
        self.network = network;
    }
}
