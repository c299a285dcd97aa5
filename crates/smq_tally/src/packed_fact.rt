//! A fact as a tally keeps it.
ghost use Rattle.std.specs.Prelude.{◌≡◌, IfOk};
ghost use Rattle.smq_tally.specs.within.Kept.{fact_at, known_of};

use crate::{Band, Fact, Outcome, SubmitError};
use smq_kit::{LinkId, Network, Place, RouteId};
use std::alloc::{AllocError, Global};
use std::boxed::Box;
use std::marker::Model;

/// What a fact says but for its place, which is its key in the tally. An error stands in a block of its own: few messages have
/// one, and it would be the largest part.
#[derive(Drop)]
pub(crate) struct PackedFact {
    link: LinkId,
    route: Option<(RouteId, Network)>,
    error: Option<Box<SubmitError, Global>>,
    outcome: Outcome,
    link_delay: Option<Band>,
    centre_delay: Option<Band>,
}

impl Model for PackedFact {
    ghost use Rattle.std.specs.Prelude.{option_map};
    ghost use Rattle.smq_tally.specs.within.Kept.{Known};

    ghost Value = { Known };

    ghost view = { λ f. record {
      link = f.link;
      route = f.route;
      outcome = f.outcome;
      error = option_map (λ e. e.value) f.error;
      link_delay = f.link_delay;
      centre_delay = f.centre_delay;
    } };
}

impl PackedFact {
    /// What is kept of a fact, which is moved and not copied.
    pub(crate) fn of(alloc: Global, fact: Fact) -> Result<PackedFact, AllocError>
        ensures { IfOk result (λ kept. kept ≡ known_of fact) }
    {
        let Fact {
            place: _,
            link,
            route,
            outcome,
            error,
            link_delay,
            centre_delay,
        } = fact;
        let error = match error {
            Some(error) => Some(Box::new(alloc, error)?),
            None => None,
        };
        Ok(PackedFact {
            link,
            route,
            error,
            outcome,
            link_delay,
            centre_delay,
        })
    }

    /// The fact of this place. It takes no memory.
    pub(crate) fn at(&self, place: Place) -> Fact
        ensures { result ≡ fact_at place self.now }
    {
        Fact {
            place,
            link: self.link,
            route: self
                .route
                .as_ref()
                .map(|(route, network)| (*route, network.copy())),
            outcome: self.outcome,
            error: self.error.as_ref().map(|error| error.copy()),
            link_delay: self.link_delay,
            centre_delay: self.centre_delay,
        }
    }
}
