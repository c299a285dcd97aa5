//! What is known of a message, and where it is counted.
ghost use Rattle.std.specs.Prelude.{◌≡◌, ◌↔◌, IsTrue, option_to_list, option_copied};
ghost use Rattle.smq_tally.specs.Rows as rows;
ghost use Rattle.smq_tally.specs.Rows.{value_in};
ghost use Rattle.smq_tally.specs.within.RowCounts as by_row;

use crate::{Band, List, Listed, Outcome, SubmitError, Value, View};
use smq_kit::{LinkId, Network, Place, RouteId};
use smq_shelf::ShelfKey;

/// What is known of one message.
#[derive(Debug, PartialEq, Eq, Drop)]
pub struct Fact {
    /// Where its submit_sm or data_sm (SMPP 3.4, 4.4.1 and 4.7.1) stands.
    pub place: Place,
    /// The link of its session.
    pub link: LinkId,
    /// The route and network of its number at its moment. None where no version holds, or it has no number.
    pub route: Option<(RouteId, Network)>,
    /// What became of it.
    pub outcome: Outcome,
    /// Why it failed, where it was refused or failed.
    pub error: Option<SubmitError>,
    /// Where it was delivered or failed, the band of the time from the message to its deciding receipt.
    pub link_delay: Option<Band>,
    /// The band of the time from the submit date to the done date of that receipt (appendix B), where it has both.
    pub centre_delay: Option<Band>,
}

impl Fact {
    ghost use Rattle.smq_tally.specs.Lists.{listings_of_fact};

    /// An equal fact. It takes no memory.
    pub fn copy(&self) -> Fact
        ensures { result ≡ self.now }
    {
        Fact {
            place: self.place,
            link: self.link,
            route: self
                .route
                .as_ref()
                .map(|(route, network)| (*route, network.copy())),
            outcome: self.outcome,
            error: self.error.as_ref().map(|error| error.copy()),
            link_delay: self.link_delay,
            centre_delay: self.centre_delay,
        }
    }

    /// What it is counted by in a view, if it has a value there. It takes no memory.
    pub fn value_in(&self, view: View) -> Option<Value>
        ensures { result ≡ value_in view self.now }
    {
        Some(match view {
            View::Link => Value::Link(self.link),
            View::Route => route_value(self.route.as_ref()),
            View::Network => network_value(self.route.as_ref()),
            View::Error => Value::Error(self.error.as_ref()?.copy()),
            View::LinkDelay => Value::Band(self.link_delay?),
            View::CentreDelay => Value::Band(self.centre_delay?),
        })
    }

    /// Where it is listed, if it is open or lapsed.
    pub(crate) fn listed(&self) -> Option<Listed>
        ensures { option_to_list result ≡ listings_of_fact self.now }
    {
        let list = match self.outcome {
            Outcome::Open => List::Open,
            Outcome::Lapsed => List::Lapsed,
            _ => return None,
        };
        Some(Listed {
            list,
            place: self.place,
        })
    }
}

/// Where a count stands: by view, then by value, then by outcome.
#[derive(Debug, PartialEq, Eq, PartialOrd, Ord, Drop)]
pub struct CountKey {
    pub view: View,
    pub value: Value,
    pub outcome: Outcome,
}

impl CountKey {
    ghost use Rattle.smq_tally.specs.within.RowCounts.{row_of};

    /// The row in which it stands.
    pub(crate) fn into_row(self) -> RowKey
        ensures { result ≡ row_of self }
    {
        RowKey {
            view: self.view,
            value: self.value,
        }
    }
}

/// Where a row of counts stands: by view, then by value.
#[derive(Debug, PartialEq, Eq, PartialOrd, Ord, Drop)]
pub struct RowKey {
    pub(crate) view: View,
    pub(crate) value: Value,
}

impl RowKey {
    ghost use Rattle.smq_tally.specs.within.CountOrder.{first_row};

    /// What comes before all others that a view can have.
    pub(crate) fn first_in(view: View) -> RowKey
        ensures { result ≡ first_row view }
    {
        RowKey {
            view,
            value: Value::Link(LinkId(0)),
        }
    }
}

impl ShelfKey for RowKey {
    ghost use Rattle.smq_tally.specs.within.Keys.{row_key_exact};

    ghost exact = { row_key_exact };

    fn copy(&self) -> RowKey {
        RowKey {
            view: self.view,
            value: self.value.copy(),
        }
    }
}

/// The row in which a message is counted in a view, if it has a value there.
pub(crate) fn row_in(view: View, fact: &Fact) -> Option<RowKey>
    ensures { result ≡ by_row.row_in view fact.now }
{
    let value = fact.value_in(view)?;
    Some(RowKey { view, value })
}

/// Whether two messages have one value in a view, or neither has one. Nothing is copied.
pub(crate) fn have_same_value(view: View, before: &Fact, after: &Fact) -> bool
    ensures { IsTrue result ↔ (value_in view before.now ≡ value_in view after.now) }
{
    match view {
        View::Link => before.link == after.link,
        View::Route => match (&before.route, &after.route) {
            (Some((route, _)), Some((other, _))) => *route == *other,
            (None, None) => true,
            _ => false,
        },
        View::Network => match (&before.route, &after.route) {
            (Some((_, network)), Some((_, other))) => *network == *other,
            (None, None) => true,
            _ => false,
        },
        View::Error => before.error == after.error,
        View::LinkDelay => before.link_delay == after.link_delay,
        View::CentreDelay => before.centre_delay == after.centre_delay,
    }
}

fn route_value(route: Option<&(RouteId, Network)>) -> Value
    ensures { result ≡ rows.route_value (option_copied route.entry) }
{
    match route {
        Some((route, _)) => Value::Route(*route),
        None => Value::NoRoute,
    }
}

fn network_value(route: Option<&(RouteId, Network)>) -> Value
    ensures { result ≡ rows.network_value (option_copied route.entry) }
{
    match route {
        Some((_, network)) => Value::Network(network.copy()),
        None => Value::NoNetwork,
    }
}
