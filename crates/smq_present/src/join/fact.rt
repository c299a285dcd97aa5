//! What is known of a message. Outcomes are tested in the order of their table; whoever adds one tests it in the turn that it has
//! there, in specs/join/Outcomes.antt.
ghost use Rattle.std.specs.Prelude.{◌≡◌, ℕ, List, Option};
ghost use Rattle.std.specs.Option.{option_copied};
ghost use Rattle.smq_kit.specs.declared.names.RouteId.{RouteId};
ghost use Rattle.smq_group.specs.Matching.{Standing};
ghost use Rattle.smq_present.specs.join.Circumstances.{circumstances_by, lapsed_in, route_in};
ghost use Rattle.smq_present.specs.join.Facts.{by_lapse, fact_in_circumstances, with_lapse, with_route};
ghost use Rattle.smq_present.specs.join.Outcomes as outcomes;
ghost use Rattle.smq_present.specs.join.Outcomes.{is_shared};

use crate::join::message::{Message, ReceivedReceipt};
use crate::present::settings::Settings;
use crate::{Band, Fact, Outcome, SubmitError};
use smq_kit::{Network, Place, RouteId};
use smq_receipt::MessageState;

/// What is known of a message at a place under what is set, by whether it shares the key of its id with another accepted message of
/// its link, and by the receipt that decides it, where one does.
pub fn fact_in_settings(
    settings: &Settings,
    place: Place,
    message: &Message<'_>,
    shared: bool,
    decider: Option<&ReceivedReceipt<'_>>,
) -> Fact
    ensures { (standing : Option Standing) → is_shared standing ≡ shared
        → result ≡ fact_in_circumstances place message.now
        (circumstances_by standing (option_copied decider.entry)
        (route_in settings.now.versions message.now) (lapsed_in settings.now message.now)) }
{
    let route = message.route(settings.routes());
    let lapsed = message.has_lapsed(settings.link_windows(), settings.clock());
    fact_from_parts(place, message, route, lapsed, shared, decider)
}

/// The same, by its route and network, and by whether it has lapsed.
pub fn fact_from_parts(
    place: Place,
    message: &Message<'_>,
    route: Option<(RouteId, Network)>,
    lapsed: bool,
    shared: bool,
    decider: Option<&ReceivedReceipt<'_>>,
) -> Fact
    ensures value { (standing : Option Standing) → is_shared standing ≡ shared
        → result ≡ fact_in_circumstances place message.now
        (circumstances_by standing (option_copied decider.entry) route lapsed) }
    ensures place { result.place ≡ place }
{
    let outcome = outcome(message, lapsed, shared, decider);
    Fact {
        place,
        link: message.link,
        route,
        outcome,
        error: error(outcome, message, decider),
        link_delay: link_delay(outcome, message, decider),
        centre_delay: centre_delay(outcome, decider),
    }
}

/// A fact that is at this place, with another route and network, by whether its message has lapsed.
pub fn restated(place: Place, fact: &Fact, route: Option<(RouteId, Network)>, lapsed: bool) -> Fact
    ensures { result ≡ record (with_route route (with_lapse lapsed fact.now)) { place = place } }
{
    let mut restated = fact.copy();
    restated.place = place;
    restated.route = route;
    restated.outcome = outcome_by_lapse(fact.outcome, lapsed);
    restated
}

/// What becomes of an open or lapsed message by whether it has lapsed; any other outcome stays.
fn outcome_by_lapse(outcome: Outcome, lapsed: bool) -> Outcome
    ensures { result ≡ by_lapse lapsed outcome }
{
    match outcome {
        Outcome::Open | Outcome::Lapsed => {
            if lapsed {
                Outcome::Lapsed
            } else {
                Outcome::Open
            }
        }
        _ => outcome,
    }
}

/// The outcome of the first condition that holds, in the order of the table of outcomes.
fn outcome(
    message: &Message<'_>,
    lapsed: bool,
    shared: bool,
    decider: Option<&ReceivedReceipt<'_>>,
) -> Outcome
    ensures { (standing : Option Standing) (route : Option (RouteId × List ℕ))
        → is_shared standing ≡ shared
        → result ≡ outcomes.outcome_by message.now
        (circumstances_by standing (option_copied decider.entry) route lapsed) }
{
    let Some(response) = message.response.as_ref() else {
        return Outcome::Waiting;
    };
    if !response.agrees {
        return Outcome::Mismatched;
    }
    if response.status != 0 {
        return Outcome::Refused;
    }
    if response.id.is_none() {
        return Outcome::NoId;
    }
    if shared {
        return Outcome::Ambiguous;
    }
    if let Some(receipt) = decider {
        return if is_delivered(receipt.receipt.state) {
            Outcome::Delivered
        } else {
            Outcome::Failed
        };
    }
    if !message.asks_receipt() {
        return Outcome::Unasked;
    }
    if lapsed {
        return Outcome::Lapsed;
    }
    Outcome::Open
}

/// Why a message with this outcome failed.
fn error(
    outcome: Outcome,
    message: &Message<'_>,
    decider: Option<&ReceivedReceipt<'_>>,
) -> Option<SubmitError>
    ensures { result
        ≡ outcomes.error_by outcome message.now.response (option_copied decider.entry) }
{
    match outcome {
        Outcome::Refused => Some(SubmitError::Refused {
            status: message.response.as_ref()?.status,
        }),
        Outcome::Failed => Some(SubmitError::Failed(decider?.receipt.error.copy())),
        _ => None,
    }
}

/// The band of how long the deciding receipt took on the link, where it gave the message this outcome.
fn link_delay(
    outcome: Outcome,
    message: &Message<'_>,
    decider: Option<&ReceivedReceipt<'_>>,
) -> Option<Band>
    ensures { result
        ≡ outcomes.link_delay_by outcome message.now.moment (option_copied decider.entry) }
{
    match outcome {
        Outcome::Delivered | Outcome::Failed => {
            Some(Band::of(decider?.delay_after(message.moment)))
        }
        _ => None,
    }
}

/// The band of how long the message took by the dates of that receipt, where it gives them.
fn centre_delay(outcome: Outcome, decider: Option<&ReceivedReceipt<'_>>) -> Option<Band>
    ensures { result ≡ outcomes.centre_delay_by outcome (option_copied decider.entry) }
{
    match outcome {
        Outcome::Delivered | Outcome::Failed => Some(Band::of(decider?.receipt.centre_delay?)),
        _ => None,
    }
}

fn is_delivered(state: MessageState) -> bool
    ensures { result ≡ outcomes.is_delivered state }
{
    matches!(state, MessageState::Delivered)
}
