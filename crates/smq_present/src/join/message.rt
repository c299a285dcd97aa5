//! What messages and delivery receipts say, borrowed from where that is stored.
ghost use Rattle.std.specs.Prelude.{◌≡◌, pos, ◌-ℤ◌};
ghost use Rattle.std.specs.Option.{option_copied};
ghost use Rattle.smq_present.specs.join.Circumstances.{has_ended, route_in};
ghost use Rattle.smq_present.specs.join.Keyed as keyed;
ghost use Rattle.smq_present.specs.join.Keyed.{accepted_id};
ghost use Rattle.smq_present.specs.present.Settings.{window_in};

use crate::present::settings::Windows;
use smq_kit::{LinkId, MessageId, Moment, Network, RouteId};
use smq_pdu::Submit;
use smq_receipt::Receipt;
use smq_route::Routes;
use std::marker::Model;

/// What the response to a submit_sm or data_sm says (SMPP 3.4, 4.4.2 and 4.7.2). A contract sees it as the definitions have it.
#[derive(Drop)]
pub struct Response<'a> {
    /// Whether its command_id is that of the request's response (5.1.2.1).
    pub agrees: bool,
    /// command_status (5.1.3), 0 for success.
    pub status: u32,
    /// message_id (5.2.23), where it gives one of 1 to 64 octets.
    pub id: Option<&'a MessageId>,
}

impl<'a> Model for Response<'a> {
    ghost use Rattle.std.specs.Option.{option_copied};
    ghost use Rattle.smq_present.specs.pairing.Traffic.{Response};

    ghost Value = { Response };

    ghost view = { λ r. record { agrees = r.agrees; status = r.status; id = option_copied r.id } };
}

/// What a submit_sm or data_sm of a client says (4.4.1 and 4.7.1), and its response, where it has one. A contract sees it as the
/// definitions have it.
#[derive(Drop)]
pub struct Message<'a> {
    /// The link of its session.
    pub link: LinkId,
    /// When its last octet came.
    pub moment: Moment,
    pub submit: &'a Submit,
    pub response: Option<Response<'a>>,
}

impl<'a> Model for Message<'a> {
    ghost use Rattle.smq_present.specs.pairing.Traffic.{Message, asks_receipt};

    ghost Value = { Message };

    ghost view = { λ m. record {
      link = m.link;
      moment = m.moment;
      number = m.submit.now.number;
      asks_receipt = asks_receipt m.submit.now.registered_delivery;
      response = m.response;
    } };
}

/// A delivery receipt that a deliver_sm or data_sm of a centre brings (4.6.1 and 4.7.1). A contract sees it as the definitions have
/// it.
#[derive(Drop)]
pub struct ReceivedReceipt<'a> {
    /// The link of its session.
    pub link: LinkId,
    /// When its last octet came.
    pub moment: Moment,
    pub receipt: &'a Receipt,
}

impl<'a> Model for ReceivedReceipt<'a> {
    ghost use Rattle.smq_present.specs.pairing.Traffic.{ReceivedReceipt};

    ghost Value = { ReceivedReceipt };

    ghost view = { λ r. record { link = r.link; moment = r.moment; receipt = r.receipt.now } };
}

impl<'a> Message<'a> {
    /// The id with which it is accepted, where it is: that of a response that agrees and has status 0.
    pub fn accepted_id(&self) -> Option<&'a MessageId>
        ensures { option_copied result ≡ accepted_id self.now.response }
    {
        let response = self.response.as_ref()?;
        if !response.agrees || response.status != 0 {
            return None;
        }
        response.id
    }

    /// Whether bits 1 and 0 of its registered_delivery ask for a delivery receipt (5.2.17).
    pub(crate) fn asks_receipt(&self) -> bool
        ensures { result ≡ self.now.asks_receipt }
    {
        self.submit.registered_delivery % 4 != 0
    }

    /// The route and network of its number at its moment, where it has a number that has them.
    pub fn route(&self, routes: &Routes) -> Option<(RouteId, Network)>
        ensures { result ≡ route_in routes.now.versions self.now }
    {
        let number = self.submit.number.as_ref()?;
        routes.at(number, self.moment)
    }

    /// Whether a clock is at the end of the window of its link, or past it.
    pub fn has_lapsed(&self, windows: &Windows, clock: Moment) -> bool
        ensures { result ≡ has_ended clock self.now.moment (window_in windows.now self.now.link) }
    {
        let window = windows.of(self.link);
        self.moment.milliseconds() + window.milliseconds() <= clock.milliseconds()
    }
}

impl<'a> ReceivedReceipt<'a> {
    /// Whether its state is final (5.2.28) and it isn't an intermediate notification.
    pub fn can_decide(&self) -> bool
        ensures { result ≡ keyed.can_decide self.now.receipt }
    {
        self.receipt.state.is_final() && !self.receipt.interim
    }

    /// The delay in ms from a moment to its own, which is negative where it stands before it.
    pub(crate) fn delay_after(&self, moment: Moment) -> i64
        ensures { result ≡ (pos self.now.moment -ℤ pos moment) }
    {
        self.moment.milliseconds() as i64 - moment.milliseconds() as i64
    }
}
