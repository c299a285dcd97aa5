//! What is stored of messages and delivery receipts: what their PDUs say, whatever is set.
ghost use Rattle.std.specs.Prelude.{◌≡◌, IfOk};
ghost use Rattle.std.specs.Option.{option_copied};
ghost use Rattle.smq_present.specs.join.Circumstances.{route_in};
ghost use Rattle.smq_present.specs.join.Keyed as keyed;
ghost use Rattle.smq_present.specs.join.Keyed.{accepted_key, receipt_key};

use smq_kit::{Digits, LinkId, LinkKey, MessageId, Moment, Network, RouteId};
use smq_pdu::Submit;
use smq_present::{Message, ReceivedReceipt, Response, Settings, shared};
use smq_receipt::Receipt;
use smq_route::Routes;
use std::alloc::{AllocError, Global};
use std::marker::Model;
use std::sync::Arc;

/// What a response says to its request. It shares the id with what is kept of the PDU. A contract sees it as the
/// definitions have it.
#[derive(Drop)]
pub(crate) struct StoredResponse {
    /// Whether its command is that of the request's response.
    pub agrees: bool,
    /// command_status (SMPP 3.4, 5.1.3).
    pub status: u32,
    pub id: Option<Arc<MessageId, Global>>,
}

impl Model for StoredResponse {
    ghost use Rattle.std.specs.Prelude.{option_map};
    ghost use Rattle.std.specs.Arc.{arc_value};
    ghost use Rattle.smq_present.specs.pairing.Traffic.{Response};

    ghost Value = { Response };

    ghost view = { λ r. record { agrees = r.agrees; status = r.status; id = option_map arc_value r.id } };
}

/// A message with its response, where it has one. It shares the submit_sm or data_sm with what is kept of the PDU. A contract sees
/// it as the definitions have it.
#[derive(Drop)]
pub(crate) struct StoredMessage {
    pub link: LinkId,
    pub moment: Moment,
    pub submit: Arc<Submit, Global>,
    pub response: Option<StoredResponse>,
}

impl Model for StoredMessage {
    ghost use Rattle.std.specs.Arc.{arc_value};
    ghost use Rattle.smq_present.specs.pairing.Traffic.{Message, asks_receipt};

    ghost Value = { Message };

    ghost view = { λ m. record {
      link = m.link;
      moment = m.moment;
      number = (arc_value m.submit).number;
      asks_receipt = asks_receipt (arc_value m.submit).registered_delivery;
      response = m.response;
    } };
}

/// A delivery receipt, which it shares with what is kept of the PDU.
#[derive(Drop)]
pub(crate) struct StoredReceipt {
    pub link: LinkId,
    pub moment: Moment,
    pub receipt: Arc<Receipt, Global>,
}

impl Model for StoredReceipt {
    ghost use Rattle.std.specs.Arc.{arc_value};
    ghost use Rattle.smq_present.specs.pairing.Traffic.{ReceivedReceipt};

    ghost Value = { ReceivedReceipt };

    ghost view = { λ r. record { link = r.link; moment = r.moment; receipt = arc_value r.receipt } };
}

/// What stands at a place: a message, or a delivery receipt.
#[derive(Drop)]
pub(crate) enum Item {
    Message(StoredMessage),
    Receipt(StoredReceipt),
}

impl StoredResponse {
    /// An equal value, which shares the id. It takes no memory.
    fn copy(&self) -> Result<StoredResponse, AllocError>
        ensures { IfOk result (λ response. response ≡ self.now) }
    {
        Ok(StoredResponse {
            agrees: self.agrees,
            status: self.status,
            id: shared(&self.id)?,
        })
    }

    /// What it says.
    fn response(&self) -> Response<'_>
        ensures { result ≡ self.now }
    {
        Response {
            agrees: self.agrees,
            status: self.status,
            id: match &self.id {
                None => None,
                Some(id) => Some(id),
            },
        }
    }
}

impl StoredMessage {
    /// An equal value, which shares the submit_sm or data_sm and the id of its response. It takes no memory.
    pub(crate) fn copy(&self) -> Result<StoredMessage, AllocError>
        ensures { IfOk result (λ message. message ≡ self.now) }
    {
        Ok(StoredMessage {
            link: self.link,
            moment: self.moment,
            submit: Arc::try_clone(&self.submit)?,
            response: match &self.response {
                None => None,
                Some(response) => Some(response.copy()?),
            },
        })
    }

    /// The number that it is sent to, where it has one.
    pub(crate) fn number(&self) -> Option<&Digits>
        ensures { option_copied result ≡ self.now.number }
    {
        self.submit.number.as_ref()
    }

    /// What it and its response say.
    pub(crate) fn message(&self) -> Message<'_>
        ensures { result ≡ self.now }
    {
        Message {
            link: self.link,
            moment: self.moment,
            submit: &self.submit,
            response: match &self.response {
                None => None,
                Some(response) => Some(response.response()),
            },
        }
    }

    /// The key of the id with which it is accepted, under what is set, where it is.
    pub(crate) fn key(&self, settings: &Settings) -> Option<LinkKey>
        ensures { result ≡ accepted_key settings.now self.now }
    {
        let id = self.message().accepted_id()?;
        let forms = settings.forms_of(self.link);
        Some(LinkKey::of(self.link, forms.response, id))
    }

    /// The route and network of its number at its moment, where it has a number that has them.
    pub(crate) fn route(&self, routes: &Routes) -> Option<(RouteId, Network)>
        ensures { result ≡ route_in routes.now.versions self.now }
    {
        self.message().route(routes)
    }
}

impl StoredReceipt {
    /// An equal value, which shares the receipt. It takes no memory.
    pub(crate) fn copy(&self) -> Result<StoredReceipt, AllocError>
        ensures { IfOk result (λ receipt. receipt ≡ self.now) }
    {
        Ok(StoredReceipt {
            link: self.link,
            moment: self.moment,
            receipt: Arc::try_clone(&self.receipt)?,
        })
    }

    /// The key of its id, under what is set.
    pub(crate) fn key(&self, settings: &Settings) -> LinkKey
        ensures { result ≡ receipt_key settings.now self.now }
    {
        let forms = settings.forms_of(self.link);
        LinkKey::of(self.link, forms.receipt, &self.receipt.id)
    }

    /// What it says.
    pub(crate) fn received(&self) -> ReceivedReceipt<'_>
        ensures { result ≡ self.now }
    {
        ReceivedReceipt {
            link: self.link,
            moment: self.moment,
            receipt: &self.receipt,
        }
    }

    /// Whether its state is final and it isn't an intermediate notification.
    pub(crate) fn can_decide(&self) -> bool
        ensures { result ≡ keyed.can_decide self.now.receipt }
    {
        self.received().can_decide()
    }
}

/// What a receipt says, where there is one.
pub(crate) fn received_in(receipt: Option<&StoredReceipt>) -> Option<ReceivedReceipt<'_>>
    ensures { result ≡ option_copied receipt.entry }
{
    Some(receipt?.received())
}
