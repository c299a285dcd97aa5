//! What the body of a PDU says.
ghost use Rattle.std.specs.Prelude.{◌≡◌};
ghost use Rattle.smq_pdu.specs.Pdu.{before_zero, id_of, submit_of, deliver_of, body_of};
ghost use Rattle.smq_pdu.specs.Decoded.{body_view};
ghost use Rattle.smq_pdu.specs.Numbers.{without_plus, number_of};
ghost use Rattle.smq_pdu.specs.within.Views.{address_view};

use crate::data_sm::{DataSm, read_data_sm};
use crate::fields::{
    Address, MESSAGE_PAYLOAD, MESSAGE_STATE, NETWORK_ERROR_CODE, RECEIPTED_MESSAGE_ID, first_value,
    read_mandatory, zero_place,
};
use crate::pdu::{DATA_SM, DATA_SM_RESP, DELIVER_SM, SUBMIT_SM, SUBMIT_SM_RESP};
use crate::source::SourceAddress;
use smq_kit::{Digits, MessageId};

/// The type of an international number; the unknown type is 0 (SMPP 3.4, 5.2.5).
const INTERNATIONAL: u8 = 1;

/// What is read of a submit_sm (SMPP 3.4, 4.4.1).
#[derive(Debug, PartialEq, Eq, Drop)]
pub struct Submit {
    /// Bits 1 and 0 ask for a delivery receipt (SMPP 3.4, 5.2.17).
    pub registered_delivery: u8,
    /// The number that it is sent to: destination_addr without one leading `+` (SMPP 3.4, 5.2.9).
    /// None where dest_addr_ton is neither unknown nor international (SMPP 3.4, 5.2.5), or where
    /// anything but 1 to 15 decimal digits remains (E.164, section 6).
    pub number: Option<Digits>,
    /// The type of the number that it comes from: source_addr_ton (SMPP 3.4, 5.2.5).
    pub source_ton: u8,
    /// source_addr (SMPP 3.4, 5.2.8). None where it is empty, or has more octets than a submit_sm may have.
    pub source: Option<SourceAddress>,
}

impl Submit {
    /// An equal value. It takes no memory.
    pub fn copy(&self) -> Submit
        ensures { result ≡ self.now }
    {
        Submit {
            registered_delivery: self.registered_delivery,
            number: match &self.number {
                None => None,
                Some(number) => Some(number.copy()),
            },
            source_ton: self.source_ton,
            source: match &self.source {
                None => None,
                Some(source) => Some(source.copy()),
            },
        }
    }
}

/// What is read of a submit_sm_resp or a data_sm_resp (SMPP 3.4, 4.4.2 and 4.7.2).
#[derive(Debug, PartialEq, Eq, Drop)]
pub struct SubmitAnswer {
    /// The octets up to the first zero or the end; none where they are empty or over 64.
    pub message_id: Option<MessageId>,
}

/// What is read of a deliver_sm (SMPP 3.4, 4.6.1). An optional parameter has the value of the
/// first TLV with its tag, of any length.
#[derive(Clone, Copy, Debug, PartialEq, Eq)]
pub struct Deliver<'a> {
    /// Bits 5 to 2 tell a delivery receipt from a message (SMPP 3.4, 5.2.12).
    pub esm_class: u8,
    /// At most 255 octets.
    pub short_message: &'a [u8],
    /// Tag 0x001E (SMPP 3.4, 5.3.2.12).
    pub receipted_message_id: Option<&'a [u8]>,
    /// Tag 0x0423 (SMPP 3.4, 5.3.2.31).
    pub network_error_code: Option<&'a [u8]>,
    /// Tag 0x0424 (SMPP 3.4, 5.3.2.32).
    pub message_payload: Option<&'a [u8]>,
    /// Tag 0x0427 (SMPP 3.4, 5.3.2.35).
    pub message_state: Option<&'a [u8]>,
}

/// What the body of a PDU says, by its command.
#[derive(Debug, PartialEq, Eq, Drop)]
pub enum Body<'a> {
    /// A submit_sm.
    Submit(Submit),
    /// A submit_sm_resp or data_sm_resp.
    SubmitAnswer(SubmitAnswer),
    /// A deliver_sm.
    Deliver(Deliver<'a>),
    /// A data_sm.
    DataSm(DataSm<'a>),
    /// The body of any other command.
    Other,
    /// A submit_sm, deliver_sm or data_sm whose mandatory fields don't fit.
    Undecodable,
}

/// The body of a command.
#[tactic(auto, unfolding(crate::specs::Pdu::body_of))]
pub(crate) fn read_body(command: u32, octets: &[u8]) -> Body<'_>
    ensures { body_view result ≡ body_of command octets.now }
{
    match command {
        SUBMIT_SM => read_submit(octets),
        SUBMIT_SM_RESP | DATA_SM_RESP => Body::SubmitAnswer(SubmitAnswer {
            message_id: read_id(octets),
        }),
        DELIVER_SM => read_deliver(octets),
        DATA_SM => read_data_sm(octets),
        _ => Body::Other,
    }
}

/// The body of a submit_sm.
#[tactic(auto, unfolding(crate::specs::Pdu::submit_of))]
fn read_submit(octets: &[u8]) -> Body<'_>
    ensures { body_view result ≡ submit_of octets.now }
{
    match read_mandatory(octets) {
        None => Body::Undecodable,
        Some((fields, _)) => Body::Submit(Submit {
            registered_delivery: fields.back.registered_delivery,
            number: read_digits(&fields.front.destination),
            source_ton: fields.front.source.ton,
            source: SourceAddress::new(fields.front.source.text),
        }),
    }
}

/// The number that an address names.
#[tactic(auto, unfolding(crate::specs::Numbers::number_of), using(crate::proofs::Numbers::digits_facts))]
pub(crate) fn read_digits(address: &Address<'_>) -> Option<Digits>
    ensures { result ≡ number_of (address_view address.now) }
{
    if address.ton > INTERNATIONAL {
        return None;
    }
    Digits::parse(after_plus(address.text)).ok()
}

/// The octets without one leading `+`.
fn after_plus(text: &[u8]) -> &[u8]
    ensures { result.now ≡ without_plus text.now }
{
    match text {
        [b'+', rest @ ..] => rest,
        _ => text,
    }
}

/// The body of a deliver_sm.
#[tactic(auto, unfolding(crate::specs::Pdu::deliver_of))]
fn read_deliver(octets: &[u8]) -> Body<'_>
    ensures { body_view result ≡ deliver_of octets.now }
{
    match read_mandatory(octets) {
        None => Body::Undecodable,
        Some((fields, rest)) => Body::Deliver(Deliver {
            esm_class: fields.middle.esm_class,
            short_message: fields.back.short_message,
            receipted_message_id: first_value(RECEIPTED_MESSAGE_ID, rest),
            network_error_code: first_value(NETWORK_ERROR_CODE, rest),
            message_payload: first_value(MESSAGE_PAYLOAD, rest),
            message_state: first_value(MESSAGE_STATE, rest),
        }),
    }
}

/// The message id of a submit_sm_resp or data_sm_resp.
#[tactic(auto, unfolding(crate::specs::Pdu::id_of))]
fn read_id(octets: &[u8]) -> Option<MessageId>
    ensures { result ≡ id_of octets.now }
{
    MessageId::new(first_text(octets)).ok()
}

/// The octets up to the first zero, or all.
#[tactic(auto, using(crate::proofs::Texts::before_zero_facts))]
fn first_text(octets: &[u8]) -> &[u8]
    ensures { result.now ≡ before_zero octets.now }
{
    match zero_place(octets) {
        None => octets,
        Some(len) => &octets[..len],
    }
}
