//! What the body of a data_sm says (SMPP 3.4, 4.7.1). The client hands its centre a message with it, and the centre a
//! client a message or a delivery receipt, whose text is then message_payload.
ghost use Rattle.std.specs.Prelude.{◌≡◌, option_map};
ghost use Rattle.smq_pdu.specs.Bodies.{submit_of_data_sm, deliver_of_data_sm};
ghost use Rattle.smq_pdu.specs.Readers.{data_sm_fields_at};
ghost use Rattle.smq_pdu.specs.Pdu.{data_sm_of};
ghost use Rattle.smq_pdu.specs.Decoded.{submit_view, deliver_view, data_sm_view, body_view};
ghost use Rattle.smq_pdu.specs.within.Views.{seen_data_sm_fields};

use crate::body::{Body, Deliver, Submit, read_digits};
use crate::fields::{
    Address, MESSAGE_PAYLOAD, MESSAGE_STATE, NETWORK_ERROR_CODE, RECEIPTED_MESSAGE_ID, first_value,
    read_address, read_octet, read_text,
};
use crate::source::SourceAddress;
use smq_kit::Digits;

/// What is read of a data_sm (SMPP 3.4, 4.7.1). An optional parameter has the value of the first
/// TLV with its tag, of any length.
#[derive(Debug, PartialEq, Eq, Drop)]
pub struct DataSm<'a> {
    /// Bits 5 to 2 tell a delivery receipt from a message (SMPP 3.4, 5.2.12).
    pub esm_class: u8,
    /// Bits 1 and 0 ask for a delivery receipt (SMPP 3.4, 5.2.17).
    pub registered_delivery: u8,
    /// The number that it is sent to, as `Submit` has it.
    pub number: Option<Digits>,
    /// source_addr_ton and source_addr, as `Submit` has them.
    pub source_ton: u8,
    pub source: Option<SourceAddress>,
    /// Tag 0x001E (SMPP 3.4, 5.3.2.12).
    pub receipted_message_id: Option<&'a [u8]>,
    /// Tag 0x0423 (SMPP 3.4, 5.3.2.31).
    pub network_error_code: Option<&'a [u8]>,
    /// Tag 0x0424 (SMPP 3.4, 5.3.2.32).
    pub message_payload: Option<&'a [u8]>,
    /// Tag 0x0427 (SMPP 3.4, 5.3.2.35).
    pub message_state: Option<&'a [u8]>,
}

impl<'a> DataSm<'a> {
    /// What it says as a message that a client hands to its centre. It takes no memory.
    pub fn submit(&self) -> Submit
        ensures { submit_view result ≡ submit_of_data_sm (data_sm_view self.now) }
    {
        Submit {
            registered_delivery: self.registered_delivery,
            number: match &self.number {
                None => None,
                Some(number) => Some(number.copy()),
            },
            source_ton: self.source_ton,
            source: match &self.source {
                None => None,
                Some(source) => Some(source.copy()),
            },
        }
    }

    /// What it says as what a centre hands to a client. Its short_message is empty.
    pub fn deliver(&self) -> Deliver<'a>
        ensures { deliver_view result ≡ deliver_of_data_sm (data_sm_view self.now) }
    {
        Deliver {
            esm_class: self.esm_class,
            short_message: b"",
            receipted_message_id: self.receipted_message_id,
            network_error_code: self.network_error_code,
            message_payload: self.message_payload,
            message_state: self.message_state,
        }
    }
}

/// The mandatory fields, in the standard's order.
#[derive(Clone, Copy)]
pub struct DataSmFields<'a> {
    pub service_type: &'a [u8],
    pub source: Address<'a>,
    pub destination: Address<'a>,
    pub esm_class: u8,
    pub registered_delivery: u8,
    pub data_coding: u8,
}

/// The body of a data_sm.
#[tactic(auto, unfolding(crate::specs::Pdu::data_sm_of))]
pub(crate) fn read_data_sm(octets: &[u8]) -> Body<'_>
    ensures { body_view result ≡ data_sm_of octets.now }
{
    match read_data_sm_fields(octets) {
        None => Body::Undecodable,
        Some((fields, rest)) => Body::DataSm(DataSm {
            esm_class: fields.esm_class,
            registered_delivery: fields.registered_delivery,
            number: read_digits(&fields.destination),
            source_ton: fields.source.ton,
            source: SourceAddress::new(fields.source.text),
            receipted_message_id: first_value(RECEIPTED_MESSAGE_ID, rest),
            network_error_code: first_value(NETWORK_ERROR_CODE, rest),
            message_payload: first_value(MESSAGE_PAYLOAD, rest),
            message_state: first_value(MESSAGE_STATE, rest),
        }),
    }
}

/// The mandatory fields at the front of a body, and what follows them.
#[tactic(auto, unfolding(crate::specs::Readers::data_sm_fields_at))]
fn read_data_sm_fields(octets: &[u8]) -> Option<(DataSmFields<'_>, &[u8])>
    ensures { option_map seen_data_sm_fields result ≡ data_sm_fields_at octets.now }
{
    let (service_type, rest) = read_text(octets)?;
    let (source, rest) = read_address(rest)?;
    let (destination, rest) = read_address(rest)?;
    let (esm_class, rest) = read_octet(rest)?;
    let (registered_delivery, rest) = read_octet(rest)?;
    let (data_coding, rest) = read_octet(rest)?;
    let fields = DataSmFields {
        service_type,
        source,
        destination,
        esm_class,
        registered_delivery,
        data_coding,
    };
    Some((fields, rest))
}
