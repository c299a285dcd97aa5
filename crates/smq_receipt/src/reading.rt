//! What a deliver_sm says as a delivery receipt (SMPP 3.4, appendix B), or a data_sm, whose text is message_payload. Id,
//! state and error are each read of their own parameter where that is usable, and else of their name in the text; a receipt
//! without an id is told before one without a state.
ghost use Rattle.std.specs.Prelude.{◌≡◌, ◌==◌, unwrap_or};
ghost use Rattle.std.specs.Option.{option_copied};
ghost use Rattle.smq_kit.specs.declared.error_code.ErrorCode.TheVariants.{Unstated};
ghost use Rattle.smq_pdu.specs.Decoded.{deliver_view};
ghost use Rattle.smq_receipt.specs.Errors.{network_code_in, text_code_in};
ghost use Rattle.smq_receipt.specs.Readings.{is_interim, is_receipt, text_of, usable_id, receipted_id, state_in, parameter_or_value, receipt_of, reading_of};
ghost use Rattle.smq_receipt.specs.States.{state_of_word};
ghost use Rattle.smq_receipt.specs.Texts.{header_of};

use crate::MessageState;
use crate::date::centre_delay;
use crate::text::{up_to, values_in};
use smq_kit::{ErrorCode, ErrorText, MessageId};
use smq_pdu::Deliver;

/// Bits 5 to 2 of esm_class, which tell what a message is (SMPP 3.4, 5.2.12).
const MESSAGE_TYPE: u8 = 0x3C;

/// Their value in a delivery receipt.
const DELIVERY_RECEIPT: u8 = 0x04;

/// Their value in an intermediate notification.
const INTERMEDIATE_NOTIFICATION: u8 = 0x20;

/// What a receipt says of the message that it is about.
#[derive(Debug, PartialEq, Eq, Drop)]
pub struct Receipt {
    /// The id that the centre gave the message, as the receipt writes it.
    pub id: MessageId,
    /// What became of the message.
    pub state: MessageState,
    /// Whether it is an intermediate notification, after which another receipt comes.
    pub interim: bool,
    /// Why it failed, where the receipt says so.
    pub error: ErrorCode,
    /// Done date minus submit date, in ms, where both are there and are dates. It may be negative.
    pub centre_delay: Option<i64>,
}

impl Receipt {
    /// An equal receipt. It takes no memory.
    pub fn copy(&self) -> Receipt
        ensures { result ≡ self.now }
    {
        Receipt {
            id: self.id.copy(),
            state: self.state,
            interim: self.interim,
            error: self.error.copy(),
            centre_delay: self.centre_delay,
        }
    }
}

/// What a deliver_sm or data_sm says as a receipt.
#[derive(Debug, PartialEq, Eq, Drop)]
pub enum Reading {
    Receipt(Receipt),
    /// A receipt without a usable id, whether or not it has a state.
    NoId,
    /// A receipt with an id and without a usable state.
    NoState,
    NotReceipt,
}

impl Reading {
    /// An equal reading. It takes no memory.
    pub fn copy(&self) -> Reading
        ensures { result ≡ self.now }
    {
        match self {
            Reading::Receipt(receipt) => Reading::Receipt(receipt.copy()),
            Reading::NoId => Reading::NoId,
            Reading::NoState => Reading::NoState,
            Reading::NotReceipt => Reading::NotReceipt,
        }
    }
}

/// What a deliver_sm says as a receipt; a data_sm as its `deliver` gives it. It takes no memory, and time linear in the text.
#[tactic(auto, unfolding(crate::specs::Readings::reading_of))]
pub fn read(deliver: &Deliver<'_>) -> Reading
    ensures { result ≡ reading_of (deliver_view deliver.now) }
{
    if !is_receipt(deliver) {
        return Reading::NotReceipt;
    }
    read_receipt(deliver, text_of(deliver))
}

/// Whether esm_class marks an intermediate notification (SMPP 3.4, 5.2.12).
fn is_interim(deliver: &Deliver<'_>) -> bool
    ensures { result ≡ is_interim (deliver_view deliver.now) }
{
    deliver.esm_class & MESSAGE_TYPE == INTERMEDIATE_NOTIFICATION
}

/// Whether esm_class marks a receipt of either kind, or receipted_message_id is there.
fn is_receipt(deliver: &Deliver<'_>) -> bool
    ensures { result ≡ is_receipt (deliver_view deliver.now) }
{
    deliver.esm_class & MESSAGE_TYPE == DELIVERY_RECEIPT
        || is_interim(deliver)
        || deliver.receipted_message_id.is_some()
}

/// The text: short_message, or message_payload where that has no octets.
#[tactic(auto, unfolding(crate::specs::Readings::text_of))]
fn text_of<'a>(deliver: &Deliver<'a>) -> &'a [u8]
    ensures { result.now ≡ text_of (deliver_view deliver.now) }
{
    if !deliver.short_message.is_empty() {
        return deliver.short_message;
    }
    match deliver.message_payload {
        None => b"",
        Some(payload) => payload,
    }
}

/// What a receipt says, by its text.
#[tactic(auto, unfolding(crate::specs::Readings::receipt_of, crate::specs::Readings::id_of, crate::specs::Readings::state_of, crate::specs::Readings::error_of, crate::specs::Dates::centre_delay_of))]
fn read_receipt(deliver: &Deliver<'_>, text: &[u8]) -> Reading
    ensures { result ≡ receipt_of (deliver_view deliver.now) (header_of text.now) }
{
    let values = values_in(text);
    let Some(id) = read_id(deliver, values.id) else {
        return Reading::NoId;
    };
    let Some(state) = read_state(deliver, values.stat) else {
        return Reading::NoState;
    };
    Reading::Receipt(Receipt {
        id,
        state,
        interim: is_interim(deliver),
        error: read_error(deliver, values.err),
        centre_delay: centre_delay(values.submit_date, values.done_date),
    })
}

/// An id of 1 to 64 octets.
#[tactic(auto, unfolding(crate::specs::Readings::usable_id))]
fn usable_id(octets: &[u8]) -> Option<MessageId>
    ensures { result ≡ usable_id octets.now }
{
    MessageId::new(octets).ok()
}

/// The id in receipted_message_id (SMPP 3.4, 5.3.2.12).
#[tactic(auto, unfolding(crate::specs::Readings::receipted_id))]
fn receipted_id(octets: &[u8]) -> Option<MessageId>
    ensures { result ≡ receipted_id octets.now }
{
    usable_id(up_to(0, octets))
}

/// The state in message_state (SMPP 3.4, 5.3.2.35).
#[tactic(auto, unfolding(crate::specs::Readings::state_in))]
fn state_in(octets: &[u8]) -> Option<MessageState>
    ensures { result ≡ state_in octets.now }
{
    match octets {
        [number] => MessageState::from_number(*number),
        _ => None,
    }
}

/// The id: of receipted_message_id where usable, and else of `id`.
fn read_id(deliver: &Deliver<'_>, value: Option<&[u8]>) -> Option<MessageId>
    ensures { let parameter = (deliver_view deliver.now).receipted_message_id in
        result ≡ parameter_or_value receipted_id parameter usable_id (option_copied value.entry) }
{
    if let Some(octets) = deliver.receipted_message_id {
        if let Some(id) = receipted_id(octets) {
            return Some(id);
        }
    }
    usable_id(value?)
}

/// The state: of message_state where usable, and else of `stat`.
fn read_state(deliver: &Deliver<'_>, value: Option<&[u8]>) -> Option<MessageState>
    ensures { let parameter = (deliver_view deliver.now).message_state in
        result ≡ parameter_or_value state_in parameter state_of_word (option_copied value.entry) }
{
    if let Some(octets) = deliver.message_state {
        if let Some(state) = state_in(octets) {
            return Some(state);
        }
    }
    MessageState::from_word(value?)
}

/// The error: of network_error_code where usable, else of `err`, else unstated.
fn read_error(deliver: &Deliver<'_>, value: Option<&[u8]>) -> ErrorCode
    ensures { let parameter = (deliver_view deliver.now).network_error_code in
        let code = parameter_or_value network_code_in parameter text_code_in (option_copied value.entry) in
        result ≡ unwrap_or code Unstated }
{
    if let Some(octets) = deliver.network_error_code {
        if let Some(code) = network_code(octets) {
            return code;
        }
    }
    if let Some(octets) = value {
        if let Some(code) = text_code(octets) {
            return code;
        }
    }
    ErrorCode::Unstated
}

/// The code in the octets of network_error_code.
#[tactic(auto, unfolding(crate::specs::Errors::network_code_in))]
fn network_code(octets: &[u8]) -> Option<ErrorCode>
    ensures { result ≡ network_code_in octets.now }
{
    match octets {
        [kind, high, low] => Some(ErrorCode::Network {
            kind: *kind,
            code: *high as u16 * 256 + *low as u16,
        }),
        _ => None,
    }
}

/// The code in the value of `err`.
#[tactic(auto, unfolding(crate::specs::Errors::text_code_in))]
fn text_code(octets: &[u8]) -> Option<ErrorCode>
    ensures { result ≡ text_code_in octets.now }
{
    let text = ErrorText::new(octets)?;
    Some(ErrorCode::Text(text))
}
