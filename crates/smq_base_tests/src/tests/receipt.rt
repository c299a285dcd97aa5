//! Texts and parameters of receipts, as centres write them.
mod dates;
mod errors;
mod marks;
mod parameters;
mod states;
mod texts;

use smq_kit::MessageId;
use smq_pdu::Deliver;
use smq_receipt::{ErrorCode, ErrorText, MessageState, Reading, Receipt, read};
use std::process::Abort;

pub const ID_OF_64: &[u8] = b"0123456789012345678901234567890123456789012345678901234567890123";

pub const ID_OF_65: &[u8] = b"01234567890123456789012345678901234567890123456789012345678901234";

/// What is expected of a receipt: an id with DELIVERED or another state, or what can't be read of it.
#[derive(Clone, Copy)]
pub enum Expected {
    Delivered(&'static [u8]),
    Says(&'static [u8], MessageState),
    NoId,
    NoState,
    NotReceipt,
}

/// A delivery receipt with this text and no optional parameter.
pub fn saying(text: &str) -> Deliver<'_> {
    with_id_and_state(text, None, None)
}

/// A delivery receipt with this text, and with these receipted_message_id and message_state.
pub fn with_id_and_state<'a>(
    text: &'a str,
    id: Option<&'a [u8]>,
    state: Option<&'a [u8]>,
) -> Deliver<'a> {
    Deliver {
        esm_class: 0x04,
        short_message: text.as_bytes(),
        receipted_message_id: id,
        network_error_code: None,
        message_payload: None,
        message_state: state,
    }
}

/// A receipt without an error and dates.
pub fn receipt(rt: &impl Abort, id: &[u8], state: MessageState, interim: bool) -> Receipt {
    Receipt {
        id: MessageId::new(id).expect(rt, "an id"),
        state,
        interim,
        error: ErrorCode::Unstated,
        centre_delay: None,
    }
}

/// The reading that is expected, without an error and dates.
fn reading(rt: &impl Abort, expected: Expected, interim: bool) -> Reading {
    match expected {
        Expected::Delivered(id) => {
            Reading::Receipt(receipt(rt, id, MessageState::Delivered, interim))
        }
        Expected::Says(id, state) => Reading::Receipt(receipt(rt, id, state, interim)),
        Expected::NoId => Reading::NoId,
        Expected::NoState => Reading::NoState,
        Expected::NotReceipt => Reading::NotReceipt,
    }
}

/// Whether a deliver_sm says what is expected, without an error and dates.
pub fn says(rt: &impl Abort, deliver: &Deliver<'_>, expected: Expected, interim: bool) -> bool {
    read(deliver) == reading(rt, expected, interim)
}

/// An error that is expected.
#[derive(Clone, Copy)]
pub enum Error {
    Network(u8, u16),
    Text(&'static str),
    Unstated,
}

fn error_code(rt: &impl Abort, error: Error) -> ErrorCode {
    match error {
        Error::Network(kind, code) => ErrorCode::Network { kind, code },
        Error::Text(text) => {
            ErrorCode::Text(ErrorText::new(text.as_bytes()).expect(rt, "an error text"))
        }
        Error::Unstated => ErrorCode::Unstated,
    }
}

/// Whether a deliver_sm says this of the message with the id 1.
pub fn says_of_1(
    rt: &impl Abort,
    deliver: &Deliver<'_>,
    state: MessageState,
    error: Error,
    centre_delay: Option<i64>,
) -> bool {
    let expected = Receipt {
        error: error_code(rt, error),
        centre_delay,
        ..receipt(rt, b"1", state, false)
    };
    read(deliver) == Reading::Receipt(expected.copy())
}
