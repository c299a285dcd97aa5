//! Errors, by the parameter and by the text.
use crate::tests::receipt::{Error, receipt, says_of_1};
use smq_pdu::Deliver;
use smq_receipt::MessageState;

/// A text, network_error_code and the error that they say together.
const ERRORS: &[(&str, Option<&[u8]>, Error)] = &[
    ("err:027", None, Error::Text("027")),
    ("ERR:a-Z_9.", None, Error::Text("a-Z_9.")),
    (
        "err:1234567890123456",
        None,
        Error::Text("1234567890123456"),
    ),
    ("err:12345678901234567", None, Error::Unstated),
    ("err:", None, Error::Unstated),
    ("err:0x1/2", None, Error::Unstated),
    ("", None, Error::Unstated),
    ("err:027", Some(b"\x03\0\x08"), Error::Network(3, 8)),
    ("", Some(b"\x03\x01\x02"), Error::Network(3, 258)),
    ("err:1", Some(b"027"), Error::Network(48, 12_855)),
    ("err:027", Some(b"\0\x08"), Error::Text("027")),
    ("err:027", Some(b"0027"), Error::Text("027")),
];

/// A delivery receipt of the id 1 and the state 5 with this payload and network_error_code.
fn with_error<'a>(text: &'a str, parameter: Option<&'a [u8]>) -> Deliver<'a> {
    Deliver {
        esm_class: 0x04,
        short_message: b"",
        receipted_message_id: Some(b"1"),
        network_error_code: parameter,
        message_payload: Some(text.as_bytes()),
        message_state: Some(b"\x05"),
    }
}

#[test]
fn errors_are_of_the_network_or_the_text(rt: HostRuntime) {
    for (text, parameter, error) in ERRORS {
        let deliver = with_error(text, *parameter);
        let is_said = says_of_1(&rt, &deliver, MessageState::Undeliverable, *error, None);
        assert!(rt; is_said, "{text} {parameter:?}");
    }
}
