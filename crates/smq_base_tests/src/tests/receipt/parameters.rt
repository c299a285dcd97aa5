//! Optional parameters beside texts.
use crate::tests::receipt::{Expected, ID_OF_64, ID_OF_65, says, with_id_and_state};
use smq_receipt::MessageState;

/// A text, receipted_message_id, message_state and what they say together.
const PARAMETERS: &[(&str, Option<&[u8]>, Option<&[u8]>, Expected)] = &[
    (
        "id:1 stat:DELIVRD",
        Some(ID_OF_64),
        None,
        Expected::Delivered(ID_OF_64),
    ),
    (
        "id:1 stat:DELIVRD",
        Some(b"7\0"),
        None,
        Expected::Delivered(b"7"),
    ),
    (
        "id:1 stat:DELIVRD",
        Some(b"7\08"),
        None,
        Expected::Delivered(b"7"),
    ),
    (
        "id:1 stat:DELIVRD",
        Some(b"7"),
        None,
        Expected::Delivered(b"7"),
    ),
    (
        "id:1 stat:DELIVRD",
        Some(b""),
        None,
        Expected::Delivered(b"1"),
    ),
    (
        "id:1 stat:DELIVRD",
        Some(b"\07"),
        None,
        Expected::Delivered(b"1"),
    ),
    (
        "id:1 stat:DELIVRD",
        Some(ID_OF_65),
        None,
        Expected::Delivered(b"1"),
    ),
    ("", Some(b"7"), None, Expected::NoState),
    (
        "id:1 stat:EXPIRED",
        None,
        Some(b"\x01"),
        Expected::Says(b"1", MessageState::Enroute),
    ),
    (
        "id:1 stat:EXPIRED",
        None,
        Some(b"\x02"),
        Expected::Says(b"1", MessageState::Delivered),
    ),
    (
        "id:1 stat:EXPIRED",
        None,
        Some(b"\x03"),
        Expected::Says(b"1", MessageState::Expired),
    ),
    (
        "id:1 stat:EXPIRED",
        None,
        Some(b"\x04"),
        Expected::Says(b"1", MessageState::Deleted),
    ),
    (
        "id:1 stat:EXPIRED",
        None,
        Some(b"\x05"),
        Expected::Says(b"1", MessageState::Undeliverable),
    ),
    (
        "id:1 stat:EXPIRED",
        None,
        Some(b"\x06"),
        Expected::Says(b"1", MessageState::Accepted),
    ),
    (
        "id:1 stat:EXPIRED",
        None,
        Some(b"\x07"),
        Expected::Says(b"1", MessageState::Unknown),
    ),
    (
        "id:1 stat:EXPIRED",
        None,
        Some(b"\x08"),
        Expected::Says(b"1", MessageState::Rejected),
    ),
    (
        "id:1 stat:EXPIRED",
        None,
        Some(b"\0"),
        Expected::Says(b"1", MessageState::Expired),
    ),
    (
        "id:1 stat:EXPIRED",
        None,
        Some(b"\x09"),
        Expected::Says(b"1", MessageState::Expired),
    ),
    (
        "id:1 stat:EXPIRED",
        None,
        Some(b"\x02\x02"),
        Expected::Says(b"1", MessageState::Expired),
    ),
    (
        "id:1 stat:EXPIRED",
        None,
        Some(b""),
        Expected::Says(b"1", MessageState::Expired),
    ),
    (
        "id:1 stat:ACKED",
        None,
        Some(b"\x05"),
        Expected::Says(b"1", MessageState::Undeliverable),
    ),
    (
        "id:1 stat:",
        None,
        Some(b"\x05"),
        Expected::Says(b"1", MessageState::Undeliverable),
    ),
    (
        "id:1",
        None,
        Some(b"\x05"),
        Expected::Says(b"1", MessageState::Undeliverable),
    ),
];

#[test]
fn parameters_come_before_the_text(rt: HostRuntime) {
    for (text, id, state, expected) in PARAMETERS {
        let deliver = with_id_and_state(text, *id, *state);
        assert!(rt;
            says(&rt, &deliver, *expected, false),
            "{text} {id:?} {state:?}"
        );
    }
}
