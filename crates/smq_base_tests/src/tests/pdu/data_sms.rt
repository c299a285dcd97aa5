//! Bodies of data_sm and data_sm_resp, by the standard's tables of their fields (SMPP 3.4, 4.7.1 and 4.7.2).
use crate::tests::pdu::{NO_SOURCE, Parameters, Says, assert_body};

const DATA_SM: u32 = 0x0000_0103;

const DATA_SM_RESP: u32 = 0x8000_0103;

const NONE: Parameters = (None, None, None, None);

/// What a data_sm is; its body; what it says.
const DATA_SMS: &[(&str, &[u8], Says)] = &[
    (
        "from 1000 to 447700900123, with a receipt asked",
        b"\x00\x00\x001000\x00\x01\x01447700900123\x00\x00\x01\x00",
        Says::DataSm(1, (0, b"1000"), b"447700900123", 0, NONE),
    ),
    (
        "to +42 of unknown type, of service type WAP, with other octets in each field",
        b"WAP\x00\x05\x06x\x00\x00\x01+42\x00\x40\x12\x08",
        Says::DataSm(0x12, (5, b"x"), b"42", 0x40, NONE),
    ),
    (
        "to a number of national type",
        b"\x00\x00\x00\x00\x02\x01447700900123\x00\x00\x01\x00",
        Says::DataSm(1, NO_SOURCE, b"", 0, NONE),
    ),
    (
        "a delivery receipt",
        b"\x00\x00\x00\x00\x00\x00\x00\x04\x00\x00\x04\x24\x00\x11id:1 stat:DELIVRD",
        Says::DataSm(
            0,
            NO_SOURCE,
            b"",
            4,
            (None, None, Some(b"id:1 stat:DELIVRD"), None),
        ),
    ),
    (
        "with each parameter that is read, of which the first one counts",
        b"\x00\x00\x00\x00\x00\x00\x00\x20\x00\x00\
            \x00\x1e\x00\x03A1\x00\x04\x23\x00\x03\x03\x00\x1b\x04\x24\x00\x01a\x04\x24\x00\x01b\x04\x27\x00\x01\x02",
        Says::DataSm(
            0,
            NO_SOURCE,
            b"",
            0x20,
            (
                Some(b"A1\0"),
                Some(b"\x03\0\x1b"),
                Some(b"a"),
                Some(b"\x02"),
            ),
        ),
    ),
    (
        "with a message_payload that is cut off",
        b"\x00\x00\x00\x00\x00\x00\x00\x04\x00\x00\x04\x24\x00\x03ab",
        Says::DataSm(0, NO_SOURCE, b"", 4, NONE),
    ),
    (
        "without data_coding",
        b"\x00\x00\x00\x00\x00\x00\x00\x04\x00",
        Says::Undecodable,
    ),
    (
        "with a destination_addr that doesn't end",
        b"\x00\x00\x00\x00\x01\x01447700900123",
        Says::Undecodable,
    ),
    ("without a body", b"", Says::Undecodable),
];

/// What a data_sm_resp is; its body; its id, or none where that is empty.
const RESPONSES: &[(&str, &[u8], &[u8])] = &[
    ("an id", b"0000A1B2\x00", b"0000A1B2"),
    (
        "an id and a parameter",
        b"1\x00\x04\x23\x00\x03\x03\x00\x1b",
        b"1",
    ),
    ("an id without its zero octet", b"1", b"1"),
    ("an empty id", b"\x00", b""),
    ("no body", b"", b""),
    (
        "an id of 64 octets",
        b"0123456789012345678901234567890123456789012345678901234567890123\x00",
        b"0123456789012345678901234567890123456789012345678901234567890123",
    ),
    (
        "an id of 65 octets",
        b"01234567890123456789012345678901234567890123456789012345678901234\x00",
        b"",
    ),
];

#[test]
fn data_sms_are_decoded(rt: HostRuntime) {
    for (message, body, says) in DATA_SMS {
        assert_body(&rt, rt.alloc(), (1, DATA_SM, 0), body, says, message);
    }
}

#[test]
fn their_responses_are_decoded(rt: HostRuntime) {
    for (message, body, id) in RESPONSES {
        let says = Says::Response(*id);
        assert_body(&rt, rt.alloc(), (1, DATA_SM_RESP, 0), body, &says, message);
    }
}
