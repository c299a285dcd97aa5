//! Bodies, field by field.
use crate::tests::pdu::{DELIVER_SM, NO_SOURCE, SUBMIT_SM, SUBMIT_SM_RESP, Says, assert_body};
use smq_pdu::Submit;

/// A body: what it is, its command_id and command_status, its octets, and what they say.
type BodyRow = (&'static str, u32, u32, &'static [u8], Says);

const BODIES: &[BodyRow] = &[
    (
        "sm_length 0 and a message_payload",
        DELIVER_SM,
        0,
        b"\0\0\0\0\0\0\0\x04\0\0\0\0\0\0\0\0\0\x04\x24\0\x02hi",
        Says::Parameters(None, Some(b"hi"), None),
    ),
    (
        "a TLV whose value is cut off",
        DELIVER_SM,
        0,
        b"\0\0\0\0\0\0\0\x04\0\0\0\0\0\0\0\0\0\x04\x27\0\x02\x02",
        Says::Parameters(None, None, None),
    ),
    (
        "a TLV whose length is cut off",
        DELIVER_SM,
        0,
        b"\0\0\0\0\0\0\0\x04\0\0\0\0\0\0\0\0\0\x04\x27\0",
        Says::Parameters(None, None, None),
    ),
    (
        "a whole TLV before one that is cut off",
        DELIVER_SM,
        0,
        b"\0\0\0\0\0\0\0\x04\0\0\0\0\0\0\0\0\0\x04\x27\0\x01\x02\0\x1e\0\x09id",
        Says::Parameters(None, None, Some(b"\x02")),
    ),
    (
        "two TLVs of a tag",
        DELIVER_SM,
        0,
        b"\0\0\0\0\0\0\0\x04\0\0\0\0\0\0\0\0\0\x04\x27\0\x01\x02\x04\x27\0\x01\x05",
        Says::Parameters(None, None, Some(b"\x02")),
    ),
    (
        "two TLVs of a tag, the first of them unusable",
        DELIVER_SM,
        0,
        b"\0\0\0\0\0\0\0\x04\0\0\0\0\0\0\0\0\0\x04\x27\0\0\x04\x27\0\x01\x05",
        Says::Parameters(None, None, Some(b"")),
    ),
    (
        "a TLV after one of an unknown tag",
        DELIVER_SM,
        0,
        b"\0\0\0\0\0\0\0\x04\0\0\0\0\0\0\0\0\0\x12\x34\0\x01\xff\0\x1e\0\x021\0",
        Says::Parameters(Some(b"1\0"), None, None),
    ),
    (
        "a short_message that is cut off",
        DELIVER_SM,
        0,
        b"\0\0\0\0\0\0\0\x04\0\0\0\0\0\0\0\0\x03hi",
        Says::Undecodable,
    ),
    (
        "an end before sm_length",
        DELIVER_SM,
        0,
        b"\0\0\0\0\0\0\0\x04\0\0\0\0\0\0\0\0",
        Says::Undecodable,
    ),
    (
        "an end before dest_addr_ton",
        SUBMIT_SM,
        0,
        b"\0\0\0\0",
        Says::Undecodable,
    ),
    ("no body", SUBMIT_SM, 0, b"", Says::Undecodable),
    (
        "a service_type without its zero octet",
        SUBMIT_SM,
        0,
        b"abcdefghijklmnopqrstuvwxyz",
        Says::Undecodable,
    ),
    (
        "a service_type longer than the standard's",
        SUBMIT_SM,
        0,
        b"abcdefghijklmnop\0\0\0\0\0\0\0\0\0\0\0\0\x02\x01\0\0\0",
        Says::Submit(2, NO_SOURCE, b""),
    ),
    (
        "a source of 20 octets of type 5",
        SUBMIT_SM,
        0,
        b"\0\x05\0ABCDEFGHIJKLMNOPQRST\0\x01\x0142\0\0\0\0\0\0\x01\0\0\0\0",
        Says::Submit(1, (5, b"ABCDEFGHIJKLMNOPQRST"), b"42"),
    ),
    (
        "a source of 21 octets, of which none is read",
        SUBMIT_SM,
        0,
        b"\0\x05\0ABCDEFGHIJKLMNOPQRSTU\0\x01\x0142\0\0\0\0\0\0\x01\0\0\0\0",
        Says::Submit(1, (5, b""), b"42"),
    ),
    (
        "a destination without its zero octet",
        SUBMIT_SM,
        0,
        b"\0\0\0\0\x01\x01447700900123",
        Says::Undecodable,
    ),
    (
        "an id without a zero octet",
        SUBMIT_SM_RESP,
        0,
        b"abc",
        Says::Response(b"abc"),
    ),
    (
        "octets after the id",
        SUBMIT_SM_RESP,
        0,
        b"abc\0\x04\x27\0\x01\x02",
        Says::Response(b"abc"),
    ),
    (
        "an empty id",
        SUBMIT_SM_RESP,
        0,
        b"\0abc",
        Says::Response(b""),
    ),
    (
        "a nonzero status and no body",
        SUBMIT_SM_RESP,
        0x58,
        b"",
        Says::Response(b""),
    ),
    (
        "an id of 64 octets",
        SUBMIT_SM_RESP,
        0,
        b"0123456789abcdef0123456789abcdef0123456789abcdef0123456789abcdef\0",
        Says::Response(b"0123456789abcdef0123456789abcdef0123456789abcdef0123456789abcdef"),
    ),
    (
        "an id of 65 octets",
        SUBMIT_SM_RESP,
        0,
        b"0123456789abcdef0123456789abcdef0123456789abcdef0123456789abcdefg\0",
        Says::Response(b""),
    ),
];

#[test]
fn bodies_of_pdus(rt: HostRuntime) {
    for (message, command, status, body, says) in BODIES {
        let header = (7, *command, *status);
        assert_body(&rt, rt.alloc(), header, body, says, message);
    }
}
