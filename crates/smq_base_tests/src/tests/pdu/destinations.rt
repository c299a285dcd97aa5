//! Destination addresses, and the numbers that they are.
use crate::tests::pdu::{NO_SOURCE, SUBMIT_SM, Says, assert_body};
use smq_pdu::Submit;

/// What a destination is; the body of a submit_sm from no address to it; the digits of its number,
/// or none.
const DESTINATIONS: &[(&str, &[u8], &[u8])] = &[
    (
        "unknown type",
        b"\0\0\0\0\x00\x01447700900123\0\0\0\0\0\0\x01\0\0\0\0",
        b"447700900123",
    ),
    (
        "unknown type with a plus",
        b"\0\0\0\0\x00\x01+447700900123\0\0\0\0\0\0\x01\0\0\0\0",
        b"447700900123",
    ),
    (
        "international type",
        b"\0\0\0\0\x01\x01447700900123\0\0\0\0\0\0\x01\0\0\0\0",
        b"447700900123",
    ),
    (
        "international type with a plus",
        b"\0\0\0\0\x01\x01+447700900123\0\0\0\0\0\0\x01\0\0\0\0",
        b"447700900123",
    ),
    (
        "national type",
        b"\0\0\0\0\x02\x01447700900123\0\0\0\0\0\0\x01\0\0\0\0",
        b"",
    ),
    (
        "network specific type",
        b"\0\0\0\0\x03\x01447700900123\0\0\0\0\0\0\x01\0\0\0\0",
        b"",
    ),
    (
        "subscriber number type",
        b"\0\0\0\0\x04\x01447700900123\0\0\0\0\0\0\x01\0\0\0\0",
        b"",
    ),
    (
        "alphanumeric type",
        b"\0\0\0\0\x05\x01447700900123\0\0\0\0\0\0\x01\0\0\0\0",
        b"",
    ),
    (
        "abbreviated type",
        b"\0\0\0\0\x06\x01447700900123\0\0\0\0\0\0\x01\0\0\0\0",
        b"",
    ),
    (
        "a plus alone",
        b"\0\0\0\0\x01\x01+\0\0\0\0\0\0\x01\0\0\0\0",
        b"",
    ),
    ("no text", b"\0\0\0\0\x01\x01\0\0\0\0\0\0\x01\0\0\0\0", b""),
    (
        "letters",
        b"\0\0\0\0\x01\x01ACME\0\0\0\0\0\0\x01\0\0\0\0",
        b"",
    ),
    (
        "letters after digits",
        b"\0\0\0\0\x01\x014477o0900123\0\0\0\0\0\0\x01\0\0\0\0",
        b"",
    ),
    (
        "one digit",
        b"\0\0\0\0\x01\x017\0\0\0\0\0\0\x01\0\0\0\0",
        b"7",
    ),
    (
        "15 digits",
        b"\0\0\0\0\x01\x01447700900123456\0\0\0\0\0\0\x01\0\0\0\0",
        b"447700900123456",
    ),
    (
        "16 digits",
        b"\0\0\0\0\x01\x014477009001234567\0\0\0\0\0\0\x01\0\0\0\0",
        b"",
    ),
    (
        "a plus and 15 digits",
        b"\0\0\0\0\x01\x01+447700900123456\0\0\0\0\0\0\x01\0\0\0\0",
        b"447700900123456",
    ),
    (
        "a plus and 16 digits",
        b"\0\0\0\0\x01\x01+4477009001234567\0\0\0\0\0\0\x01\0\0\0\0",
        b"",
    ),
    (
        "two plus",
        b"\0\0\0\0\x01\x01++447700900123\0\0\0\0\0\0\x01\0\0\0\0",
        b"",
    ),
    (
        "a plus in the middle",
        b"\0\0\0\0\x01\x0144+7700900123\0\0\0\0\0\0\x01\0\0\0\0",
        b"",
    ),
    (
        "a plus at the end",
        b"\0\0\0\0\x01\x01447700900123+\0\0\0\0\0\0\x01\0\0\0\0",
        b"",
    ),
    (
        "a space",
        b"\0\0\0\0\x01\x0144 7700900123\0\0\0\0\0\0\x01\0\0\0\0",
        b"",
    ),
    (
        "a space before the digits",
        b"\0\0\0\0\x01\x01 447700900123\0\0\0\0\0\0\x01\0\0\0\0",
        b"",
    ),
];

#[test]
fn numbers_of_destinations(rt: HostRuntime) {
    for (message, body, number) in DESTINATIONS {
        let says = Says::Submit(1, NO_SOURCE, number);
        assert_body(&rt, rt.alloc(), (7, SUBMIT_SM, 0), body, &says, message);
    }
}
