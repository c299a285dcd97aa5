//! Whole PDUs.
use crate::tests::pdu::{Row, Says, assert_pdu};
use smq_pdu::{Deliver, Submit};

const PDUS: &[Row] = &[
    Row {
        message: "a submit_sm to 447700900123 that asks for a receipt",
        octets: b"\x00\x00\x00\x31\x00\x00\x00\x04\x00\x00\x00\x00\x00\x00\x00\x01\
                \x00\x00\x001000\x00\x01\x01447700900123\x00\
                \x00\x00\x00\x00\x00\x01\x00\x00\x00\x00",
        header: (1, 0x0000_0004, 0),
        says: Says::Submit(1, (0, b"1000"), b"447700900123"),
    },
    Row {
        message: "its response",
        octets: b"\x00\x00\x00\x19\x80\x00\x00\x04\x00\x00\x00\x00\x00\x00\x00\x01\
                0000A1B2\x00",
        header: (1, 0x8000_0004, 0),
        says: Says::Response(b"0000A1B2"),
    },
    Row {
        message: "a delivery receipt with message_state",
        octets: b"\x00\x00\x00\x3f\x00\x00\x00\x05\x00\x00\x00\x00\x00\x00\x00\x01\
                \x00\x00\x00\x00\x00\x00\x00\x04\x00\x00\x00\x00\x00\x00\x00\x00\
                \x19id:1 stat:UNDELIV err:027\x04\x27\x00\x01\x02",
        header: (1, 0x0000_0005, 0),
        says: Says::Deliver(Deliver {
            esm_class: 4,
            short_message: b"id:1 stat:UNDELIV err:027",
            receipted_message_id: None,
            network_error_code: None,
            message_payload: None,
            message_state: Some(b"\x02"),
        }),
    },
    Row {
        message: "a delivery receipt with all four parameters",
        octets: b"\x00\x00\x00\x3a\x00\x00\x00\x05\x00\x00\x00\x00\x00\x00\x00\x02\
                \x00\x00\x00\x00\x00\x00\x00\x04\x00\x00\x00\x00\x00\x00\x00\x00\x00\
                \x00\x1e\x00\x03A1\x00\x04\x23\x00\x03\x03\x00\x1b\
                \x04\x24\x00\x02hi\x04\x27\x00\x01\x02",
        header: (2, 0x0000_0005, 0),
        says: Says::Deliver(Deliver {
            esm_class: 4,
            short_message: b"",
            receipted_message_id: Some(b"A1\0"),
            network_error_code: Some(b"\x03\0\x1b"),
            message_payload: Some(b"hi"),
            message_state: Some(b"\x02"),
        }),
    },
    Row {
        message: "a generic_nack with status 3",
        octets: b"\x00\x00\x00\x10\x80\x00\x00\x00\x00\x00\x00\x03\x00\x00\x00\x07",
        header: (7, 0x8000_0000, 3),
        says: Says::Other,
    },
];

#[test]
fn whole_pdus_are_decoded(rt: HostRuntime) {
    for row in PDUS {
        assert_pdu(
            &rt,
            rt.alloc(),
            row.octets,
            row.header,
            &row.says,
            row.message,
        );
    }
}
