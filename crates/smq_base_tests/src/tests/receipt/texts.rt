//! What texts say of ids and states.
use crate::tests::receipt::{Expected, ID_OF_64, saying, says};
use smq_receipt::{MessageState, read};

/// What texts say without any optional parameter.
const TEXTS: &[(&str, Expected)] = &[
    // names stand at the start or after a space, in any letter case
    ("id:1 stat:DELIVRD", Expected::Delivered(b"1")),
    ("ID:1 STAT:DELIVRD", Expected::Delivered(b"1")),
    ("Id:1 sTaT:delivrd", Expected::Delivered(b"1")),
    ("stat:DELIVRD id:1", Expected::Delivered(b"1")),
    ("hello id:1  stat:DELIVRD", Expected::Delivered(b"1")),
    ("xid:2 id:1 stat:DELIVRD", Expected::Delivered(b"1")),
    ("xid:1 stat:DELIVRD", Expected::NoId),
    ("id:1 substat:DELIVRD", Expected::NoState),
    ("id:1\tstat:DELIVRD", Expected::NoState),
    ("id :1 stat:DELIVRD", Expected::NoId),
    ("id: 1 stat:DELIVRD", Expected::NoId),
    ("", Expected::NoId),
    // the first place of a name counts
    (
        "id:1 stat:DELIVRD id:2 stat:UNDELIV",
        Expected::Delivered(b"1"),
    ),
    ("id: id:1 stat:DELIVRD", Expected::NoId),
    ("id:1 stat:WHAT stat:DELIVRD", Expected::NoState),
    // the message's own text is not read
    (
        "id:1 stat:DELIVRD text:err:1 err:2",
        Expected::Delivered(b"1"),
    ),
    ("id:1 stat:DELIVRD TEXT: err:027", Expected::Delivered(b"1")),
    ("id:1 Text: stat:DELIVRD", Expected::NoState),
    (" text: id:1 stat:DELIVRD", Expected::NoId),
    ("text: id:1 stat:DELIVRD", Expected::Delivered(b"1")),
    ("id:1 subtext: stat:DELIVRD", Expected::Delivered(b"1")),
    // a value goes up to the next space
    ("id:1\0 stat:DELIVRD", Expected::Delivered(b"1\0")),
    ("id:1, stat:DELIVRD", Expected::Delivered(b"1,")),
    ("stat:DELIVRD id:1\r\n", Expected::Delivered(b"1\r\n")),
    ("id:0x1F stat:DELIVRD", Expected::Delivered(b"0x1F")),
    ("id:1 stat:DELIVRD\0", Expected::NoState),
    ("id:1 stat:DELIVRD\r\n", Expected::NoState),
    ("id:1 stat:DELIVRD\t", Expected::NoState),
    ("id:1 stat:DELIVRD, err:000", Expected::NoState),
    ("id:1 err:027\0 stat:DELIVRD", Expected::Delivered(b"1")),
    ("id:1 err:027, stat:DELIVRD", Expected::Delivered(b"1")),
    // an id has 1 to 64 octets
    (
        "id:0123456789012345678901234567890123456789012345678901234567890123 stat:DELIVRD",
        Expected::Delivered(ID_OF_64),
    ),
    (
        "id:01234567890123456789012345678901234567890123456789012345678901234 stat:DELIVRD",
        Expected::NoId,
    ),
    ("id: stat:DELIVRD", Expected::NoId),
    // the words of states
    (
        "id:1 stat:ENROUTE",
        Expected::Says(b"1", MessageState::Enroute),
    ),
    (
        "id:1 stat:EXPIRED",
        Expected::Says(b"1", MessageState::Expired),
    ),
    (
        "id:1 stat:DELETED",
        Expected::Says(b"1", MessageState::Deleted),
    ),
    (
        "id:1 stat:UNDELIV",
        Expected::Says(b"1", MessageState::Undeliverable),
    ),
    (
        "id:1 stat:ACCEPTD",
        Expected::Says(b"1", MessageState::Accepted),
    ),
    (
        "id:1 stat:UNKNOWN",
        Expected::Says(b"1", MessageState::Unknown),
    ),
    (
        "id:1 stat:Rejectd",
        Expected::Says(b"1", MessageState::Rejected),
    ),
    ("id:1 stat:ACKED", Expected::NoState),
    ("id:1 stat:BUFFRED", Expected::NoState),
    ("id:1 stat:FAILED", Expected::NoState),
    ("id:1 stat:SKIPPED", Expected::NoState),
    ("id:1 stat:DELIVERED", Expected::NoState),
    ("id:1 stat:UNDELIVERABLE", Expected::NoState),
    ("id:1 stat:", Expected::NoState),
    ("id:1", Expected::NoState),
    // a user data header before the text
    ("\x05\0\x03\x01\x02\x01id:1 stat:DELIVRD", Expected::NoId),
    (
        "\x05\0\x03\x01\x02\x01 id:1 stat:DELIVRD",
        Expected::Delivered(b"1"),
    ),
];

#[test]
fn texts_say_ids_and_states(rt: HostRuntime) {
    for (text, expected) in TEXTS {
        assert!(rt; says(&rt, &saying(text), *expected, false), "{text:?}");
    }
}
