//! Dates in texts, and the delay between them.
use crate::tests::receipt::{Error, says_of_1, with_id_and_state};
use smq_receipt::MessageState;

/// Dates in a text, and done date minus submit date in ms.
const DATES: &[(&str, Option<i64>)] = &[
    (
        "submit date:2502280000 done date:2503010000",
        Some(86_400_000),
    ),
    (
        "Done Date:2503010000 SUBMIT DATE:2502280000",
        Some(86_400_000),
    ),
    (
        "submit date:2402290000 done date:2403010000",
        Some(86_400_000),
    ),
    ("submit date:2412312359 done date:2501010000", Some(60_000)),
    (
        "submit date:250228000001 done date:2502280001",
        Some(59_000),
    ),
    (
        "submit date:250228000001 done date:250228000000",
        Some(-1_000),
    ),
    (
        "submit date:0001010000 done date:9912312359",
        Some(3_155_759_940_000),
    ),
    ("submit date:2502280000 done date:25022800000000", None),
    ("submit date:250228000 done date:2502280000", None),
    ("submit date:2513010000 done date:2513010000", None),
    ("submit date:2500010000 done date:2500010000", None),
    ("submit date:2502300000 done date:2503010000", None),
    ("submit date:2502290000 done date:2503010000", None),
    ("submit date:2502000000 done date:2503010000", None),
    ("submit date:2502282400 done date:2503010000", None),
    ("submit date:2502280060 done date:2503010000", None),
    ("submit date:250228000060 done date:2503010000", None),
    ("submit date:25O2280000 done date:2503010000", None),
    ("submit date:2502280000\0 done date:2503010000", None),
    ("submit date:2502280000", None),
    ("done date:2502280000", None),
    ("date:2502280000 done date:2502280000", None),
];

#[test]
fn dates_are_of_the_calendar(rt: HostRuntime) {
    for (dates, delay) in DATES {
        let deliver = with_id_and_state(dates, Some(b"1"), Some(b"\x02"));
        let is_said = says_of_1(
            &rt,
            &deliver,
            MessageState::Delivered,
            Error::Unstated,
            *delay,
        );
        assert!(rt; is_said, "{dates}");
    }
}
