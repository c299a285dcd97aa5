//! Values at their limits, keys of ids, and the printed text of refusals.
use smq_kit::{
    Digits, ErrorCode, ErrorText, Form, Key, LAST_MOMENT, LONGEST_ID, LinkId, LinkKey, MessageId,
    Moment, Network, OPENING_WINDOW, Refusal, Window, key_of,
};
use std::alloc::Global;
use std::process::Abort;

const ZEROS_64: &str = "0000000000000000000000000000000000000000000000000000000000000000";

const ZEROS_65: &str = "00000000000000000000000000000000000000000000000000000000000000000";

/// A text, and whether it is an id, digits, a network and an error text.
const TEXTS: &[(&str, [bool; 4])] = &[
    ("", [false, false, false, false]),
    ("4", [true, true, false, true]),
    ("2341", [true, true, false, true]),
    ("23415", [true, true, true, true]),
    ("234150", [true, true, true, true]),
    ("2341500", [true, true, false, true]),
    ("447700900123456", [true, true, false, true]),
    ("4477009001234567", [true, false, false, true]),
    ("44770090012345678", [true, false, false, false]),
    ("+4415", [true, false, false, false]),
    ("2341x", [true, false, false, true]),
    ("a-Z_9.", [true, false, false, true]),
    ("0x1/2", [true, false, false, false]),
    ("err: 1", [true, false, false, false]),
    (ZEROS_64, [true, false, false, false]),
    (ZEROS_65, [false, false, false, false]),
];

/// A number of ms, and whether it is a moment.
const MOMENTS: &[(u64, bool)] = &[
    (0, true),
    (4_102_444_800_000, true),
    (4_102_444_800_001, false),
    (u64::MAX, false),
];

/// A number of ms, and whether it is a window.
const WINDOWS: &[(u64, bool)] = &[
    (0, false),
    (1, true),
    (172_800_000, true),
    (4_102_444_800_000, true),
    (4_102_444_800_001, false),
    (u64::MAX, false),
];

/// Whether octets are an id only where they are to be one, and are kept.
fn is_kept_as_id(octets: &[u8], is_id: bool) -> bool {
    match MessageId::new(octets) {
        Ok(id) => is_id && id.copy().as_slice() == octets,
        Err(_) => !is_id,
    }
}

fn is_kept_as_digits(octets: &[u8], are_digits: bool) -> bool {
    match Digits::parse(octets) {
        Ok(digits) => are_digits && digits.copy().as_slice() == octets,
        Err(_) => !are_digits,
    }
}

fn is_kept_as_network(octets: &[u8], is_network: bool) -> bool {
    match Network::parse(octets) {
        Ok(network) => is_network && network.copy().as_slice() == octets,
        Err(_) => !is_network,
    }
}

fn is_kept_as_error(octets: &[u8], is_error: bool) -> bool {
    match ErrorText::new(octets) {
        Some(error) => is_error && error.copy().as_slice() == octets,
        None => !is_error,
    }
}

fn is_kept_as_moment(milliseconds: u64, is_moment: bool) -> bool {
    match Moment::new(milliseconds) {
        Ok(moment) => is_moment && moment.milliseconds() == milliseconds,
        Err(_) => !is_moment,
    }
}

fn is_kept_as_window(milliseconds: u64, is_window: bool) -> bool {
    match Window::new(milliseconds) {
        Ok(window) => is_window && window.milliseconds() == milliseconds,
        Err(refusal) => !is_window && refusal == Refusal::BadWindow,
    }
}

fn are_kept(octets: &[u8], [is_id, are_digits, is_network, is_error]: [bool; 4]) -> bool {
    is_kept_as_id(octets, is_id)
        && is_kept_as_digits(octets, are_digits)
        && is_kept_as_network(octets, is_network)
        && is_kept_as_error(octets, is_error)
}

fn are_known_limits() -> bool {
    ZEROS_64.len() == LONGEST_ID
        && Moment::epoch().milliseconds() == 0
        && LAST_MOMENT == 4_102_444_800_000
        && Window::opening().milliseconds() == 172_800_000
        && OPENING_WINDOW == 172_800_000
}

fn is_copied(code: &ErrorCode) -> bool {
    code.copy() == *code
}

#[test]
fn texts_are_kept_within_their_limits(rt: HostRuntime) {
    for (text, kinds) in TEXTS {
        assert!(rt; are_kept(text.as_bytes(), *kinds), "{text}");
    }
}

#[test]
fn moments_and_windows_are_kept_within_their_limits(rt: HostRuntime) {
    for (milliseconds, is_moment) in MOMENTS {
        assert!(rt;
            is_kept_as_moment(*milliseconds, *is_moment),
            "{milliseconds} ms"
        );
    }
    for (milliseconds, is_window) in WINDOWS {
        assert!(rt;
            is_kept_as_window(*milliseconds, *is_window),
            "a window of {milliseconds} ms"
        );
    }
    assert!(rt; are_known_limits(), "limits");
}

#[test]
fn errors_are_copied(rt: HostRuntime) {
    let network = ErrorCode::Network { kind: 3, code: 258 };
    assert!(rt; is_copied(&network) && is_copied(&ErrorCode::Unstated));
}

/// A form, an id, and the number of its key; none where the key is the text.
const KEYS: &[(Form, &str, Option<u128>)] = &[
    (Form::Verbatim, "7", None),
    (Form::Decimal, "007", Some(7)),
    (Form::Decimal, "7x", None),
    (Form::Decimal, "a1b2", None),
    (
        Form::Decimal,
        "340282366920938463463374607431768211455",
        Some(u128::MAX),
    ),
    (
        Form::Decimal,
        "340282366920938463463374607431768211456",
        None,
    ),
    (Form::Decimal, ZEROS_64, Some(0)),
    (Form::Hexadecimal, "0000A1B2", Some(41_394)),
    (Form::Hexadecimal, "a1b2", Some(41_394)),
    (Form::Hexadecimal, "0xA1B2", None),
    (Form::Hexadecimal, "a1g2", None),
    (
        Form::Hexadecimal,
        "ffffffffffffffffffffffffffffffff",
        Some(u128::MAX),
    ),
    (Form::Hexadecimal, "100000000000000000000000000000000", None),
    (Form::Hexadecimal, ZEROS_64, Some(0)),
];

/// Whether an id has this number as its key under a form, or its text where there is none.
fn has_key(id: &MessageId, form: Form, number: Option<u128>) -> bool {
    let wanted = match number {
        Some(number) => Key::Number(number),
        None => Key::Text(id.copy()),
    };
    let key = LinkKey::of(LinkId(7), form, id);
    key_of(form, id) == wanted && key.link == LinkId(7) && key.key == wanted
}

/// Asserts the number of an id's key under a form.
fn assert_key(rt: &impl Abort, form: Form, text: &str, number: Option<u128>) {
    let id = MessageId::new(text.as_bytes()).expect(rt, text);
    assert!(rt; has_key(&id, form, number), "{text}");
}

#[test]
fn ids_are_numbers_under_their_forms(rt: HostRuntime) {
    for (form, text, number) in KEYS {
        assert_key(&rt, *form, text, *number);
    }
}

fn is_printed(alloc: Global, refusal: Refusal, text: &str) -> bool {
    match refusal.to_string(alloc) {
        Ok(printed) => printed.as_str() == text,
        Err(_) => false,
    }
}

/// Asserts the number of a refusal and what it prints.
fn assert_refusal(rt: &impl Abort, alloc: Global, refusal: Refusal, number: u32, text: &str) {
    assert!(rt;
        refusal.number() == number && is_printed(alloc, refusal, text),
        "{text}"
    );
}

fn assert_refusals_to_11(rt: &impl Abort, alloc: Global, moment: Moment) {
    assert_refusal(rt, alloc, Refusal::EmptyPiece, 1, "1 EmptyPiece");
    assert_refusal(rt, alloc, Refusal::BadMoment, 2, "2 BadMoment");
    let backward = Refusal::Backward { last: moment };
    assert_refusal(rt, alloc, backward, 3, "3 Backward 20000");
    let other_link = Refusal::OtherLink { link: LinkId(7) };
    assert_refusal(rt, alloc, other_link, 4, "4 OtherLink 7");
    let out_of_step = Refusal::OutOfStep { offset: 49 };
    assert_refusal(rt, alloc, out_of_step, 5, "5 OutOfStep 49");
    assert_refusal(rt, alloc, Refusal::NoSession, 6, "6 NoSession");
    let overlap = Refusal::Overlap { from: moment };
    assert_refusal(rt, alloc, overlap, 7, "7 Overlap 20000");
    assert_refusal(rt, alloc, Refusal::NoRoute, 8, "8 NoRoute");
    let ended = Refusal::Ended { until: moment };
    assert_refusal(rt, alloc, ended, 9, "9 Ended 20000");
    assert_refusal(rt, alloc, Refusal::BadEnd, 10, "10 BadEnd");
    let clock_back = Refusal::ClockBack { clock: moment };
    assert_refusal(rt, alloc, clock_back, 11, "11 ClockBack 20000");
}

fn assert_refusals_from_12(rt: &impl Abort, alloc: Global) {
    assert_refusal(rt, alloc, Refusal::HistoryFull, 12, "12 HistoryFull");
    assert_refusal(rt, alloc, Refusal::Memory, 13, "13 Memory");
    assert_refusal(rt, alloc, Refusal::StreamFull, 14, "14 StreamFull");
    assert_refusal(rt, alloc, Refusal::NoThread, 15, "15 NoThread");
    assert_refusal(rt, alloc, Refusal::NoSeat, 16, "16 NoSeat");
    assert_refusal(rt, alloc, Refusal::NoWatcher, 17, "17 NoWatcher");
    assert_refusal(rt, alloc, Refusal::BadWindow, 18, "18 BadWindow");
    let torn_seat = Refusal::TornSeat { number: 3 };
    assert_refusal(rt, alloc, torn_seat, 19, "19 TornSeat 3");
    assert_refusal(rt, alloc, Refusal::BadPrefix, 20, "20 BadPrefix");
    assert_refusal(rt, alloc, Refusal::BadNetwork, 21, "21 BadNetwork");
    assert_refusal(rt, alloc, Refusal::BadId, 22, "22 BadId");
}

#[test]
fn refusals_print_number_name_and_field(rt: HostRuntime) {
    let moment = Moment::new(20_000).expect(&rt, "a moment");
    assert_refusals_to_11(&rt, rt.alloc(), moment);
    assert_refusals_from_12(&rt, rt.alloc());
}
