//! Touches of a book: each edit of one message adds no more than 64 for each that it reaches and 64 more, and one at least
//! where a count differs after it. A period of many messages takes a receipt for each: an edit that scanned what is present
//! wouldn't end in time, and who runs this stops it then.
use crate::tests::scripts::Step::*;
use crate::tests::scripts::*;
use smq_book::*;
use smq_kit::Dir;
use std::alloc::{AllocError, Global};
use std::process::Abort;

/// Edits in turn: how many touches each adds at least, and at most.
const ADDED: &[(&str, Step, u64, u64)] = &[
    ("a submit_sm reaches itself", SUBMIT, 1, 128),
    (
        "its response reaches itself and its message",
        RESPONSE,
        1,
        192,
    ),
    (
        "a clock before the end of its window reaches nothing",
        Advance(172_800_999),
        0,
        64,
    ),
    (
        "a clock at the end of its window reaches it",
        Advance(172_801_000),
        1,
        128,
    ),
];

#[test]
fn touches_rise_by_what_is_reached(rt: HostRuntime) {
    let alloc = rt.alloc();
    let mut book = boxed_book(alloc).expect(&rt, "a book");
    for (what, step, least, most) in ADDED {
        let before = book.touches();
        assert!(rt; play_step(alloc, &mut book, *step).is_ok(), "{what}");
        let added = book.touches().saturating_sub(before);
        assert!(rt; *least <= added && added <= *most, "{what}");
    }
}

/// How many messages of link 1 are accepted, each with an id of its own.
const MANY: u32 = 65_536;

/// The message id of a number below 100,000: five digits.
fn id_of(number: u32) -> [u8; 5] {
    let digit = |number: u32| b"0123456789"[(number % 10) as usize];
    [
        digit(number / 10_000),
        digit(number / 1_000),
        digit(number / 100),
        digit(number / 10),
        digit(number),
    ]
}

/// Appends one PDU of session 10, and tells whether it is taken and adds one touch at least and no more than so many.
fn is_taken(alloc: Global, book: &mut Book, dir: Dir, most: u64, octets: &[u8]) -> bool {
    let before = book.touches();
    let is_made = append(alloc, book, (1, 10, dir, 1000), octets).is_ok();
    let added = book.touches().saturating_sub(before);
    is_made && 1 <= added && added <= most
}

/// Whether a message's submit_sm is taken: it reaches itself.
fn is_submitted(rt: &impl Abort, alloc: Global, book: &mut Book, number: u32) -> bool {
    let octets = octets_of(alloc, Sent::Submit(number, NUMBER)).expect(rt, "a submit_sm");
    is_taken(alloc, book, Dir::FromClient, 128, octets.as_slice())
}

fn push_response(octets: &mut Vec<u8>, number: u32) -> Result<(), AllocError> {
    push_pdu(octets, 0x8000_0004, 0, number, &[&id_of(number), b"\0"])
}

/// Whether the response to a message is taken: it reaches itself and the message.
fn is_accepted(rt: &impl Abort, alloc: Global, book: &mut Book, number: u32) -> bool {
    let mut octets = Vec::new(alloc);
    push_response(&mut octets, number).expect(rt, "its response");
    is_taken(alloc, book, Dir::FromCentre, 192, octets.as_slice())
}

/// The text of the delivery receipt of a message.
fn text_of(alloc: Global, number: u32) -> Result<Vec<u8>, AllocError> {
    let mut text = Vec::new(alloc);
    text.extend_from_slice(b"id:")?;
    text.extend_from_slice(&id_of(number))?;
    text.extend_from_slice(b" stat:DELIVRD")?;
    Ok(text)
}

/// Whether the receipt of a message is taken: it reaches itself and both of its key.
fn is_received(rt: &impl Abort, alloc: Global, book: &mut Book, number: u32) -> bool {
    let text = text_of(alloc, number).expect(rt, "a text");
    let mut octets = Vec::new(alloc);
    push_deliver(&mut octets, number, 0x04, text.as_slice()).expect(rt, "a receipt");
    is_taken(alloc, book, Dir::FromCentre, 256, octets.as_slice())
}

#[test]
fn a_receipt_for_each_of_65536_messages_is_taken(rt: HostRuntime) {
    let alloc = rt.alloc();
    let mut book = boxed_book(alloc).expect(&rt, "a book");
    for number in 1..=MANY {
        assert!(rt; is_submitted(&rt, alloc, &mut book, number));
        assert!(rt; is_accepted(&rt, alloc, &mut book, number));
    }
    for number in 1..=MANY {
        assert!(rt; is_received(&rt, alloc, &mut book, number));
    }
    assert!(rt; is_current(&rt, alloc, &book));
}
