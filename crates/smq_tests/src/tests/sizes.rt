//! Large numbers and sizes are taken where memory is there, as no clause can say.
use crate::tests::scripts::*;
use crate::tests::shown::messages_of;
use smq_book::*;
use smq_kit::{Dir, Moment, Refusal, SessionId};
use std::alloc::{AllocError, Global};
use std::process::Abort;

/// 2 to the power 32, and 1 more.
const FAR_SESSION: u64 = 4_294_967_297;

/// 2 to the power 16, and 1 more.
const FAR_LINK: u32 = 65_537;

/// How many messages one session has.
const MESSAGES: u32 = 300;

/// The message id of a sequence number below 1,000: three digits.
fn id_of(seq: u32) -> [u8; 3] {
    let digit = |number: u32| b"0123456789"[(number % 10) as usize];
    [digit(seq / 100), digit(seq / 10), digit(seq)]
}

/// Puts a delivery receipt of the message of a sequence number after some octets: a deliver_sm without addresses
/// (SMPP 3.4, 4.6.1), of 52 octets.
fn push_receipt(octets: &mut Vec<u8>, seq: u32) -> Result<(), AllocError> {
    octets.extend_from_slice(b"\0\0\0\x34\0\0\0\x05\0\0\0\0\0\0\0\x01")?;
    octets.extend_from_slice(b"\0\0\0\0\0\0\0\x04\0\0\0\0\0\0\0\0\x13id:")?;
    octets.extend_from_slice(&id_of(seq))?;
    octets.extend_from_slice(b" stat:DELIVRD")
}

/// Puts the response of a sequence number with its message id after some octets: a submit_sm_resp (4.4.2) of 20 octets.
fn push_response(octets: &mut Vec<u8>, seq: u32) -> Result<(), AllocError> {
    octets.extend_from_slice(b"\0\0\0\x14\x80\0\0\x04\0\0\0\0")?;
    octets.extend_from_slice(&seq.to_be_bytes())?;
    octets.extend_from_slice(&id_of(seq))?;
    octets.extend_from_slice(b"\0")
}

/// Puts the responses of so many sequence numbers after some octets.
fn push_responses(octets: &mut Vec<u8>, count: u32) -> Result<(), AllocError> {
    for seq in 0..count {
        push_response(octets, seq.saturating_add(1))?;
    }
    Ok(())
}

/// Puts their delivery receipts after some octets.
fn push_receipts(octets: &mut Vec<u8>, count: u32) -> Result<(), AllocError> {
    for seq in 0..count {
        push_receipt(octets, seq.saturating_add(1))?;
    }
    Ok(())
}

/// Puts the messages of so many sequence numbers, each in a piece.
pub(crate) fn put_submits(
    rt: &impl Abort,
    alloc: Global,
    book: &mut Book,
    origin: Origin,
    count: u32,
) {
    for seq in 0..count {
        let sent = Sent::Submit(seq.saturating_add(1), NUMBER);
        send(rt, alloc, book, origin, sent).expect(rt, "a submit");
    }
}

/// Puts their responses, in one piece.
pub(crate) fn put_responses(
    rt: &impl Abort,
    alloc: Global,
    book: &mut Book,
    origin: Origin,
    count: u32,
) {
    let mut octets = Vec::new(alloc);
    push_responses(&mut octets, count).expect(rt, "responses");
    append(alloc, book, origin, octets.as_slice()).expect(rt, "responses are put");
}

/// Puts their delivery receipts, in one piece.
pub(crate) fn put_receipts(
    rt: &impl Abort,
    alloc: Global,
    book: &mut Book,
    origin: Origin,
    count: u32,
) {
    let mut octets = Vec::new(alloc);
    push_receipts(&mut octets, count).expect(rt, "receipts");
    append(alloc, book, origin, octets.as_slice()).expect(rt, "receipts are put");
}

/// Windows of the far link, and how many of its messages are open and have lapsed under each. They stand at 1000, and the clock
/// at 2000.
const WINDOWS: &[(u64, u64, u64)] = &[(1000, 0, 300), (1001, 300, 0), (4_102_444_800_000, 300, 0)];

/// Whether all messages of the far link lapse by a window, and are open again by a greater one.
fn lapse_and_open_again(rt: &impl Abort, book: &mut Book) -> bool {
    set_clock(book, 2000).expect(rt, "a clock");
    for (window, open, lapsed) in WINDOWS {
        set_window(book, FAR_LINK, *window).expect(rt, "a window");
        if !are_due(book, *open, *lapsed) {
            return false;
        }
    }
    true
}

fn set_clock(book: &mut Book, clock: u64) -> Result<(), Refusal> {
    let clock = Moment::new(clock)?;
    book.apply(Edit::Advance { clock })
}

/// Whether so many messages of the far link are open and so many have lapsed.
fn are_due(book: &Book, open: u64, lapsed: u64) -> bool {
    messages_of(book, FAR_LINK, Outcome::Open) == open
        && messages_of(book, FAR_LINK, Outcome::Lapsed) == lapsed
}

/// A submit_sm of `MESSAGES` sequence numbers, each in a piece, then their responses in one piece, then their receipts.
fn put_messages(rt: &impl Abort, alloc: Global, book: &mut Book) {
    let client = (FAR_LINK, FAR_SESSION, Dir::FromClient, 1000);
    put_submits(rt, alloc, book, client, MESSAGES);
    let centre = (FAR_LINK, FAR_SESSION, Dir::FromCentre, 2000);
    put_responses(rt, alloc, book, centre, MESSAGES);
    assert!(rt; lapse_and_open_again(rt, book), "windows of far messages");
    let centre = (FAR_LINK, FAR_SESSION, Dir::FromCentre, 3000);
    put_receipts(rt, alloc, book, centre, MESSAGES);
}

/// Puts a PDU of 70,000 octets, of the command `enquire_link`, in the place of no octets.
fn push_long_pdu(octets: &mut Vec<u8>) -> Result<(), AllocError> {
    octets.extend_from_slice(b"\0\x01\x11\x70\0\0\0\x15\0\0\0\0\0\0\0\x09")?;
    octets.resize(70_000, 0)
}

/// Whether a direction of a session has so many octets, pieces and PDUs.
fn has_sizes(book: &Book, session: u64, dir: Dir, wanted: (u64, usize, usize)) -> bool {
    match book.present().session(SessionId(session)) {
        Some(session) => is_as_large(session.direction(dir), wanted),
        None => false,
    }
}

fn is_as_large(direction: &Direction, wanted: (u64, usize, usize)) -> bool {
    let (octets, pieces, pdus) = wanted;
    direction.tail().offset() == octets
        && direction.pieces().len() == pieces
        && direction.pdus().len() == pdus
}

/// Whether a submit_sm came a piece, 300 other PDUs a piece, and session 1 is absent.
fn has_far_sizes(book: &Book) -> bool {
    has_sizes(book, FAR_SESSION, Dir::FromClient, (14_700, 300, 300))
        && has_sizes(book, FAR_SESSION, Dir::FromCentre, (21_600, 2, 600))
        && book.present().session(SessionId(1)).is_none()
}

/// The long PDU in one piece of session 1, then a submit_sm.
fn put_long_pdu(rt: &impl Abort, alloc: Global, book: &mut Book) {
    let origin = (1, 1, Dir::FromClient, 1000);
    put_long_piece(rt, alloc, book, origin);
    assert!(rt;
        has_sizes(book, 1, Dir::FromClient, (70_000, 1, 1)),
        "a piece of one long PDU"
    );
    send(rt, alloc, book, origin, Sent::Submit(1, NUMBER)).expect(rt, "a submit");
}

fn put_long_piece(rt: &impl Abort, alloc: Global, book: &mut Book, origin: Origin) {
    let mut octets = Vec::new(alloc);
    push_long_pdu(&mut octets).expect(rt, "a long PDU");
    append(alloc, book, origin, octets.as_slice()).expect(rt, "a long piece");
}

/// Whether this is counted of session 1 and session 2^32 + 1, and is the link of the far one.
fn has_far_rows(book: &Book) -> bool {
    messages_of(book, 1, Outcome::Waiting) == 1
        && messages_of(book, FAR_LINK, Outcome::Delivered) == 300
        && match book.present().session(SessionId(FAR_SESSION)) {
            Some(session) => session.link.0 == FAR_LINK,
            None => false,
        }
}

#[test]
fn far_numbers_and_large_sizes_are_taken(rt: HostRuntime) {
    let mut book = boxed_book(rt.alloc()).expect(&rt, "a book");
    put_messages(&rt, rt.alloc(), &mut book);
    assert!(rt; has_far_sizes(&book), "far sizes");
    put_long_pdu(&rt, rt.alloc(), &mut book);
    assert!(rt; has_far_rows(&book), "far numbers");
}
