//! What no clause says: octets of the standard's PDUs, and that calls succeed with ample memory.
use crate::tests::scripts::Misfit::*;
use crate::tests::scripts::Sent::*;
use crate::tests::scripts::Shown::*;
use crate::tests::scripts::Step::*;
use crate::tests::scripts::*;
use crate::tests::shown::{first_session, octets_from_client};
use smq_book::{Batch, Book, Content, Settings, StoredPdu};
use smq_frame::Tail;
use smq_kit::{Dir, Form, LinkId};
use std::alloc::Global;
use std::process::Abort;

/// What `SUBMIT` and `RESPONSE` make of session 10.
const RESPONDED: Shown = Session((1, 1, 1, 49, 1, 1000));

/// Pieces that are taken or refused.
pub(crate) const EDITS: Table = &[
    (
        "a response may come before its submit",
        &[RESPONSE, SUBMIT],
        &[RESPONDED],
    ),
    (
        "pieces are refused at the limit of octets, and where they are prepared on another tail",
        &[
            At(281_474_976_710_655, 0, Octets(b"\0\0"), StreamFull),
            At(281_474_976_710_656, 0, Octets(b"\0"), StreamFull),
            At(281_474_976_710_655, 0, Octets(b"\0"), OutOfStep(0)),
        ],
        &[],
    ),
    (
        "a stale batch is out of step",
        &[
            SUBMIT,
            RESPONSE,
            At(0, 999, Submit(1, NUMBER), OutOfStep(49)),
        ],
        &[RESPONDED],
    ),
];

/// What is sent first in a direction of session 10.
fn batch_of(rt: &impl Abort, alloc: Global, dir: Dir, moment: u64, sent: Sent) -> Batch {
    let octets = octets_of(alloc, sent).expect(rt, "octets");
    let origin = (1, 10, dir, moment);
    batch_on(alloc, &Tail::at(0), origin, octets.as_slice()).expect(rt, "a batch")
}

fn a_batch_says_what_it_was_prepared_with(rt: &impl Abort, alloc: Global) {
    let batch = batch_of(rt, alloc, Dir::FromClient, 1000, Submit(1, NUMBER));
    assert!(rt; is_prepared(&batch));
}

fn is_prepared(batch: &Batch) -> bool {
    goes_to_the_client(batch)
        && is_of_size(batch)
        && batch.moment().milliseconds() == 1000
        && batch.pdus().len() == 1
}

fn goes_to_the_client(batch: &Batch) -> bool {
    batch.link().0 == 1 && batch.session().0 == 10 && batch.dir() == Dir::FromClient
}

/// Whether its tail, its piece and its next tail are as long as they are of 49 octets that are a direction's first.
fn is_of_size(batch: &Batch) -> bool {
    batch.tail().offset() == 0 && batch.octets().len() == 49 && batch.next().offset() == 49
}

/// The offset, moment, command_id, command_status and sequence_number of a PDU.
type Header = (u64, u64, u32, u32, u32);

fn has_header(pdu: &StoredPdu, wanted: Header) -> bool {
    let (offset, moment, command, status, seq) = wanted;
    pdu.offset == offset
        && pdu.moment.milliseconds() == moment
        && pdu.command == command
        && pdu.status == status
        && pdu.seq == seq
}

/// What the readers of a content give: the registered_delivery of its submit_sm or data_sm, the message id of its
/// submit_sm_resp or data_sm_resp, what of it can't be read, and the id of the receipt that it is.
type Read<'a> = (
    Option<u8>,
    Option<&'a [u8]>,
    Option<&'a str>,
    Option<&'a [u8]>,
);

/// Whether the readers of a content give this.
fn gives(content: &Content, wanted: Read<'_>) -> bool {
    let (registered_delivery, id, fault, receipt) = wanted;
    has_submit(content, registered_delivery)
        && has_id(content, id)
        && has_fault(content, fault)
        && has_receipt(content, receipt)
}

fn has_submit(content: &Content, wanted: Option<u8>) -> bool {
    match (content.submit(), wanted) {
        (None, None) => true,
        (Some(submit), Some(wanted)) => submit.registered_delivery == wanted,
        _ => false,
    }
}

fn has_id(content: &Content, wanted: Option<&[u8]>) -> bool {
    match (content.message_id(), wanted) {
        (None, None) => true,
        (Some(id), Some(wanted)) => id.as_slice() == wanted,
        _ => false,
    }
}

fn has_fault(content: &Content, wanted: Option<&str>) -> bool {
    match (fault_of(content), wanted) {
        (None, None) => true,
        (Some(fault), Some(wanted)) => fault == wanted,
        _ => false,
    }
}

fn has_receipt(content: &Content, wanted: Option<&[u8]>) -> bool {
    match (content.receipt(), wanted) {
        (None, None) => true,
        (Some(receipt), Some(wanted)) => receipt.id.as_slice() == wanted,
        _ => false,
    }
}

fn fault_of(content: &Content) -> Option<&'static str> {
    match (content.is_unreadable(), content.is_undecodable()) {
        (false, false) => None,
        (true, false) => Some("unreadable"),
        (false, true) => Some("undecodable"),
        (true, true) => Some("both"),
    }
}

/// What is sent, and what the readers of its content give.
const CONTENTS: &[(&str, Sent, Read<'static>)] = &[
    (
        "a submit_sm",
        Sent::Submit(1, NUMBER),
        (Some(1), None, None, None),
    ),
    (
        "a submit_sm without fields",
        Sent::Pdu(4, 0, 1, b""),
        (None, None, Some("undecodable"), None),
    ),
    (
        "a response with an id",
        Sent::Response(1, 0, b"7a"),
        (None, Some(b"7a"), None, None),
    ),
    (
        "a response without an id",
        Sent::Response(1, 0, b""),
        (None, None, None, None),
    ),
    (
        "a receipt",
        Sent::Receipt(1, b"id:7a stat:DELIVRD"),
        (None, None, None, Some(b"7a")),
    ),
    (
        "a receipt without an id",
        Sent::Receipt(1, b"stat:DELIVRD"),
        (None, None, Some("unreadable"), None),
    ),
    (
        "a receipt without a state",
        Sent::Receipt(1, b"id:7a"),
        (None, None, Some("unreadable"), None),
    ),
    (
        "a message that is no receipt",
        Sent::Message(1, b"id:7a stat:DELIVRD"),
        (None, None, None, None),
    ),
    (
        "a data_sm that asks for a receipt and isn't one",
        Sent::Pdu(0x103, 0, 1, b"\0\0\0\0\0\0\0\0\x01\0"),
        (Some(1), None, None, None),
    ),
    (
        "a data_sm that is a receipt",
        Sent::Pdu(
            0x103,
            0,
            1,
            b"\0\0\0\0\0\0\0\x04\0\0\x04\x24\0\x12id:7a stat:DELIVRD",
        ),
        (Some(0), None, None, Some(b"7a")),
    ),
    (
        "a data_sm without fields",
        Sent::Pdu(0x103, 0, 1, b""),
        (None, None, Some("undecodable"), None),
    ),
    (
        "a data_sm_resp with an id",
        Sent::Pdu(0x8000_0103, 0, 1, b"7a\0"),
        (None, Some(b"7a"), None, None),
    ),
    (
        "an enquire_link",
        Sent::Pdu(0x15, 0, 1, b""),
        (None, None, None, None),
    ),
];

/// The content of each PDU is read by the one reader that knows it.
fn contents_are_read(rt: &impl Abort, alloc: Global) {
    for (what, sent, wanted) in CONTENTS {
        assert!(rt; is_content(rt, alloc, *sent, *wanted), "{what}");
    }
}

/// Whether this is read from the first PDU of what the centre sends.
fn is_content(rt: &impl Abort, alloc: Global, sent: Sent, wanted: Read<'_>) -> bool {
    let batch = batch_of(rt, alloc, Dir::FromCentre, 0, sent);
    is_first_read(batch.pdus(), wanted)
}

fn is_first_read(pdus: &[StoredPdu], wanted: Read<'_>) -> bool {
    match pdus.first() {
        Some(pdu) => gives(&pdu.content, wanted),
        None => false,
    }
}

fn a_submit_and_its_response_are_kept(rt: &impl Abort, alloc: Global) {
    let book = book_after(rt, alloc, "first", &[SUBMIT, RESPONSE]);
    let session = first_session(&book).expect(rt, "a session");
    assert!(rt; has_first_submit(session.client.pdus()), "a submit");
    assert!(rt; has_first_response(session.centre.pdus()), "a response");
}

fn has_first_submit(pdus: &[StoredPdu]) -> bool {
    is_first_read(pdus, (Some(1), None, None, None)) && is_first(pdus, (0, 1000, 4, 0, 1))
}

fn has_first_response(pdus: &[StoredPdu]) -> bool {
    is_first_read(pdus, (None, Some(b"1".as_slice()), None, None))
        && is_first(pdus, (0, 1200, 0x8000_0004, 0, 1))
}

fn is_first(pdus: &[StoredPdu], wanted: Header) -> bool {
    match pdus.first() {
        Some(pdu) => has_header(pdu, wanted),
        None => false,
    }
}

/// Forms that are set, in turn: the link, its forms in responses and in receipts.
const SET: &[(u32, Form, Form)] = &[
    (7, Form::Decimal, Form::Hexadecimal),
    (3, Form::Hexadecimal, Form::Decimal),
    (7, Form::Verbatim, Form::Decimal),
];

/// What is set then, by link.
const KEPT: &[(u32, Form, Form)] = &[
    (3, Form::Hexadecimal, Form::Decimal),
    (7, Form::Verbatim, Form::Decimal),
];

fn forms_are_set_and_set_anew_by_link(rt: &impl Abort, alloc: Global) {
    let mut book = boxed_book(alloc).expect(rt, "a book");
    set_all_forms(rt, &mut book);
    let origin = (7, 10, Dir::FromClient, 1000);
    send(rt, alloc, &mut book, origin, Submit(1, NUMBER)).expect(rt, "a submit");
    assert!(rt; has_forms(&book) && has_settings(book.present().settings()));
}

fn set_all_forms(rt: &impl Abort, book: &mut Book) {
    for (link, response, receipt) in SET {
        set_forms(book, *link, *response, *receipt).expect(rt, "forms");
    }
}

fn has_forms(book: &Book) -> bool {
    let mut place = 0usize;
    for (link, forms) in book.present().forms() {
        if !are_forms(KEPT.get(place), *link, forms) {
            return false;
        }
        place = place.saturating_add(1);
    }
    place == 2 && octets_from_client(book) == 49
}

fn are_forms(wanted: Option<&(u32, Form, Form)>, link: u32, forms: &smq_book::Forms) -> bool {
    match wanted {
        Some((number, response, receipt)) => {
            link == *number && forms.response == *response && forms.receipt == *receipt
        }
        None => false,
    }
}

fn has_settings(settings: &Settings) -> bool {
    let never_set = settings.forms_of(LinkId(4));
    settings.forms_of(LinkId(7)).receipt == Form::Decimal
        && never_set.response == Form::Verbatim
        && never_set.receipt == Form::Verbatim
        && never_set == smq_book::Forms::opening()
        && is_first_link(settings, 3)
}

fn is_first_link(settings: &Settings, wanted: u32) -> bool {
    let mut links = settings.forms();
    match links.next() {
        Some((link, _)) => *link == wanted,
        None => false,
    }
}

#[test]
fn edits_are_kept(rt: HostRuntime) {
    let alloc = rt.alloc();
    a_batch_says_what_it_was_prepared_with(&rt, alloc);
    a_submit_and_its_response_are_kept(&rt, alloc);
    contents_are_read(&rt, alloc);
    forms_are_set_and_set_anew_by_link(&rt, alloc);
}
