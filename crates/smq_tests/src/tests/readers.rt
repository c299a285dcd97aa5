//! The readers of tables, on one script that has every view and every list.
use crate::tests::scripts::Sent::*;
use crate::tests::scripts::Step::*;
use crate::tests::scripts::*;
use smq_book::{List, Outcome, Tables, View};
use smq_kit::Dir::{self, FromCentre, FromClient};
use std::process::Abort;

/// Messages that failed, are mismatched, lapsed, open and ambiguous; receipts that decide, are extra, stray, ambiguous and
/// unreadable; a PDU that can't be decoded, a bad length and a response without a request.
pub(crate) const EVERYTHING: &[Step] = &[
    Route(b"44", 0, 1, b"23410"),
    SUBMIT,
    RESPONSE,
    Centre(
        11,
        2000,
        Receipt(
            1,
            b"id:1 submit date:2502280000 done date:2502280000 stat:UNDELIV err:027",
        ),
    ),
    Centre(12, 3000, Receipt(1, b"id:1 stat:DELIVRD")),
    Centre(13, 2000, Receipt(1, b"id:9 stat:DELIVRD")),
    Centre(14, 2000, Receipt(1, b"id:9 stat:WHAT")),
    Client(15, 1000, Pdu(0x0000_0004, 0, 1, b"")),
    Client(16, 1000, Octets(b"\0\0\0\x0f\0\0\0\x04\0\0\0\0\0\0\0\x01")),
    Centre(17, 1000, Response(1, 0, b"2")),
    Client(18, 1000, Submit(1, NUMBER)),
    Centre(18, 1200, Pdu(0x8000_0015, 0, 1, b"")),
    Client(19, 1000, Submit(1, NUMBER)),
    Centre(19, 1200, Response(1, 0, b"3")),
    Client(20, 2000, Submit(1, NUMBER)),
    Centre(20, 2200, Response(1, 0, b"4")),
    Client(21, 1000, Submit(1, NUMBER)),
    Centre(21, 1200, Response(1, 0, b"5")),
    Client(21, 1000, Submit(2, NUMBER)),
    Centre(21, 1200, Response(2, 0, b"5")),
    Centre(22, 2000, Receipt(1, b"id:5 stat:DELIVRD")),
    Advance(172_801_000),
];

/// The first row of each view: its outcome and its count.
const ROWS: &[(View, Outcome, u64)] = &[
    (View::Link, Outcome::Mismatched, 1),
    (View::Route, Outcome::Mismatched, 1),
    (View::Network, Outcome::Mismatched, 1),
    (View::Error, Outcome::Failed, 1),
    (View::LinkDelay, Outcome::Failed, 1),
    (View::CentreDelay, Outcome::Failed, 1),
];

/// The first place of each list, which has offset 0.
const PLACES: &[(List, u64, Dir)] = &[
    (List::Waiting, 11, FromCentre),
    (List::StrayAnswers, 17, FromCentre),
    (List::Mismatched, 18, FromClient),
    (List::StrayReceipts, 13, FromCentre),
    (List::AmbiguousReceipts, 22, FromCentre),
    (List::ExtraReceipts, 12, FromCentre),
    (List::Unreadable, 14, FromCentre),
    (List::Undecodable, 15, FromClient),
    (List::Broken, 16, FromClient),
    (List::Open, 20, FromClient),
    (List::Lapsed, 19, FromClient),
];

/// Whether the first row of a view has this outcome, and this count by both readers.
fn begins_with_row(tables: &Tables, view: View, wanted: Outcome, number: u64) -> bool {
    let mut rows = tables.rows(view);
    match rows.next() {
        None => false,
        Some((value, outcome, count)) => {
            outcome == wanted && count == number && tables.count(view, value, outcome) == count
        },
    }
}

fn begins_with_place(tables: &Tables, list: List, session: u64, dir: Dir) -> bool {
    let mut places = tables.list(list);
    match places.next() {
        None => false,
        Some(place) => place.session.0 == session && place.dir == dir && place.offset == 0,
    }
}

fn assert_rows(rt: &impl Abort, tables: &Tables) {
    for (view, outcome, count) in ROWS {
        assert!(rt; begins_with_row(tables, *view, *outcome, *count), "a view");
    }
}

fn assert_places(rt: &impl Abort, tables: &Tables) {
    for (list, session, dir) in PLACES {
        assert!(rt; begins_with_place(tables, *list, *session, *dir), "a list");
    }
}

#[test]
fn every_view_and_list_is_read(rt: HostRuntime) {
    let book = book_after(&rt, rt.alloc(), "everything", EVERYTHING);
    assert_rows(&rt, book.tables());
    assert_places(&rt, book.tables());
}
